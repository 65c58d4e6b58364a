//! Cases of Kafka's own requests and responses (`kx_kafka`). Each argument names a file of cases.
#![tactic(auto)]

ghost use Rattle.std.specs.Prelude.{◌≤◌, IfOk};

use crate::requests::{told_changes, told_cuts, told_front, told_request};
use crate::responses::{Said, response};
use crate::streams::{By, told_feed, told_singly};
use kx_cases::{StepFault, Subject, Tally, Texts, told_bytes, try_cases, value};
use kx_kafka::Frames;
use std::alloc::Global;
use std::env::Env;
use std::fs::Files;
use std::process::ExitCode;
use std::{env, fs, io};

mod requests;
mod responses;
mod streams;

// The frame of a response, whose step says its API, the version, the correlation id and its values.
fn told_response(alloc: Global, given: &[&str], bytes: &[u8]) -> Result<String, StepFault> {
    let [api, version, correlation_id, words @ ..] = given else {
        return Err(StepFault::Unknown);
    };
    let said = Said {
        alloc,
        version: value(version)?,
        correlation_id: value(correlation_id)?,
        words,
        bytes,
    };
    let frame = response(api, said)?;
    Ok(told_bytes(alloc, frame.as_slice())?)
}

/// A case: its steps feed one stream, and else each stands by itself.
#[derive(Drop)]
struct KafkaCases {
    alloc: Global,
    frames: Frames,
}

impl KafkaCases {
    // What a step tells of its bytes.
    fn step(&mut self, name: &str, given: &[&str], bytes: &[u8]) -> Result<String, StepFault> {
        let alloc = self.alloc;
        match name {
            "request" => told_request(alloc, bytes),
            "cuts" => told_cuts(alloc, bytes),
            "changes" => told_changes(alloc, bytes),
            "front" => told_front(alloc, bytes),
            "response" => told_response(alloc, given, bytes),
            "feed" => told_feed(alloc, &mut self.frames, bytes, By::Text),
            "sizes" => told_feed(alloc, &mut self.frames, bytes, By::Size),
            "singly" => told_singly(alloc, &mut self.frames, bytes),
            _ => Err(StepFault::Unknown),
        }
    }
}

impl Subject for KafkaCases {
    fn new(alloc: Global) -> Self {
        KafkaCases {
            alloc,
            frames: Frames::new(alloc),
        }
    }

    fn answer(&mut self, texts: &Texts, words: &[&str]) -> Result<String, StepFault> {
        let [name, given @ .., text] = words else {
            return Err(StepFault::Unknown);
        };
        let bytes = texts.bytes(text)?;
        self.step(name, given, bytes.as_slice())
    }
}

fn try_arguments(rt: &(impl Env + Files + Print + AllocGlobal)) -> io::Result<Tally> {
    let mut tally = Tally::none();
    for name in env::args(rt)?.skip(1) {
        let text = fs::read_to_string(rt, name.as_str())?;
        tally = tally.and(try_cases::<KafkaCases>(rt, text.as_str())?);
    }
    Ok(tally)
}

fn main(rt: HostRuntime) -> io::Result<ExitCode> {
    let tally = try_arguments(&rt)?;
    println!(rt; "{} tried, {} failed", tally.tried, tally.failed)?;
    Ok(tally.exit_code())
}
