//! Scripts in which an append fails and leaves a part of its bytes.
use crate::lines::tell_on_one_line;
use kx_cases::{Runs, StepFault, known, value};
use kx_core::{Event, Sent};
use kx_machine::StoreMode;
use kx_message::NodeId;
use kx_script::{Running, ScriptWorld, answer_in, world_in, write_dash, write_message};
use std::alloc::Global;
use std::str::Split;

// The world that a line makes.
fn world_of(alloc: Global, line: &str) -> Result<Running, StepFault> {
    let Some(partitions) = world_in(line.as_bytes()) else {
        return Err(StepFault::Unknown);
    };
    Ok(Running::new(alloc, partitions)?)
}

// Carries a line out, and writes its answer.
fn carry_out(
    alloc: Global,
    running: &mut Running,
    line: &str,
    writer: &mut Vec<u8>,
) -> Result<(), StepFault> {
    match answer_in(alloc, running, line.as_bytes(), writer) {
        Ok(true) => Ok(()),
        _ => Err(StepFault::Unknown),
    }
}

// Writes the messages from a number on, a line each.
fn write_from(
    sent: &Sent,
    first: usize,
    from: &NodeId,
    writer: &mut Vec<u8>,
) -> Result<(), StepFault> {
    if sent.len() <= first {
        return known(write_dash(writer));
    }
    for number in first..sent.len() {
        if let Some(message) = sent.get(number) {
            known(write_message(writer, number, from, message))?;
        }
    }
    Ok(())
}

// A message comes to its node, if an append that fails leaves this many bytes. Whether one
// failed.
fn fails(world: &mut ScriptWorld, number: usize, to: NodeId, keep: u64) -> Result<bool, StepFault> {
    let store = StoreMode::Fails { keep };
    let event = Event::Deliver { number, to, store };
    let happened = world.happen(&event);
    drop(event);
    Ok(happened?.failed)
}

// A message comes to its node, which has to append something: that fails, and leaves this many
// bytes. Writes what is sent.
fn tear(
    world: &mut ScriptWorld,
    number: usize,
    keep: u64,
    writer: &mut Vec<u8>,
) -> Result<(), StepFault> {
    let Some(message) = world.sent().get(number) else {
        return Err(StepFault::Unknown);
    };
    let to = message.receiver();
    let first = world.sent().len();
    if !fails(world, number, to, keep)? {
        return Err(StepFault::Unknown);
    }
    write_from(world.sent(), first, &to, writer)
}

// Carries lines out, the line `tear K` so that it leaves this many bytes; what was written before
// that one is dropped.
fn tear_in<'a>(
    alloc: Global,
    running: &mut Running,
    lines: Split<'a, char>,
    keep: u64,
    writer: &mut Vec<u8>,
) -> Result<(), StepFault> {
    for line in lines {
        match line.strip_prefix("tear ") {
            Some(number) => {
                writer.clear();
                tear(&mut running.world, value(number)?, keep, writer)?;
            }
            None => carry_out(alloc, running, line, writer)?,
        }
    }
    Ok(())
}

// Writes what a script writes from its line `tear K` on, if that leaves this many bytes.
fn torn(alloc: Global, script: &str, keep: u64, writer: &mut Vec<u8>) -> Result<(), StepFault> {
    let mut lines = script.split('\n');
    let mut running = world_of(alloc, lines.next().unwrap_or(""))?;
    let torn = tear_in(alloc, &mut running, lines, keep, writer);
    drop(running);
    torn
}

// Reports the same on one line.
fn tell_torn(alloc: Global, told: &mut String, script: &str, keep: u64) -> Result<(), StepFault> {
    let mut written = Vec::new(alloc);
    torn(alloc, script, keep, &mut written)?;
    tell_on_one_line(told, written.as_slice()).map_err(StepFault::Memory)
}

fn told_torn(alloc: Global, script: &str, keep: u64) -> Result<String, StepFault> {
    let mut told = String::new(alloc);
    tell_torn(alloc, &mut told, script, keep)?;
    Ok(told)
}

/// What a script writes from its line `tear K` on, which lets message K come to its node, while the
/// append there fails and leaves none of its bytes, one, and so on up to this many.
pub fn sweep(alloc: Global, runs: &mut Runs, most: usize, script: &str) -> Result<(), StepFault> {
    for keep in 0..=most {
        runs.push(keep, told_torn(alloc, script, keep as u64)?)?;
    }
    Ok(())
}
