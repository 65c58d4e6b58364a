//! Tries all cases. Each argument names a file, by whose ending it is known what it has:
//!
//! - NAME.cases: cases, of what the front of NAME says, up to its first `_`;
//! - NAME.kx: a script, which has to write NAME.out;
//! - NAME.served: a script that threads carry out, NAME.shown: one over a log that is published,
//!   and NAME.session: a session with a server, each of which has to tell NAME.out;
//! - NAME.demo: what a demonstration is asked for, which has to print NAME.out;
//! - NAME.program: runs of the program with words and streams, which have to tell NAME.out.
//!
//! Prints of each case and each file whether its answers came, and how many failed.
//!
//! `runs` and `trial` try runs of the program, with its arguments and streams passed in and what
//! each has to write; `output` keeps what is written.
#![tactic(auto)]

ghost use Rattle.std.specs.Prelude.{◌≤◌, IfOk};

mod output;
mod runs;
mod trial;

use crate::trial::try_program;
use kx_cases::{Tally, tell};
use kx_cases_clients::try_clients;
use kx_cases_demos::try_demo;
use kx_cases_example::try_example;
use kx_cases_formats::try_formats;
use kx_cases_groups::try_groups;
use kx_cases_logs::try_logs;
use kx_cases_nodes::{try_nodes, try_pair};
use kx_cases_published::try_shown;
use kx_cases_server::try_session;
use kx_cases_streams::try_streams;
use kx_cases_threads::try_served;
use std::env::Env;
use std::fs::{File, Files};
use std::net::{Net, TcpListener, TcpStream};
use std::process::ExitCode;
use std::random::RandomSource;
use std::sync::Wait;
use std::thread::Threads;
use std::time::Clock;
use std::{env, fs, io};

// Tries cases of what the front of their file's name says. Cases of anything else fail.
fn try_front(rt: &(impl Print + AllocGlobal), front: &str, text: &str) -> io::Result<Tally>
    ensures { IfOk result (λ tally. tally.failed ≤ tally.tried) }
{
    if let Some(tally) = try_formats(rt, front, text)? {
        return Ok(tally);
    }
    if let Some(tally) = try_logs(rt, front, text)? {
        return Ok(tally);
    }
    if let Some(tally) = try_groups(rt, front, text)? {
        return Ok(tally);
    }
    if let Some(tally) = try_clients(rt, front, text)? {
        return Ok(tally);
    }
    if let Some(tally) = try_nodes(rt, front, text)? {
        return Ok(tally);
    }
    if let Some(tally) = try_example(rt, front, text)? {
        return Ok(tally);
    }
    match try_streams(rt, front, text)? {
        Some(tally) => Ok(tally),
        None => tell(rt, front, false),
    }
}

// Tries the cases of the file NAME.cases.
fn try_file(rt: &(impl Files + Print + AllocGlobal), name: &str) -> io::Result<Tally>
    ensures { IfOk result (λ tally. tally.failed ≤ tally.tried) }
{
    let path = format!(in rt.alloc(); "{name}.cases")?;
    let text = fs::read_to_string(rt, path.as_str())?;
    println!(rt; "{path}:")?;
    try_front(rt, name.split('_').next().unwrap_or(""), text.as_str())
}

// Tries what the arguments name. A file of another ending fails.
fn try_arguments<
    R: Env
        + Files<File = File>
        + Print
        + AllocGlobal
        + Eprint
        + Net<Listener = TcpListener, Stream = TcpStream>
        + Threads
        + Wait
        + Clock
        + RandomSource
        + Copy
        + Send
        + Sync
        + Drop
        + 'static,
>(rt: &R) -> io::Result<Tally>
where
    R::Dir: Send,
{
    let mut tally = Tally::none();
    for path in env::args(rt)?.skip(1) {
        let tried = match path.rsplit_once('.') {
            Some((name, "cases")) => try_file(rt, name)?,
            Some((name, "kx")) => try_pair(rt, name)?,
            Some((name, "served")) => try_served(rt, name)?,
            Some((name, "shown")) => try_shown(rt, name)?,
            Some((name, "session")) => try_session(rt, name)?,
            Some((name, "demo")) => try_demo(rt, name)?,
            Some((name, "program")) => try_program(rt, name)?,
            Some(_) | None => tell(rt, path.as_str(), false)?,
        };
        tally = tally.and(tried);
    }
    Ok(tally)
}

fn main(rt: HostRuntime) -> io::Result<ExitCode> {
    let tally = try_arguments(&rt)?;
    println!(rt; "{} tried, {} failed", tally.tried, tally.failed)?;
    Ok(tally.exit_code())
}
