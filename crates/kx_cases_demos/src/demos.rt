//! Demonstrations, and what each has to print.
ghost use Rattle.std.specs.Prelude.{◌≡◌, ◌≤◌, IfOk};

use crate::happened::Happened;
use kx_cases::{Script, StepFault, Tally, judge_script, value};
use kx_demo::demo;
use kx_play::{PlayOptions, Records, WorkerCount};
use kx_relay::{Holding, Losses};
use std::alloc::Global;
use std::fs::{File, Files};
use std::io;
use std::net::{Net, TcpListener, TcpStream};
use std::sync::Wait;
use std::thread::Threads;
use std::time::Clock;

// What a demonstration is asked for, as a line has it.
fn options_in(alloc: Global, line: &str) -> Result<PlayOptions, StepFault> {
    let words: Vec<&str> = line.split(' ').collect(alloc)?;
    match words.as_slice() {
        [
            "workers",
            workers,
            "records",
            records,
            "seed",
            seed,
            "lose",
            lose,
            "hold",
            hold,
        ] => {
            Ok(PlayOptions {
                workers: WorkerCount::new(value(workers)?).ok_or(StepFault::Unknown)?,
                records: Records::new(value(records)?).ok_or(StepFault::Unknown)?,
                seed: value(seed)?,
                lose: Losses::new(value(lose)?).ok_or(StepFault::Unknown)?,
                hold: Holding::new(value(hold)?).ok_or(StepFault::Unknown)?,
            })
        }
        _ => Err(StepFault::Unknown),
    }
}

// Reports what happened, by the trace: the facts that are asked for.
fn tell_trace(
    alloc: Global,
    trace: &[u8],
    facts: &str,
    told: &mut String,
) -> Result<(), StepFault> {
    let Ok(trace) = str::from_utf8(trace) else {
        return Err(StepFault::Unknown);
    };
    let happened = Happened::new(alloc, trace)?;
    for fact in facts.split_ascii_whitespace() {
        happened.tell(fact, told)?;
    }
    Ok(())
}

// What a demonstration prints, how it ended, and what happened.
fn played<
    R: Net<Listener = TcpListener, Stream = TcpStream>
        + AllocGlobal
        + Eprint
        + Threads
        + Wait
        + Clock
        + Copy
        + Send
        + Sync
        + Drop
        + 'static,
>(rt: &R, asked: &str) -> Result<String, StepFault> {
    let alloc = rt.alloc();
    let (line, facts) = asked.split_once('\n').ok_or(StepFault::Unknown)?;
    let options = options_in(alloc, line)?;
    let mut out = Vec::new(alloc);
    let mut trace = Vec::new(alloc);
    let ended = demo(*rt, &options, &mut out, Some(&mut trace), None);
    let mut told = String::from_utf8(out).map_err(|_| StepFault::Unknown)?;
    match ended {
        Ok(true) => tell_trace(alloc, trace.as_slice(), facts, &mut told)?,
        Ok(false) => writeln!(told, "no")?,
        Err(fault) => writeln!(told, "fault {}", fault.number())?,
    }
    Ok(told)
}

/// Plays the demonstration that the first line of NAME.demo asks for, and tells the facts that the
/// second line names. What it prints and these have to be NAME.out; prints `ok NAME` or
/// `FAILED NAME`.
pub fn try_demo<
    R: Net<Listener = TcpListener, Stream = TcpStream>
        + Files<File = File>
        + Print
        + AllocGlobal
        + Eprint
        + Threads
        + Wait
        + Clock
        + Copy
        + Send
        + Sync
        + Drop
        + 'static,
>(rt: &R, name: &str) -> io::Result<Tally>
    ensures { IfOk result (λ tally. (tally.tried ≡ 1) × (tally.failed ≤ 1)) }
{
    let Script { text, wanted } = Script::read(rt, name, "demo")?;
    let told = played(rt, text.as_str());
    judge_script(rt, name, wanted.as_str(), told)
}
