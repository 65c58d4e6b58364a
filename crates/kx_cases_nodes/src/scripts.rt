//! Steps that run scripts: as they stand, over streams that fail, with appends that fail, with each
//! byte in a place, one of a long line, and after many lines.
use crate::lines::{script_of, tell_on_one_line};
use crate::parts::ended_in_front;
use crate::sweeps::sweep;
use kx_cases::{Giving, Runs, StepFault, Subject, Taking, Texts, told_name, value};
use kx_script::run_script;
use std::alloc::{AllocError, Global};
use std::io::BufRead;

/// Each script begins anew.
#[derive(Drop)]
pub(crate) struct Scripts {
    alloc: Global,
}

// What a script writes, and how it ends.
fn tell_run<R: BufRead>(
    alloc: Global,
    told: &mut String,
    reader: &mut R,
) -> Result<(), AllocError> {
    let mut written = Vec::new(alloc);
    let ended = run_script(alloc, reader, &mut written);
    tell_on_one_line(told, written.as_slice())?;
    write!(told, "{ended:?}")
}

fn run<R: BufRead>(alloc: Global, reader: &mut R) -> Result<String, StepFault> {
    let mut told = String::new(alloc);
    tell_run(alloc, &mut told, reader)?;
    Ok(told)
}

// What the script writes.
fn whole(alloc: Global, script: &str) -> Vec<u8> {
    let mut reader = script.as_bytes();
    let mut written = Vec::new(alloc);
    let _ended = run_script(alloc, &mut reader, &mut written);
    written
}

// How the script ends if its writer has room for this many bytes, and the front of what it
// writes is written.
fn with_room(alloc: Global, room: usize, script: &str, whole: &[u8]) -> Result<String, StepFault> {
    let mut reader = script.as_bytes();
    let mut writer = Taking {
        taken: Vec::new(alloc),
        room,
    };
    let ended = run_script(alloc, &mut reader, &mut writer);
    ended_in_front(alloc, ended, writer.taken.as_slice(), whole)
}

// How the script ends if its writer has room for no byte, for one, and so on up to this many.
fn full(alloc: Global, runs: &mut Runs, most: usize, script: &str) -> Result<(), StepFault> {
    let whole = whole(alloc, script);
    for room in 0..=most {
        let ended = with_room(alloc, room, script, whole.as_slice())?;
        runs.push(room, ended)?;
    }
    Ok(())
}

// How the script ends, and how many bytes it writes, if its reader gives this many bytes at once
// and fails after this many reads.
fn read_in(alloc: Global, once: usize, reads: usize, script: &str) -> Result<String, StepFault> {
    let mut reader = Giving::new(script.as_bytes(), once, reads);
    let mut written = Vec::new(alloc);
    let ended = run_script(alloc, &mut reader, &mut written);
    let count = written.len();
    format!(in alloc; "{ended:?} {count}").map_err(StepFault::Memory)
}

// How the script ends if its reader fails at the first read, at the second, and so on up to this many.
fn reads(
    alloc: Global,
    runs: &mut Runs,
    once: usize,
    most: usize,
    script: &str,
) -> Result<(), StepFault> {
    for reads in 0..=most {
        runs.push(reads, read_in(alloc, once, reads, script)?)?;
    }
    Ok(())
}

// The script with this byte in the place of each `?`.
fn with_byte(alloc: Global, script: &str, byte: u8) -> Result<Vec<u8>, AllocError> {
    let mut text = Vec::from_slice(alloc, script.as_bytes())?;
    for place in text.iter_mut() {
        if *place == b'?' {
            *place = byte;
        }
    }
    Ok(text)
}

// How the script ends with this byte in the place of its `?`.
fn ended_with(alloc: Global, script: &str, byte: u8) -> Result<String, StepFault> {
    let text = with_byte(alloc, script, byte)?;
    let mut reader = text.as_slice();
    told_name(alloc, run_script(alloc, &mut reader, &mut Vec::new(alloc)))
}

// How the script ends with each byte in the place of its `?`.
fn each_byte(alloc: Global, runs: &mut Runs, script: &str) -> Result<(), StepFault> {
    for byte in 0..=u8::MAX {
        runs.push(usize::from(byte), ended_with(alloc, script, byte)?)?;
    }
    Ok(())
}

// A script that puts this many words at once, and then one.
fn push_long_put(script: &mut String, words: usize) -> Result<(), AllocError> {
    script.push_str("world 1\nput 0")?;
    for _ in 0..words {
        script.push_str(" a")?;
    }
    script.push_str("\nput 0 b\n")
}

fn long_put(alloc: Global, words: usize) -> Result<String, StepFault> {
    let mut script = String::new(alloc);
    push_long_put(&mut script, words)?;
    run(alloc, &mut script.as_bytes())
}

// A script after n empty lines.
fn far_down(alloc: Global, lines: usize, script: &str) -> Result<String, StepFault> {
    let mut text = String::new(alloc);
    for _ in 0..lines {
        text.push('\n')?;
    }
    text.push_str(script)?;
    run(alloc, &mut text.as_bytes())
}

// The number at the front of a text, and what is after it.
fn numbered(text: &str) -> Result<(usize, &str), StepFault> {
    let Some((number, rest)) = text.split_once(' ') else {
        return Err(StepFault::Unknown);
    };
    Ok((value(number)?, rest))
}

// Runs a script many times. In front of it stand the numbers of the step.
fn many(alloc: Global, runs: &mut Runs, name: &str, text: &str) -> Result<(), StepFault> {
    match name {
        "each_byte" => each_byte(alloc, runs, text),
        "sweep" => {
            let (most, script) = numbered(text)?;
            sweep(alloc, runs, most, script)
        }
        "full" => {
            let (most, script) = numbered(text)?;
            full(alloc, runs, most, script)
        }
        "reads" => {
            let (once, text) = numbered(text)?;
            let (most, script) = numbered(text)?;
            reads(alloc, runs, once, most, script)
        }
        _ => Err(StepFault::Unknown),
    }
}

fn told_many(alloc: Global, name: &str, text: &str) -> Result<String, StepFault> {
    let mut runs = Runs::new(alloc);
    many(alloc, &mut runs, name, text)?;
    runs.finish().map_err(StepFault::Memory)
}

// Takes a step of this name, with the text after it.
fn taken(alloc: Global, name: &str, text: &str) -> Result<String, StepFault> {
    match name {
        "run" => run(alloc, &mut text.as_bytes()),
        "torn" => run(alloc, &mut Giving::new(text.as_bytes(), usize::MAX, 1)),
        "long_put" => long_put(alloc, value(text)?),
        "far_down" => {
            let (lines, script) = numbered(text)?;
            far_down(alloc, lines, script)
        }
        _ => told_many(alloc, name, text),
    }
}

impl Subject for Scripts {
    fn new(alloc: Global) -> Self {
        Scripts { alloc }
    }

    fn answer(&mut self, _texts: &Texts, words: &[&str]) -> Result<String, StepFault> {
        let [name, given @ ..] = words else {
            return Err(StepFault::Unknown);
        };
        taken(self.alloc, name, script_of(self.alloc, given)?.as_str())
    }
}
