//! Steps that dump bytes.
use crate::parts::{ended_in_front, nothing};
use kx_cases::{Runs, StepFault, Subject, Taking, Texts, told_name, told_value, value};
use kx_text::dump_batches;
use std::alloc::Global;
use std::str;

/// What was printed of the bytes that were dumped last, and how many of its lines were told.
#[derive(Drop)]
pub(crate) struct Dumps {
    alloc: Global,
    printed: Vec<u8>,
    told: usize,
}

// A line that was printed, without its newline.
fn line_text(alloc: Global, line: &str) -> Result<String, StepFault> {
    match line.strip_suffix('\n') {
        Some(line) => told_value(alloc, line),
        None => Ok(format!(in alloc; "no newline: {line}")?),
    }
}

impl Dumps {
    // How a dump ends.
    fn dump(&mut self, bytes: &[u8]) -> Result<String, StepFault> {
        self.printed.clear();
        self.told = 0;
        told_name(self.alloc, dump_batches(bytes, &mut self.printed))
    }

    // The next line that was printed.
    fn line(&mut self) -> Result<String, StepFault> {
        let printed = str::from_utf8(self.printed.as_slice()).unwrap_or("");
        match printed.split_inclusive('\n').nth(self.told) {
            Some(line) => {
                self.told = self.told.saturating_add(1);
                line_text(self.alloc, line)
            }
            None => nothing(self.alloc),
        }
    }
}

// How a dump ends whose writer has room for this many bytes, where the front of what it writes is
// written.
fn with_room(alloc: Global, room: usize, bytes: &[u8], whole: &[u8]) -> Result<String, StepFault> {
    let mut writer = Taking {
        taken: Vec::new(alloc),
        room,
    };
    let ended = dump_batches(bytes, &mut writer);
    ended_in_front(alloc, ended, writer.taken.as_slice(), whole)
}

// How a dump ends whose writer has room for no byte, for one, and so on up to this many.
fn full(
    alloc: Global,
    runs: &mut Runs,
    most: usize,
    bytes: &[u8],
    whole: &[u8],
) -> Result<(), StepFault> {
    for room in 0..=most {
        runs.push(room, with_room(alloc, room, bytes, whole)?)?;
    }
    Ok(())
}

fn told_full(alloc: Global, most: usize, bytes: &[u8]) -> Result<String, StepFault> {
    let mut whole = Vec::new(alloc);
    let _ended = dump_batches(bytes, &mut whole);
    let mut runs = Runs::new(alloc);
    full(alloc, &mut runs, most, bytes, whole.as_slice())?;
    runs.finish().map_err(StepFault::Memory)
}

impl Subject for Dumps {
    fn new(alloc: Global) -> Self {
        Dumps {
            alloc,
            printed: Vec::new(alloc),
            told: 0,
        }
    }

    fn answer(&mut self, texts: &Texts, words: &[&str]) -> Result<String, StepFault> {
        match words {
            ["dump", bytes] => self.dump(texts.bytes(bytes)?.as_slice()),
            ["line"] => self.line(),
            ["full", most, bytes] => {
                let most = value(most)?;
                told_full(self.alloc, most, texts.bytes(bytes)?.as_slice())
            }
            _ => Err(StepFault::Unknown),
        }
    }
}
