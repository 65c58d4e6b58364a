//! Runs of the program. The lines of a file of runs:
//!
//! - `bytes NAME = BYTES` gives bytes a name, as in files of cases;
//! - `file PATH BYTES` puts bytes into a file; `folder FOLDER` makes a folder, and `clear FOLDER`
//!   removes it and what is in it;
//! - `same PATH WANTED` tells whether two files have the same bytes;
//! - `there PATH` tells whether there is a file of this path, and `trace PATH` of how many
//!   partitions the logs are shown in the trace of a demonstration that it holds;
//! - `input FILE` is what standard input has from here on, and `input FILE N` the same, if a
//!   read fails after N reads; without such a line it has nothing;
//! - `room N` is how many bytes standard output has room for from here on, `errors N` the same of
//!   standard error; without such a line there is room for all;
//! - `clients N` has N clients connect to each server from here on, once it tells its port; they
//!   close their connections at once;
//! - `run WORDS` runs the program with these words, and tells what it wrote on standard output, its
//!   status, and what it wrote on standard error: of wrong arguments only that there are words, of
//!   anything else each line after `! `. The word `""` is an empty one; in their place `TAKEN` is a
//!   port on which another listens;
//! - `help WORDS` is the same, but of standard output it tells only that there are words,
//!   `verdict WORDS` the same, but it tells only its lines from the one that begins with `audit `
//!   on, and `count WORDS` the same, but of standard error it tells only how many lines there are;
//! - `no_words KIND` runs it if its words can't be had: `text` if one isn't text, `memory`
//!   if memory ran out.
use crate::output::Output;
use kx_cases::{Giving, StepFault, Texts, value};
use kx_cases_demos::Happened;
use kx_program::run;
use kx_text::Ending;
use std::alloc::{AllocError, Global};
use std::fs::{File, Files};
use std::io::{BufWriter, ErrorKind};
use std::net::{Net, TcpListener, TcpStream};
use std::random::RandomSource;
use std::sync::Wait;
use std::thread::Threads;
use std::time::Clock;
use std::{fs, io};

/// The runs of a file, and what they have told.
#[derive(Drop)]
pub(crate) struct ProgramRuns<R: Drop> {
    rt: R,
    alloc: Global,
    texts: Texts,
    input: Vec<u8>,
    reads: usize,
    room: usize,
    errors: usize,
    clients: usize,
    told: String,
}

// What is told of a run's streams.
#[derive(Clone, Copy, PartialEq, Eq)]
enum Telling {
    // the text of both
    Text,
    // of standard output only that there are words
    Words,
    // of standard output only the verdict of an audit
    Verdict,
    // of standard error only how many lines there are
    Lines,
}

// Reports that there are words, if there are.
fn tell_words(told: &mut String, text: &str) -> Result<(), AllocError> {
    if text.is_empty() {
        return Ok(());
    }
    writeln!(told, "words")
}

// Reports the verdict of an audit, which ends what was written.
fn tell_verdict(told: &mut String, text: &str) -> Result<(), AllocError> {
    let mut is_there = false;
    for line in text.lines() {
        is_there = is_there || line.starts_with("audit ");
        if is_there {
            writeln!(told, "{line}")?;
        }
    }
    Ok(())
}

// Reports what was written on standard output; a port may be any.
fn tell_output(told: &mut String, text: &str, telling: Telling) -> Result<(), AllocError> {
    if telling == Telling::Words {
        return tell_words(told, text);
    }
    if telling == Telling::Verdict {
        return tell_verdict(told, text);
    }
    for line in text.lines() {
        if line.starts_with("listening ") {
            writeln!(told, "listening PORT")?;
        } else {
            writeln!(told, "{line}")?;
        }
    }
    Ok(())
}

// Reports what was written on standard error.
fn tell_errors(
    told: &mut String,
    text: &str,
    status: u8,
    telling: Telling,
) -> Result<(), AllocError> {
    if status == Ending::WrongArguments.status() {
        return tell_words(told, text);
    }
    if telling == Telling::Lines {
        let count = text.lines().count();
        return writeln!(told, "lines {count}");
    }
    for line in text.lines() {
        writeln!(told, "! {line}")?;
    }
    Ok(())
}

impl<
    R: Net<Listener = TcpListener, Stream = TcpStream>
        + Files<File = File>
        + AllocGlobal
        + Eprint
        + Threads
        + Wait
        + Clock
        + RandomSource
        + Copy
        + Send
        + Sync
        + Drop
        + 'static,
> ProgramRuns<R> {
    /// A run that has not begun: standard input has nothing, and the other streams have room for
    /// all.
    pub(crate) fn new(rt: R) -> Self {
        let alloc = rt.alloc();
        ProgramRuns {
            rt,
            alloc,
            texts: Texts::new(alloc),
            input: Vec::new(alloc),
            reads: usize::MAX,
            room: usize::MAX,
            errors: usize::MAX,
            clients: 0,
            told: String::new(alloc),
        }
    }

    // Runs the program with these words.
    fn run_with(
        &mut self,
        words: io::Result<Vec<String>>,
        telling: Telling,
    ) -> Result<(), StepFault> {
        let taken = Vec::new(self.alloc);
        let out = Output::new(self.rt, taken, self.room, self.clients);
        let Ok(mut out) = BufWriter::new(self.alloc, out) else {
            return Err(StepFault::Memory(AllocError));
        };
        let mut errors = Output::new(self.rt, Vec::new(self.alloc), self.errors, 0);
        let mut input = Giving::new(self.input.as_slice(), usize::MAX, self.reads);
        let ending = run(&self.rt, words, false, &mut input, &mut out, &mut errors);
        let status = ending.status();
        tell_output(&mut self.told, out.get_ref().text(), telling)?;
        writeln!(self.told, "status {status}")?;
        Ok(tell_errors(&mut self.told, errors.text(), status, telling)?)
    }

    // A word of a run.
    fn word_of(&self, given: &str, taken: u16) -> Result<String, AllocError> {
        match given {
            "\"\"" => Ok(String::new(self.alloc)),
            "TAKEN" => format!(in self.alloc; "{taken}"),
            _ => String::from_str(self.alloc, given),
        }
    }

    // The words of a run, after the program's name.
    fn words_of(&self, given: &[&str], taken: u16) -> Result<Vec<String>, AllocError> {
        let mut words = Vec::new(self.alloc);
        words.push(String::from_str(self.alloc, "kx_main")?)?;
        for word in given {
            words.push(self.word_of(word, taken)?)?;
        }
        Ok(words)
    }

    fn run_words(&mut self, given: &[&str], telling: Telling) -> Result<(), StepFault> {
        for (place, word) in given.iter().enumerate() {
            let parted = if place == 0 { "$ " } else { " " };
            write!(self.told, "{parted}{word}")?;
        }
        writeln!(self.told)?;
        let Ok(listener) = TcpListener::bind(&self.rt, ("127.0.0.1", 0u16)) else {
            return Err(StepFault::Unknown);
        };
        let Ok(taken) = listener.local_addr() else {
            return Err(StepFault::Unknown);
        };
        let words = self.words_of(given, taken.port())?;
        let done = self.run_with(Ok(words), telling);
        drop(listener);
        done
    }

    fn run_without(&mut self, kind: &str) -> Result<(), StepFault> {
        let kind = match kind {
            "text" => ErrorKind::InvalidData,
            "memory" => ErrorKind::OutOfMemory,
            _ => return Err(StepFault::Unknown),
        };
        self.run_with(Err(io::Error::from(kind)), Telling::Text)
    }

    // What standard input has from here on.
    fn give(&mut self, file: &str, reads: usize) -> Result<(), StepFault> {
        let Ok(bytes) = fs::read(&self.rt, file) else {
            return Err(StepFault::Unknown);
        };
        self.input = bytes;
        self.reads = reads;
        Ok(())
    }

    fn put(&self, file: &str, bytes: &str) -> Result<(), StepFault> {
        let bytes = self.texts.bytes(bytes)?;
        fs::write(&self.rt, file, bytes.as_slice()).map_err(|_| StepFault::Unknown)
    }

    fn tell_there(&mut self, path: &str) -> Result<(), StepFault> {
        let word = match fs::metadata(&self.rt, path) {
            Ok(_) => "there",
            Err(_) => "missing",
        };
        Ok(writeln!(self.told, "{path} {word}")?)
    }

    // Reports whether a file has the bytes of another one.
    fn tell_same(&mut self, path: &str, wanted: &str) -> Result<(), StepFault> {
        let Ok(found) = fs::read(&self.rt, path) else {
            return Err(StepFault::Unknown);
        };
        let Ok(wanted) = fs::read(&self.rt, wanted) else {
            return Err(StepFault::Unknown);
        };
        let word = if found.as_slice() == wanted.as_slice() {
            "is as wanted"
        } else {
            "differs"
        };
        Ok(writeln!(self.told, "{path} {word}")?)
    }

    // Tells of how many partitions a trace shows the logs.
    fn tell_trace(&mut self, path: &str) -> Result<(), StepFault> {
        let Ok(trace) = fs::read_to_string(&self.rt, path) else {
            return Err(StepFault::Unknown);
        };
        Happened::new(self.alloc, trace.as_str())?.tell("logs", &mut self.told)
    }

    // Sets up what a run finds.
    fn prepare(&mut self, words: &[&str]) -> Result<(), StepFault> {
        match words {
            ["bytes", name, "=", bytes] => self.texts.name(name, bytes)?,
            ["file", path, bytes] => self.put(path, bytes)?,
            ["folder", folder] => {
                fs::create_dir_all(&self.rt, *folder).map_err(|_| StepFault::Unknown)?;
            }
            ["clear", folder] => {
                let _is_gone = fs::remove_dir_all(&self.rt, *folder);
            }
            ["same", path, wanted] => self.tell_same(path, wanted)?,
            ["there", path] => self.tell_there(path)?,
            ["trace", path] => self.tell_trace(path)?,
            ["input", file] => self.give(file, usize::MAX)?,
            ["input", file, reads] => self.give(file, value(reads)?)?,
            ["room", room] => self.room = value(room)?,
            ["errors", room] => self.errors = value(room)?,
            ["clients", count] => self.clients = value(count)?,
            _ => return Err(StepFault::Unknown),
        }
        Ok(())
    }

    // Takes a step.
    fn take(&mut self, words: &[&str]) -> Result<(), StepFault> {
        match words {
            ["run"] => self.run_words(&[], Telling::Text),
            ["run", given @ ..] => self.run_words(given, Telling::Text),
            ["help", given @ ..] => self.run_words(given, Telling::Words),
            ["verdict", given @ ..] => self.run_words(given, Telling::Verdict),
            ["count", given @ ..] => self.run_words(given, Telling::Lines),
            ["no_words", kind] => self.run_without(kind),
            _ => self.prepare(words),
        }
    }

    fn take_all(&mut self, runs: &str) -> Result<(), StepFault> {
        for line in runs.lines() {
            if line.is_empty() || line.starts_with('#') {
                continue;
            }
            let words: Vec<&str> = line.split(' ').collect(self.alloc)?;
            self.take(words.as_slice())?;
        }
        Ok(())
    }

    /// Takes all steps of a file, and gives what they tell; or the fault of the first one that
    /// can't be taken.
    pub(crate) fn tell(mut self, runs: &str) -> Result<String, StepFault> {
        self.take_all(runs)?;
        Ok(self.told)
    }
}
