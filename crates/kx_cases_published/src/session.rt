//! A node whose log is published, and what the lines of a script do with it:
//!
//! - `put WORD..` puts a batch of these values: `offset N`; `bring BYTES` delivers the messages of
//!   frames, and tells what each step sends as `NODE MESSAGE`, `-` if nothing; `bytes NAME =
//!   BYTES` gives bytes a name;
//! - `publish` publishes the log: `published K`; `finish` ends the node: `finished N`, with the
//!   count of its steps;
//! - `reader A` takes a reader: `reader`, or `no reader`; `drop A` gives it back; `learn A` has it
//!   learn what was told last; `page A FROM MODE` has it enter, and tells the page that it gets as
//!   scripts do, or `gone`; it is in the log until it enters again, learns, or by `leave A`;
//! - `stay A FROM MODE LINE` has it enter, carries LINE out meanwhile, tells the page of the log
//!   that it is in before and after that, and has it leave. The second publish, and the end, wait
//!   for a reader that doesn't leave;
//! - `race R N` has R threads, each with a reader, enter, look and leave while N batches are put,
//!   each published at once: `R readers saw growing logs`, or what a thread saw instead;
//!   `pages R N` does the same with pages of 64 KiB, and tells how many they took.
ghost use Rattle.std.specs.Prelude.{◌<◌, length, IfOk};

use crate::crowd::Crowd;
use crate::pages::{View, tell_entered, tell_gone, tell_published};
use crate::puts::{VALUE, tell_receipt, values_of};
use crate::seen::{Pace, Seen, tell_pages, tell_race};
use kx_cases::{StepFault, Texts, value};
use kx_machine::Input;
use kx_nodes::{Made, Node, Receipt, Traced};
use kx_published::book::Naming;
use kx_published::ends::PageReader;
use kx_published::told::Told;
use kx_publishing::{Logging, PublishedMachine, PublishedNode};
use kx_text::mode_of;
use kx_wire::Frames;
use std::alloc::{AllocError, Global};
use std::sync::Wait;
use std::thread::Threads;

// A node whose log is published, with its trace.
pub(crate) type Published<M, B, J, R> = Node<PublishedMachine<Traced<M, B>, J, R>>;

// A reader under its name.
#[derive(Drop)]
struct Named<J: Naming> {
    name: String,
    reader: PageReader<J>,
}

/// A node whose log is published, its readers, and what is told.
#[derive(Drop)]
pub(crate) struct Session<M: Logging, B: Made, J: Naming, R: Wait + Drop> {
    rt: R,
    alloc: Global,
    texts: Texts,
    // dropped before the node, whose drop waits until they have left
    readers: Vec<Named<J>>,
    node: Option<Published<M, B, J, R>>,
    last: Option<Told<J>>,
    told: String,
}

// The place of the reader of this name.
fn place_of<J: Naming>(readers: &[Named<J>], name: &str) -> Result<usize, StepFault>
    ensures { IfOk result (λ at. at < length readers.now) }
{
    readers
        .iter()
        .position(|named| named.name.as_str() == name)
        .ok_or(StepFault::Unknown)
}

fn view_of(from: &str, mode: &str) -> Result<View, StepFault> {
    let from: i64 = value(from)?;
    let mode = mode_of(mode.as_bytes()).ok_or(StepFault::Unknown)?;
    Ok(View { from, mode })
}

// Has a reader learn what was told, if it is of its partition.
fn learn<J: Naming>(reader: &mut PageReader<J>, told: &Told<J>) -> Result<(), StepFault> {
    if told.partition() != reader.partition() {
        return Err(StepFault::Unknown);
    }
    reader.learn(told.again());
    Ok(())
}

impl<
    M: Logging,
    B: Made,
    J: Naming + Send + 'static,
    R: Threads + Wait + Copy + Send + 'static,
> Session<M, B, J, R> {
    /// A node with no readers, of which nothing is told.
    pub(crate) fn new(rt: R, alloc: Global, node: Published<M, B, J, R>) -> Self {
        Session {
            rt,
            alloc,
            texts: Texts::new(alloc),
            readers: Vec::new(alloc),
            node: Some(node),
            last: None,
            told: String::new(alloc),
        }
    }

    // One step of the node.
    fn take(&self, input: Input) -> Result<Receipt, StepFault> {
        let Some(node) = &self.node else {
            return Err(StepFault::Unknown);
        };
        match node.take(&self.rt, input) {
            Ok(receipt) => Ok(receipt),
            Err(_) => Err(StepFault::Memory(AllocError)),
        }
    }

    // Publishes the node's log.
    fn show(&mut self) -> Result<u64, StepFault> {
        let Some(node) = &self.node else {
            return Err(StepFault::Unknown);
        };
        let Ok(told) = node.publish(&self.rt) else {
            return Err(StepFault::Memory(AllocError));
        };
        let number = told.number();
        self.last = Some(told);
        Ok(number)
    }

    // A reader of the node's log, if there is a place for one.
    fn reader(&self) -> Option<PageReader<J>> {
        let Some(node) = &self.node else {
            return None;
        };
        node.reader(&self.rt).ok()
    }

    // Takes a step, and reports its receipt.
    fn step(&mut self, input: Input) -> Result<(), StepFault> {
        let receipt = self.take(input)?;
        tell_receipt(&mut self.told, &receipt)
    }

    fn put(&mut self, words: &str) -> Result<(), StepFault> {
        let values = values_of(self.alloc, words)?;
        self.step(Input::Put(values))
    }

    fn bring(&mut self, bytes: &str) -> Result<(), StepFault> {
        let bytes = self.texts.bytes(bytes)?;
        let mut frames = Frames::new(self.alloc);
        let messages = frames
            .feed(bytes.as_slice())
            .map_err(|_| StepFault::Unknown)?;
        for message in messages {
            self.step(Input::Deliver(message))?;
        }
        Ok(())
    }

    fn publish(&mut self) -> Result<(), StepFault> {
        let number = self.show()?;
        Ok(writeln!(self.told, "published {number}")?)
    }

    fn add_reader(&mut self, name: &str) -> Result<(), StepFault> {
        let Some(reader) = self.reader() else {
            return Ok(writeln!(self.told, "no reader")?);
        };
        let name = String::from_str(self.alloc, name)?;
        self.readers.push(Named { name, reader })?;
        Ok(writeln!(self.told, "reader")?)
    }

    fn drop_reader(&mut self, name: &str) -> Result<(), StepFault> {
        let at = place_of(self.readers.as_slice(), name)?;
        let _named = self.readers.swap_remove(at);
        Ok(())
    }

    fn learn(&mut self, name: &str) -> Result<(), StepFault> {
        let at = place_of(self.readers.as_slice(), name)?;
        let Some(told) = &self.last else {
            return Err(StepFault::Unknown);
        };
        learn(&mut self.readers[at].reader, told)
    }

    fn leave(&mut self, name: &str) -> Result<(), StepFault> {
        let at = place_of(self.readers.as_slice(), name)?;
        self.readers[at].reader.leave();
        Ok(())
    }

    fn page(&mut self, name: &str, view: View) -> Result<(), StepFault> {
        let at = place_of(self.readers.as_slice(), name)?;
        let reader = &mut self.readers[at].reader;
        tell_entered(self.alloc, &mut self.told, reader, view)
    }

    fn finish(&mut self) -> Result<(), StepFault> {
        let Some(node) = self.node.take() else {
            return Err(StepFault::Unknown);
        };
        let (trace, _machine) = node.finish().into_locked().into_parts();
        let count = trace.steps().len();
        Ok(writeln!(self.told, "finished {count}")?)
    }

    // Starts threads with a reader each.
    fn join_in(&self, crowd: &mut Crowd<R>, readers: usize, pace: Pace) -> Result<(), StepFault> {
        for _ in 0..readers {
            let Some(reader) = self.reader() else {
                return Err(StepFault::Unknown);
            };
            if !crowd.add(reader, pace) {
                return Err(StepFault::Memory(AllocError));
            }
        }
        Ok(())
    }

    // Puts batches, and publishes each.
    fn grow(&mut self, count: u64) -> Result<(), StepFault> {
        for _ in 0..count {
            let values = values_of(self.alloc, VALUE)?;
            drop(self.take(Input::Put(values))?);
            let _number = self.show()?;
        }
        Ok(())
    }

    // What threads see while batches are put and published.
    fn beside(&mut self, readers: usize, count: u64, pace: Pace) -> Result<Vec<Seen>, StepFault> {
        let mut crowd = Crowd::new(self.rt, self.alloc)?;
        let mut done = self.join_in(&mut crowd, readers, pace);
        if done.is_ok() {
            done = self.grow(count);
        }
        let seen = crowd.end(self.alloc)?;
        done?;
        Ok(seen)
    }

    // The number of the last publish.
    fn last(&self) -> u64 {
        match &self.last {
            Some(told) => told.number(),
            None => 0,
        }
    }

    fn race(&mut self, readers: usize, count: u64) -> Result<(), StepFault> {
        let seen = self.beside(readers, count, Pace::Whole)?;
        let last = self.last();
        tell_race(&mut self.told, seen.as_slice(), last)
    }

    fn pages(&mut self, readers: usize, count: u64) -> Result<(), StepFault> {
        let seen = self.beside(readers, count, Pace::Fast)?;
        tell_pages(&mut self.told, seen.as_slice())
    }

    // Carries out a line that names a reader.
    fn call_reader(&mut self, words: &[&str]) -> Result<(), StepFault> {
        match words {
            ["reader", name] => self.add_reader(name),
            ["drop", name] => self.drop_reader(name),
            ["learn", name] => self.learn(name),
            ["leave", name] => self.leave(name),
            ["page", name, from, mode] => self.page(name, view_of(from, mode)?),
            _ => Err(StepFault::Unknown),
        }
    }

    // Carries out a line in words of its own number.
    fn call(&mut self, words: &[&str]) -> Result<(), StepFault> {
        match words {
            ["bytes", name, "=", bytes] => self.texts.name(name, bytes),
            ["publish"] => self.publish(),
            ["finish"] => self.finish(),
            ["race", readers, count] => self.race(value(readers)?, value(count)?),
            ["pages", readers, count] => self.pages(value(readers)?, value(count)?),
            _ => self.call_reader(words),
        }
    }

    // Carries out a line that isn't `stay`.
    fn plain(&mut self, line: &str) -> Result<(), StepFault> {
        if let Some(words) = line.strip_prefix("put ") {
            return self.put(words);
        }
        if let Some(bytes) = line.strip_prefix("bring ") {
            return self.bring(bytes);
        }
        let words: Vec<&str> = line.split(' ').collect(self.alloc)?;
        self.call(words.as_slice())
    }

    // Carries out a line while a reader is in the log.
    fn stay_in(
        &mut self,
        reader: &mut PageReader<J>,
        view: View,
        line: &str,
    ) -> Result<(), StepFault> {
        let alloc = self.alloc;
        match reader.enter() {
            Ok(published) => {
                tell_published(alloc, &mut self.told, &published, view)?;
                self.plain(line)?;
                tell_published(alloc, &mut self.told, &published, view)
            }
            Err(_) => tell_gone(&mut self.told),
        }
    }

    fn stay(&mut self, words: &str) -> Result<(), StepFault> {
        let (name, words) = words.split_once(' ').ok_or(StepFault::Unknown)?;
        let (from, words) = words.split_once(' ').ok_or(StepFault::Unknown)?;
        let (mode, line) = words.split_once(' ').ok_or(StepFault::Unknown)?;
        let view = view_of(from, mode)?;
        let at = place_of(self.readers.as_slice(), name)?;
        let mut named = self.readers.swap_remove(at);
        let done = self.stay_in(&mut named.reader, view, line);
        named.reader.leave();
        self.readers.push(named)?;
        done
    }

    // Carries out a line. That of a node was read before, and a comment says nothing.
    fn carry_out(&mut self, line: &str) -> Result<(), StepFault> {
        if line.starts_with('#') || line.starts_with("node ") {
            return Ok(());
        }
        match line.strip_prefix("stay ") {
            Some(words) => self.stay(words),
            None => self.plain(line),
        }
    }

    /// Carries out a script, and gives what it tells.
    pub(crate) fn run(mut self, script: &str) -> Result<String, StepFault> {
        for line in script.lines() {
            self.carry_out(line)?;
        }
        Ok(self.told)
    }
}
