//! Steps of a partition on a store that is made to fail.
use crate::parts::nothing;
use crate::sending::{Kept, sent};
use crate::shown::shown;
use kx_cases::{Runs, StepFault, Subject, Texts, told_name, told_value, value};
use kx_log::{FaultStore, MemStore};
use kx_partition::{FetchPage, Partition};
use std::alloc::Global;
use std::mem;

/// A partition, once it is open.
#[derive(Drop)]
pub(crate) struct PartitionNode {
    alloc: Global,
    kept: Option<Kept>,
}

// The end and the last stable offset.
fn offsets(alloc: Global, kept: &Kept) -> Result<String, StepFault> {
    let (end, stable) = (kept.end(), kept.lso());
    Ok(format!(in alloc; "end {end} lso {stable}")?)
}

// Reads the store again and goes on with what it holds: the end before and after, or why not.
fn reload(alloc: Global, kept: &mut Kept) -> Result<String, StepFault> {
    match kept.reload() {
        Ok(content) => {
            let before = kept.install(content);
            let end = before.end();
            drop(before);
            Ok(format!(in alloc; "end {} before {end}", kept.end())?)
        }
        Err(fault) => told_name(alloc, fault),
    }
}

// Whether a page is to have the committed records alone.
fn is_committed(mode: &str) -> Result<bool, StepFault> {
    match mode {
        "all" => Ok(false),
        "committed" => Ok(true),
        _ => Err(StepFault::Unknown),
    }
}

// A page of all records, or of the committed ones: `WHAT FROM MAX MODE`.
fn fetched(alloc: Global, kept: &Kept, words: &[&str]) -> Result<String, StepFault> {
    let [what, from, max, mode] = words else {
        return Err(StepFault::Unknown);
    };
    match kept.fetch(value(from)?, value(max)?, is_committed(mode)?) {
        Ok(page) => shown(alloc, what, page),
        Err(fault) => told_name(alloc, fault),
    }
}

// Whether the batches of a page are these bytes, one after the other.
fn are(page: &FetchPage<'_>, bytes: &[u8]) -> bool {
    let mut rest = bytes;
    for batch in page.batches() {
        match rest.strip_prefix(batch.text()) {
            Some(behind) => rest = behind,
            None => return false,
        }
    }
    rest.is_empty()
}

// The same of all batches of the partition.
fn holds(alloc: Global, kept: &Kept, bytes: &[u8]) -> Result<String, StepFault> {
    match kept.fetch(0, u32::MAX, false) {
        Ok(page) => told_value(alloc, are(&page, bytes)),
        Err(fault) => told_name(alloc, fault),
    }
}

// Makes the store fail, or takes that back.
fn armed(
    alloc: Global,
    kept: &mut Kept,
    texts: &Texts,
    words: &[&str],
) -> Result<String, StepFault> {
    match words {
        ["append_fails", keep] => kept.arm(Some(value(keep)?)),
        ["appends_work"] => kept.arm(None),
        ["load_fails"] => kept.arm_load(true),
        _ => return sent(alloc, kept, texts, words),
    }
    nothing(alloc)
}

// Takes a step of a partition that is open.
fn taken(
    alloc: Global,
    kept: &mut Kept,
    texts: &Texts,
    words: &[&str],
) -> Result<String, StepFault> {
    match words {
        ["offsets"] => offsets(alloc, kept),
        ["takes", more] => told_value(alloc, kept.can_take(value(more)?)),
        ["failures"] => told_value(alloc, kept.failures()),
        ["holds", bytes] => holds(alloc, kept, texts.bytes(bytes)?.as_slice()),
        ["reload"] => reload(alloc, kept),
        [_, _, _, _] => fetched(alloc, kept, words),
        _ => armed(alloc, kept, texts, words),
    }
}

// The end of the partition that a store with these bytes has.
fn end_of(alloc: Global, bytes: Vec<u8>) -> Result<String, StepFault> {
    match Partition::rebuild(alloc, MemStore::new(bytes)) {
        Ok(kept) => {
            let end = kept.end();
            drop(kept);
            told_value(alloc, end)
        }
        Err((fault, store)) => {
            drop(store);
            told_name(alloc, fault)
        }
    }
}

// The same of each front of some bytes, and of all of them.
fn cuts(alloc: Global, runs: &mut Runs, bytes: &[u8]) -> Result<(), StepFault> {
    for len in 0..=bytes.len() {
        let front = Vec::from_slice(alloc, &bytes[..len])?;
        runs.push(len, end_of(alloc, front)?)?;
    }
    Ok(())
}

fn told_cuts(alloc: Global, bytes: &[u8]) -> Result<String, StepFault> {
    let mut runs = Runs::new(alloc);
    cuts(alloc, &mut runs, bytes)?;
    runs.finish().map_err(StepFault::Memory)
}

impl PartitionNode {
    // Opens what a store holds: the end and the last stable offset, or why it isn't opened.
    fn open(&mut self, store: FaultStore<MemStore>) -> Result<String, StepFault> {
        match Partition::rebuild(self.alloc, store) {
            Ok(kept) => {
                let told = offsets(self.alloc, &kept);
                drop(mem::replace(&mut self.kept, Some(kept)));
                told
            }
            Err((fault, store)) => {
                drop(store);
                told_name(self.alloc, fault)
            }
        }
    }

    // Opens a store with these bytes, whose append of a number fails, if it isn't 0, and leaves
    // this many bytes.
    fn open_bytes(&mut self, bytes: Vec<u8>, nth: u64, keep: u64) -> Result<String, StepFault> {
        self.open(FaultStore::new(MemStore::new(bytes), nth, keep))
    }

    // Takes a step of the partition, if it is open.
    fn within(&mut self, texts: &Texts, words: &[&str]) -> Result<String, StepFault> {
        match &mut self.kept {
            Some(kept) => taken(self.alloc, kept, texts, words),
            None => Err(StepFault::Unknown),
        }
    }
}

impl Subject for PartitionNode {
    fn new(alloc: Global) -> Self {
        PartitionNode { alloc, kept: None }
    }

    fn answer(&mut self, texts: &Texts, words: &[&str]) -> Result<String, StepFault> {
        match words {
            ["open", bytes] => self.open_bytes(texts.bytes(bytes)?, 0, 0),
            ["open_failing", bytes, nth, keep] => {
                let (nth, keep) = (value(nth)?, value(keep)?);
                self.open_bytes(texts.bytes(bytes)?, nth, keep)
            }
            ["cuts", bytes] => told_cuts(self.alloc, texts.bytes(bytes)?.as_slice()),
            _ => self.within(texts, words),
        }
    }
}
