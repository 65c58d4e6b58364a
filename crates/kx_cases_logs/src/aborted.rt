//! The aborted transactions of a partition. `index ID FIRST LAST STABLE` begins an index with one
//! transaction, `named FROM UPPER` tells the ids and first offsets that a page names. `entry` with
//! the same numbers tells the bytes of an entry, `read BYTES` the entry at the front and the bytes
//! after it, or the fault.
use crate::words::id_of;
use kx_aborted::{Aborted, AbortedIndex, put_entry, read_entry};
use kx_cases::{StepFault, Subject, Texts, told_bytes, told_name, told_value, value};
use std::alloc::Global;
use std::mem;

/// The index of a case.
#[derive(Drop)]
pub(crate) struct AbortedCases {
    alloc: Global,
    index: AbortedIndex,
}

// The transaction of four numbers, none of them below 0.
fn aborted_of(words: &[&str]) -> Result<Aborted, StepFault> {
    let [id, first, last, stable] = words else {
        return Err(StepFault::Unknown);
    };
    let id = id_of(id)?;
    let first = value::<i64>(first)?;
    let last = value::<i64>(last)?;
    let stable = value::<i64>(stable)?;
    if first < 0 || last < 0 || stable < 0 {
        return Err(StepFault::Unknown);
    }
    Ok(Aborted::new(id, first, last, stable))
}

// An index with this transaction, for which room is made first.
fn index_with(alloc: Global, aborted: Aborted) -> Result<AbortedIndex, StepFault> {
    let mut index = AbortedIndex::new(alloc);
    index.reserve()?;
    index.add(aborted)?;
    Ok(index)
}

fn entry(alloc: Global, aborted: &Aborted) -> Result<String, StepFault> {
    let mut text = Vec::new(alloc);
    put_entry(&mut text, aborted)?;
    Ok(told_bytes(alloc, text.as_slice())?)
}

// The id, the first, the last and the last stable offset.
fn told_aborted(alloc: Global, aborted: &Aborted) -> Result<String, StepFault> {
    let id = aborted.id();
    let first = aborted.first();
    let last = aborted.last();
    let stable = aborted.stable();
    Ok(format!(in alloc; "{id} {first} {last} {stable}")?)
}

fn read(alloc: Global, bytes: &[u8]) -> Result<String, StepFault> {
    match read_entry(bytes) {
        Ok((aborted, behind)) => {
            let aborted = told_aborted(alloc, &aborted)?;
            let behind = told_bytes(alloc, behind)?;
            Ok(format!(in alloc; "{aborted} {behind}")?)
        }
        Err(fault) => told_name(alloc, fault),
    }
}

impl AbortedCases {
    // How many transactions a page names, and of each the id and the first offset.
    fn named(&self, from: i64, upper: i64) -> Result<String, StepFault> {
        let found = self.index.collect(from, upper)?;
        let mut text = format!(in self.alloc; "{}", found.len())?;
        for aborted in found.iter() {
            write!(text, " {} {}", aborted.id(), aborted.first())?;
        }
        Ok(text)
    }
}

impl Subject for AbortedCases {
    fn new(alloc: Global) -> Self {
        AbortedCases {
            alloc,
            index: AbortedIndex::new(alloc),
        }
    }

    fn answer(&mut self, texts: &Texts, words: &[&str]) -> Result<String, StepFault> {
        match words {
            ["index", given @ ..] => {
                let index = index_with(self.alloc, aborted_of(given)?)?;
                drop(mem::replace(&mut self.index, index));
                told_value(self.alloc, "ok")
            }
            ["named", from, upper] => self.named(value(from)?, value(upper)?),
            ["entry", given @ ..] => entry(self.alloc, &aborted_of(given)?),
            ["read", bytes] => read(self.alloc, texts.bytes(bytes)?.as_slice()),
            _ => Err(StepFault::Unknown),
        }
    }
}
