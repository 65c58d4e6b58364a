//! Sweeps over logs of a partition: each front of some bytes, each bit of them changed, each number
//! of bytes that a failed append leaves, and growth that may be refused.
use crate::logs::{append, opened, reopened};
use crate::stores::failing;
use kx_cases::{Runs, StepFault, Texts, told, told_value};
use kx_log::{AppendFault, MemStore, OpenFault, PartitionLog, Store};
use std::alloc::Global;

// The end of what bytes are opened as, or where they are damaged.
fn end_of(alloc: Global, bytes: &[u8]) -> Result<i64, OpenFault> {
    let log = opened(alloc, MemStore::new(Vec::from_slice(alloc, bytes)?))?;
    let end = log.end();
    drop(log);
    Ok(end)
}

/// What each front of some bytes is opened as.
pub fn cuts(alloc: Global, bytes: &[u8]) -> Result<String, StepFault> {
    let mut runs = Runs::new(alloc);
    for len in 0..=bytes.len() {
        let answer = told(alloc, end_of(alloc, &bytes[..len]))?;
        runs.push(len, answer)?;
    }
    Ok(runs.finish()?)
}

fn flip(bytes: &mut Vec<u8>, place: usize, bits: u8) {
    if let Some(byte) = bytes.as_mut_slice().get_mut(place) {
        *byte ^= bits;
    }
}

// What bytes are opened as with some bits of one changed; they are then as before.
fn flipped(
    alloc: Global,
    bytes: &mut Vec<u8>,
    place: usize,
    bits: u8,
) -> Result<String, StepFault> {
    flip(bytes, place, bits);
    let end = end_of(alloc, bytes.as_slice());
    flip(bytes, place, bits);
    told(alloc, end)
}

/// What bytes are opened as with any bits of one changed, for each byte from a place on up to
/// another, numbered by their places.
pub fn flips(
    alloc: Global,
    from: usize,
    to: usize,
    mut bytes: Vec<u8>,
) -> Result<String, StepFault> {
    let mut runs = Runs::new(alloc);
    for place in from..to {
        for bits in 1..=u8::MAX {
            let answer = flipped(alloc, &mut bytes, place, bits)?;
            runs.push(place, answer)?;
        }
    }
    Ok(runs.finish()?)
}

/// What bytes are opened as with any bits of the one at a place changed, numbered by the bits.
pub fn bits(alloc: Global, place: usize, mut bytes: Vec<u8>) -> Result<String, StepFault> {
    let mut runs = Runs::new(alloc);
    for bits in 1..=u8::MAX {
        let answer = flipped(alloc, &mut bytes, place, bits)?;
        runs.push(usize::from(bits), answer)?;
    }
    Ok(runs.finish()?)
}

// Whether the third append fails, and the log is closed by it and as it was before.
fn fails_third<S: Store>(log: &mut PartitionLog<S>, texts: [&[u8]; 3]) -> Result<bool, StepFault> {
    let [first, second, third] = texts;
    if append(log, first)? != Ok(0) || append(log, second)? != Ok(1) {
        return Ok(false);
    }
    if append(log, third)? != Err(AppendFault::Device) || log.end() != 2 {
        return Ok(false);
    }
    if append(log, third)? != Err(AppendFault::Closed) || log.can_take(1) {
        return Ok(false);
    }
    Ok(log.failures() == 1)
}

// The end after reopening, if the third append fails.
fn told_failed<S: Store>(
    alloc: Global,
    log: &mut PartitionLog<S>,
    texts: [&[u8]; 3],
) -> Result<String, StepFault> {
    if fails_third(log, texts)? {
        told(alloc, reopened(log))
    } else {
        told_value(alloc, "went otherwise")
    }
}

// What a log of its own tells after its third append failed and left this many bytes.
fn after_failure(alloc: Global, texts: [&[u8]; 3], keep: u64) -> Result<String, StepFault> {
    let Ok(mut log) = opened(alloc, failing(Vec::new(alloc), 3, keep)) else {
        return Err(StepFault::Unknown);
    };
    let told = told_failed(alloc, &mut log, texts);
    drop(log);
    told
}

// What it tells for each number of bytes below `keeps` that the append leaves.
fn after_failures(alloc: Global, keeps: u16, texts: [&[u8]; 3]) -> Result<String, StepFault> {
    let mut runs = Runs::new(alloc);
    for keep in 0..keeps {
        let answer = after_failure(alloc, texts, u64::from(keep))?;
        runs.push(usize::from(keep), answer)?;
    }
    Ok(runs.finish()?)
}

/// The ends after reopening, if the third of three appends fails and leaves each number of bytes
/// below `keeps`.
pub fn failures(
    alloc: Global,
    keeps: u16,
    texts: &Texts,
    words: &[&str],
) -> Result<String, StepFault> {
    let [first, second, third] = words else {
        return Err(StepFault::Unknown);
    };
    let first = texts.bytes(first)?;
    let second = texts.bytes(second)?;
    let third = texts.bytes(third)?;
    after_failures(
        alloc,
        keeps,
        [first.as_slice(), second.as_slice(), third.as_slice()],
    )
}

// Whether a batch was appended, or refused since memory ran out and the log is as before.
fn grows<S: Store>(log: &mut PartitionLog<S>, text: &[u8]) -> Result<bool, StepFault> {
    let before = log.end();
    let appended = append(log, text)?;
    let after = if appended.is_ok() {
        before.saturating_add(1)
    } else {
        before
    };
    if appended != Ok(before) && appended != Err(AppendFault::Memory) {
        return Ok(false);
    }
    if log.end() != after || !log.can_take(1) {
        return Ok(false);
    }
    Ok(log.slice(0, i64::MAX, u32::MAX).is_empty() == (after == 0))
}

// Whether the log is read again, or that is refused since memory ran out and it is as before.
fn rereads<S: Store>(log: &mut PartitionLog<S>) -> bool {
    let end = log.end();
    let again = reopened(log);
    let is_read = again == Ok(end) || again == Err(OpenFault::Memory);
    is_read && log.end() == end && log.can_take(1) && log.failures() == 0
}

// Appends a batch so often and reads the log again, if any growth may be refused: the log is
// then as before.
fn grows_on<S: Store>(
    log: &mut PartitionLog<S>,
    count: u32,
    text: &[u8],
) -> Result<bool, StepFault> {
    let mut grown = true;
    for _ in 0..count {
        grown = grows(log, text)? && grown;
    }
    Ok(rereads(log) && grown)
}

/// Whether a log of its own grows so, or `ok` if it can't be made.
pub fn grow(alloc: Global, count: u32, text: &[u8]) -> Result<String, StepFault> {
    let Ok(mut log) = opened(alloc, MemStore::new(Vec::new(alloc))) else {
        return told_value(alloc, "ok");
    };
    let grown = grows_on(&mut log, count, text);
    drop(log);
    told_value(alloc, if grown? { "ok" } else { "went otherwise" })
}
