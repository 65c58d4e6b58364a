//! What is sent to a partition: batches of records and markers.
use crate::words::raised;
use kx_batch::{BatchBuilder, BuildFault};
use kx_cases::{Runs, StepFault, Texts, known, told_name, told_value, value};
use kx_log::{FaultStore, MemStore};
use kx_partition::{Partition, Produced};
use std::alloc::{AllocError, Global};

/// A partition on a store that is made to fail.
pub type Kept = Partition<FaultStore<MemStore>>;

// The answer to a batch.
fn produced(
    alloc: Global,
    kept: &mut Kept,
    batch: &[u8],
    is_verified: bool,
) -> Result<String, StepFault> {
    told_name(alloc, kept.produce(batch, is_verified)?)
}

// The answer to the batch of this number, if its offset may be that number.
fn numbered(
    alloc: Global,
    kept: &mut Kept,
    batch: &[u8],
    number: usize,
) -> Result<String, StepFault> {
    match kept.produce(batch, true)? {
        Produced::Appended(offset) if offset.unsigned_abs() == number as u64 => {
            told_value(alloc, "Appended(NUMBER)")
        }
        answer => told_name(alloc, answer),
    }
}

// The answers to each front of some bytes, but not to all of them.
fn fronts(alloc: Global, kept: &mut Kept, runs: &mut Runs, bytes: &[u8]) -> Result<(), StepFault> {
    for len in 0..bytes.len() {
        runs.push(len, produced(alloc, kept, &bytes[..len], true)?)?;
    }
    Ok(())
}

// The answers to the same batch, this many times.
fn repeat(
    alloc: Global,
    kept: &mut Kept,
    runs: &mut Runs,
    times: usize,
    batch: &[u8],
) -> Result<(), StepFault> {
    for number in 0..times {
        runs.push(number, numbered(alloc, kept, batch, number)?)?;
    }
    Ok(())
}

// The first batch of a producer's transaction: one record with an empty value.
fn first_of_txn(alloc: Global, id: i64) -> Result<Vec<u8>, BuildFault> {
    let mut builder = BatchBuilder::new(alloc, 0x10, id, 0, 0);
    builder.push(None, Some(&[]), &[])?;
    builder.finish()
}

// The answer to the first batch of a producer.
fn open_txn(alloc: Global, kept: &mut Kept, id: u16) -> Result<String, StepFault> {
    let Ok(batch) = first_of_txn(alloc, i64::from(id)) else {
        return Err(StepFault::Memory(AllocError));
    };
    numbered(alloc, kept, batch.as_slice(), usize::from(id))
}

// The answers to the first batches of the producers 0, 1, 2 ..
fn open_txns(
    alloc: Global,
    kept: &mut Kept,
    runs: &mut Runs,
    producers: u16,
) -> Result<(), StepFault> {
    for id in 0..producers {
        runs.push(usize::from(id), open_txn(alloc, kept, id)?)?;
    }
    Ok(())
}

// Takes a step that sends many batches.
fn many(
    alloc: Global,
    kept: &mut Kept,
    runs: &mut Runs,
    texts: &Texts,
    words: &[&str],
) -> Result<(), StepFault> {
    match words {
        ["fronts", bytes] => fronts(alloc, kept, runs, texts.bytes(bytes)?.as_slice()),
        ["open_txns", producers] => open_txns(alloc, kept, runs, value(producers)?),
        ["repeat", times, batch] => {
            let times = value(times)?;
            repeat(alloc, kept, runs, times, texts.bytes(batch)?.as_slice())
        }
        _ => Err(StepFault::Unknown),
    }
}

// The answers to many batches.
fn many_sent(
    alloc: Global,
    kept: &mut Kept,
    texts: &Texts,
    words: &[&str],
) -> Result<String, StepFault> {
    let mut runs = Runs::new(alloc);
    many(alloc, kept, &mut runs, texts, words)?;
    runs.finish().map_err(StepFault::Memory)
}

// The answer to a marker: `ID EPOCH COORDINATOR OUTCOME`.
fn marked(alloc: Global, kept: &mut Kept, words: &[&str]) -> Result<String, StepFault> {
    let [id, epoch, coordinator, how] = words else {
        return Err(StepFault::Unknown);
    };
    let ended = raised(id, epoch)?;
    let code = kept.marker(ended, value(coordinator)?, value(how)?)?;
    told_name(alloc, code)
}

/// Takes a step that sends something.
pub fn sent(
    alloc: Global,
    kept: &mut Kept,
    texts: &Texts,
    words: &[&str],
) -> Result<String, StepFault> {
    match words {
        ["produce", bytes] => produced(alloc, kept, texts.bytes(bytes)?.as_slice(), true),
        ["unverified", bytes] => produced(alloc, kept, texts.bytes(bytes)?.as_slice(), false),
        ["marker", given @ ..] => marked(alloc, kept, given),
        _ => many_sent(alloc, kept, texts, words),
    }
}
