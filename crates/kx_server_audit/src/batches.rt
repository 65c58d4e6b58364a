//! Logs of batches: how many bytes they have, and whether a file is such a log.
ghost use Rattle.std.specs.Prelude.{◌≡◌, ◌≤◌, ◌^◌, IfOk, MatchBool, MatchOption, length};
ghost use Rattle.kx_log.specs.Log.{IsLog, Wrong, log_in, texts};
ghost use Rattle.kx_server_audit.specs.Logs.{AreBatches, AreWholeBatches, IsBatchFile};

use kx_log::{MemStore, OpenFault, PartitionLog, Store, Walk, appended_logs_are_read_again};
use std::alloc::{AllocError, Global};

/// How many bytes the texts of batches have; None if 64 bits can't say it.
pub(crate) fn batches_len(batches: Walk<'_>) -> Option<u64>
    ensures { MatchOption result (2 ^ 64 ≤ length (texts batches.entry))
        (λ len. len ≡ length (texts batches.entry)) }
{
    let mut len: u64 = 0;
    for batch in batches {
        len = len.checked_add(batch.text().len() as u64)?;
    }
    Some(len)
}

// Whether these are the same batches.
fn same_batches(a: Walk<'_>, b: Walk<'_>) -> bool
    ensures { MatchBool result (texts a.entry ≡ texts b.entry) (a.entry ≡ b.entry → ⊥) }
{
    let mut left = a;
    let mut right = b;
    while let Some(batch) = left.next() {
        let Some(other) = right.next() else {
            return false;
        };
        if batch.text() != other.text() {
            return false;
        }
    }
    right.next().is_none()
}

// The log that the bytes are; None where they are damaged.
fn batch_log(alloc: Global, bytes: Vec<u8>) -> Result<Option<PartitionLog<MemStore>>, AllocError>
    ensures { IfOk result (λ o. MatchOption o ((log_in bytes.items).tail ≡ Wrong)
        (IsBatchFile bytes.items)) }
{
    match PartitionLog::open(alloc, MemStore::new(bytes)) {
        Ok(log) => Ok(Some(log)),
        Err((OpenFault::Damaged(_), store)) => {
            drop(store);
            Ok(None)
        }
        Err((_, store)) => {
            drop(store);
            Err(AllocError)
        }
    }
}

/// How many bytes a store has.
pub(crate) fn store_len(store: MemStore) -> Result<u64, AllocError>
    ensures { IfOk result (λ len. len ≡ length store) }
{
    let mut store = store;
    match store.load() {
        Ok(bytes) => Ok(bytes.len() as u64),
        Err(_) => Err(AllocError),
    }
}

/// How many bytes of whole batches the bytes have; None where they are damaged.
pub(crate) fn whole_batches(alloc: Global, bytes: Vec<u8>) -> Result<Option<u64>, AllocError>
    ensures { IfOk result (λ o. MatchOption o ((log_in bytes.items).tail ≡ Wrong)
        (AreWholeBatches bytes.items)) }
{
    let Some(log) = batch_log(alloc, bytes)? else {
        return Ok(None);
    };
    Ok(Some(store_len(log.into_store())?))
}

/// Whether the bytes are the log with these batches.
pub(crate) fn holds_batches(
    alloc: Global,
    batches: Walk<'_>,
    bytes: Vec<u8>,
) -> Result<bool, AllocError>
    requires { IsLog batches }
    ensures { IfOk result (λ same. MatchBool same (AreBatches bytes.items batches.entry)
        (AreBatches bytes.items batches.entry → ⊥)) }
{
    appended_logs_are_read_again();
    let Some(log) = batch_log(alloc, bytes)? else {
        return Ok(false);
    };
    // Each batch is in its place.
    let _end = log.end();
    let same = same_batches(batches, log.batches());
    drop(log);
    Ok(same)
}
