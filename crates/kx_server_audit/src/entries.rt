//! Logs of the coordinator's entries: how many bytes they have, and whether a file is such a log.
ghost use Rattle.std.specs.Prelude.{◌≡◌, ◌≤◌, ◌^◌, IfOk, MatchBool, MatchOption, length, map};
ghost use Rattle.std.specs.List.{flat_map};
ghost use Rattle.kx_server_audit.specs.Logs.{AreEntries, AreWholeEntries, IsEntryFile};
ghost use Rattle.kx_txnlog.specs.Entry.{note_of};
ghost use Rattle.kx_txnlog.specs.Layout.{entry_text};
ghost use Rattle.kx_txnlog.specs.Opening.{IsWrong};
ghost use Rattle.kx_txnlog.specs.Ranges.{IsEntry};
ghost use Rattle.kx_txnlog.specs.Reading.{notes_in};

use crate::batches::store_len;
use kx_log::{MemStore, OpenFault};
use kx_txnlog::{Entry, TxnLog, entries_are_read, put_entry};
use std::alloc::{AllocError, Global};

// How many bytes the text of an entry has.
fn entry_len(entry: &Entry) -> usize
    ensures { result ≡ length (entry_text (note_of entry.now)) }
{
    match entry {
        Entry::CoordinatorEpoch(_) => 10,
        Entry::Allot(_) => 14,
        Entry::Row(row) => 52 + row.txn.as_bytes().len() + 2 * row.partitions.as_slice().len(),
    }
}

/// How many bytes the texts of entries have; None if 64 bits can't say it.
pub(crate) fn entries_len(entries: &[Entry]) -> Option<u64>
    ensures { MatchOption result
        (2 ^ 64 ≤ length (flat_map entry_text (map note_of entries.now)))
        (λ len. len ≡ length (flat_map entry_text (map note_of entries.now))) }
{
    let mut left = entries;
    let mut len: u64 = 0;
    while let Some((entry, more)) = left.split_first() {
        len = len.checked_add(entry_len(entry) as u64)?;
        left = more;
    }
    Some(len)
}

// The text of an entry.
fn text_of(alloc: Global, entry: &Entry) -> Result<Vec<u8>, AllocError>
    ensures text { IfOk result (λ text. text.items ≡ entry_text (note_of entry.now)) }
    ensures within { IfOk result (λ text. IsEntry (note_of entry.now)) }
{
    let mut text = Vec::new(alloc);
    put_entry(&mut text, entry)?;
    Ok(text)
}

// Whether two entries are the same.
fn same_entry(alloc: Global, a: &Entry, b: &Entry) -> Result<bool, AllocError>
    ensures { IfOk result (λ same. MatchBool same (note_of a.now ≡ note_of b.now)
        (note_of a.now ≡ note_of b.now → ⊥)) }
{
    entries_are_read();
    let text = text_of(alloc, a)?;
    let other = text_of(alloc, b)?;
    Ok(text.as_slice() == other.as_slice())
}

// Whether these are the same entries.
fn same_entries(alloc: Global, a: &[Entry], b: &[Entry]) -> Result<bool, AllocError>
    ensures { IfOk result (λ same. MatchBool same (map note_of a.now ≡ map note_of b.now)
        (map note_of a.now ≡ map note_of b.now → ⊥)) }
{
    let mut left = a;
    let mut right = b;
    while let Some((entry, more)) = left.split_first() {
        let Some((other, others)) = right.split_first() else {
            return Ok(false);
        };
        if !same_entry(alloc, entry, other)? {
            return Ok(false);
        }
        left = more;
        right = others;
    }
    Ok(right.is_empty())
}

// The log that the bytes are; None where they are damaged.
fn entry_log(alloc: Global, bytes: Vec<u8>) -> Result<Option<TxnLog<MemStore>>, AllocError>
    ensures { IfOk result (λ o. MatchOption o (IsWrong (notes_in bytes.items).fault)
        (IsEntryFile bytes.items)) }
{
    match TxnLog::open(alloc, MemStore::new(bytes)) {
        Ok(log) => Ok(Some(log)),
        Err((OpenFault::Damaged(_), store)) => {
            drop(store);
            Ok(None)
        }
        Err((_, store)) => {
            drop(store);
            Err(AllocError)
        }
    }
}

/// How many bytes of whole entries the bytes have; None where they are damaged.
pub(crate) fn whole_entries(alloc: Global, bytes: Vec<u8>) -> Result<Option<u64>, AllocError>
    ensures { IfOk result (λ o. MatchOption o (IsWrong (notes_in bytes.items).fault)
        (AreWholeEntries bytes.items)) }
{
    let Some(log) = entry_log(alloc, bytes)? else {
        return Ok(None);
    };
    Ok(Some(store_len(log.into_store())?))
}

/// Whether the bytes are the log with these entries.
pub(crate) fn holds_entries(
    alloc: Global,
    entries: &[Entry],
    bytes: Vec<u8>,
) -> Result<bool, AllocError>
    ensures { IfOk result (λ same. MatchBool same (AreEntries bytes.items (map note_of entries.now))
        (AreEntries bytes.items (map note_of entries.now) → ⊥)) }
{
    let Some(log) = entry_log(alloc, bytes)? else {
        return Ok(false);
    };
    let same = same_entries(alloc, entries, log.entries());
    drop(log);
    same
}
