//! Who has a number in the folder of a server that begins: the owners of transactional ids, and those
//! who ever joined a group. A member that has left can't join its group again, so its number counts
//! too.
use crate::fault::GatewayFault;
use crate::span::Span;
use kx_batch::{BatchView, RecordView};
use kx_message::ClientId;
use kx_offsets::Fact;
use kx_txnlog::Entry;
use std::fs;
use std::fs::{File, Files};
use std::io::ErrorKind;

// The log of the offsets partition, in the folder.
const OFFSETS_LOG: &str = "po.log";

/// Numbers go on above the owners of these entries.
pub(crate) fn note_owners(span: &mut Span, entries: &[Entry]) {
    for entry in entries {
        if let Entry::Row(row) = entry {
            span.note(row.owner);
        }
    }
}

// Who joins a group, by a record.
fn joined_in(record: &RecordView<'_>) -> Option<ClientId> {
    match Fact::read(record)? {
        Fact::Joined { member, .. } => Some(member),
        _ => None,
    }
}

// Numbers go on above those who join by the records of a batch. None joins by a transaction's.
fn note_joined(span: &mut Span, batch: &BatchView<'_>) {
    if batch.is_transactional() {
        return;
    }
    for record in batch.records() {
        if let Some(member) = joined_in(&record) {
            span.note(member);
        }
    }
}

// Numbers go on above those who join by the batches of a log, as these bytes are. What comes after the
// last whole batch isn't looked at: the node that opens the log says what is wrong with it.
fn note_batches(span: &mut Span, log: &[u8]) {
    let mut left = log;
    for _ in 0..log.len() {
        let Ok((batch, rest)) = BatchView::read(left) else {
            return;
        };
        note_joined(span, &batch);
        left = rest;
    }
}

/// Numbers go on above those who ever joined a group, by the log of the offsets partition in this
/// folder. The log is read here once more, since its node isn't open yet.
///
/// # Errors
///
/// Only if memory runs out. A log that can't be read is skipped: its node says so.
pub(crate) fn note_members<R: Files<File = File> + AllocGlobal>(
    rt: &R,
    dir: Option<&str>,
    span: &mut Span,
) -> Result<(), GatewayFault> {
    let Some(dir) = dir else {
        return Ok(());
    };
    let path = format!(in rt.alloc(); "{dir}/{OFFSETS_LOG}")?;
    match fs::read(rt, path.as_str()) {
        Ok(log) => {
            note_batches(span, log.as_slice());
            Ok(())
        }
        Err(error) if error.kind() == ErrorKind::OutOfMemory => Err(GatewayFault::Memory),
        Err(_) => Ok(()),
    }
}
