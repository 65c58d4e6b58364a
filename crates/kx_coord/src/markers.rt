//! The markers that end a transaction at its partitions (KIP-98, "WriteTxnMarkerRequest").
ghost use Rattle.std.specs.Prelude.{◌≡◌, ◌<◌, ◌++◌, flat_map, length, map, IfOk, OnOk};
ghost use Rattle.std.specs.Prelude.{OnErr};
ghost use Rattle.kx_model.specs.Markers.{markers_of, missing_of};
ghost use Rattle.kx_txnlog.specs.Entry.{row_of};

use crate::answer::own_pair;
use crate::noted::NotedMarkers;
use kx_message::{Message, Raised, WriteMarker};
use kx_txnlog::{Row, State};
use std::alloc::{AllocError, Global};

/// Puts the markers that a row owes and that were not yet answered after other messages, in the
/// order in which its partitions were added, with this epoch of the coordinator.
///
/// # Errors
///
/// Only if memory runs out, and if there are any.
pub(crate) fn push_missing(
    messages: &mut Vec<Message>,
    epoch: i32,
    noted: &NotedMarkers,
    row: &Row,
) -> Result<(), AllocError>
    ensures ok { OnOk result
        (messages.new.items ≡ messages.old.items ++ missing_of epoch noted.now (row_of row.now)) }
    ensures refused { OnErr result (0 < length (missing_of epoch noted.now (row_of row.now))) }
{
    let State::Prepare(outcome) = row.state else {
        return Ok(());
    };
    let held = Raised::try_from(own_pair(row)).unwrap();
    for partition in row.partitions.as_slice() {
        if noted.contains(row.txn, &own_pair(row), *partition) {
            continue;
        }
        messages.push(Message::WriteMarker(WriteMarker {
            partition: *partition,
            txn: row.txn,
            held,
            coordinator_epoch: epoch,
            outcome,
        }))?;
    }
    Ok(())
}

/// Puts all markers that a row owes after other messages.
///
/// # Errors
///
/// Only if memory runs out.
pub(crate) fn push_markers(
    messages: &mut Vec<Message>,
    alloc: Global,
    epoch: i32,
    row: &Row,
) -> Result<(), AllocError>
    ensures { OnOk result
        (messages.new.items ≡ messages.old.items ++ markers_of epoch (row_of row.now)) }
{
    push_missing(messages, epoch, &NotedMarkers::new(alloc), row)
}

/// The markers that some rows owe and that were not yet answered, row by row.
///
/// # Errors
///
/// Only if memory runs out, and if there are any.
pub(crate) fn all_missing(
    alloc: Global,
    epoch: i32,
    noted: &NotedMarkers,
    rows: &[Row],
) -> Result<Vec<Message>, AllocError>
    ensures ok { IfOk result (λ messages.
        messages.items ≡ flat_map (missing_of epoch noted.now) (map row_of rows.now)) }
    ensures refused { OnErr result
        (0 < length (flat_map (missing_of epoch noted.now) (map row_of rows.now))) }
{
    let mut messages = Vec::new(alloc);
    for row in rows {
        push_missing(&mut messages, epoch, noted, row)?;
    }
    Ok(messages)
}

/// All markers that some rows owe, row by row.
///
/// # Errors
///
/// Only if memory runs out.
#[tactic(auto, using(crate::proofs::HandedOut::none_of_all))]
pub(crate) fn all_markers(
    alloc: Global,
    epoch: i32,
    rows: &[Row],
) -> Result<Vec<Message>, AllocError>
    ensures { IfOk result (λ messages.
        messages.items ≡ flat_map (markers_of epoch) (map row_of rows.now)) }
{
    all_missing(alloc, epoch, &NotedMarkers::new(alloc), rows)
}
