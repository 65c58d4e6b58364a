//! A transaction: the coordinator lists the partition, and the partition gets the marker.
ghost use Rattle.std.specs.Prelude.{◌≡◌, ◌⊎◌, true, IfOk, OnErr};
ghost use Rattle.kx_coord.specs.Calls.{Settles};
ghost use Rattle.kx_coord.specs.Noted.{answered};
ghost use Rattle.kx_message.specs.declared.code.ErrorCode.{ErrorCode};
ghost use Rattle.kx_model.specs.PartitionNode.{marker_of};
ghost use Rattle.kx_partition.specs.Answer.{IsMarked};
ghost use Rattle.kx_example.specs.Example.{Asks, IsAppendedBy, IsNew, says_listed};

use kx_coord::Coordinator;
use kx_log::{MemStore, OpenFault};
use kx_message::{AddPartition, ErrorCode, MarkerReply, Message, WriteMarker};
use kx_partition::{Partition, Produced};
use std::alloc::{AllocError, Global};

/// A coordinator with an empty log, on a store in memory. Its clock begins at 0.
///
/// # Errors
///
/// Only when out of memory.
pub fn new_coordinator(alloc: Global) -> Result<Coordinator<MemStore>, OpenFault>
    ensures { IfOk result (λ coordinator. IsNew coordinator) }
{
    match Coordinator::open(alloc, MemStore::new(Vec::new(alloc)), 0) {
        Ok((coordinator, _)) => Ok(coordinator),
        Err((fault, _)) => Err(fault),
    }
}

// Whether the first of these messages says yes to a partition that asked to be listed.
fn is_listed(messages: &[Message]) -> bool
    ensures { result ≡ says_listed messages.now }
{
    match messages.first() {
        Some(Message::AddReply(reply)) => reply.code == ErrorCode::NoError,
        _ => false,
    }
}

/// Appends a batch of a transaction. If the batch would begin the transaction in this partition,
/// the coordinator is first asked to list the partition (KIP-890); if it refuses, the answer is
/// [`Produced::Unverified`], and the partition is as before.
///
/// # Errors
///
/// Only when out of memory; the partition is then as before, and the coordinator may list it.
pub fn append(
    coordinator: &mut Coordinator<MemStore>,
    partition: &mut Partition<MemStore>,
    request: AddPartition,
    batch: &[u8],
) -> Result<Produced, AllocError>
    ensures answer { IfOk result (IsAppendedBy coordinator.old coordinator.new request batch.now
        partition.old partition.new) }
    ensures err { OnErr result (partition.new ≡ partition.old) }
    ensures asked { OnErr result ((coordinator.new ≡ coordinator.old)
        ⊎ Asks coordinator.old coordinator.new request true) }
{
    match partition.produce(batch, false)? {
        Produced::Unverified => {}
        answer => return Ok(answer),
    }
    let messages = coordinator.add_partition(request)?;
    if !is_listed(messages.as_slice()) {
        return Ok(Produced::Unverified);
    }
    partition.produce(batch, true)
}

/// Writes the marker of a transaction that the coordinator ended, and gives the coordinator the
/// partition's reply.
///
/// # Errors
///
/// Only when out of memory. Either nothing was done, or the marker is written and its reply is
/// lost: the same marker may be sent again.
pub fn write_marker(
    coordinator: &mut Coordinator<MemStore>,
    partition: &mut Partition<MemStore>,
    marker: WriteMarker,
) -> Result<ErrorCode, AllocError>
    ensures marked { IfOk result (IsMarked
        (marker_of marker.held marker.coordinator_epoch marker.outcome)
        partition.old partition.new) }
    ensures settled { IfOk result (Settles coordinator.old coordinator.new
        (answered marker.txn marker.held marker.partition)) }
    ensures err { OnErr result ((coordinator.new ≡ coordinator.old)
        × ((partition.new ≡ partition.old)
        ⊎ ((code : ErrorCode) × IsMarked
        (marker_of marker.held marker.coordinator_epoch marker.outcome)
        partition.old partition.new code))) }
{
    let WriteMarker {
        partition: number,
        txn,
        held,
        coordinator_epoch,
        outcome,
    } = marker;
    let code = partition.marker(held, coordinator_epoch, outcome)?;
    let reply = MarkerReply {
        partition: number,
        txn,
        held,
        code,
    };
    coordinator.marker_reply(reply)?;
    Ok(code)
}
