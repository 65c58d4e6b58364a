//! The logs that a server left, compared with those of its nodes that were made again.
ghost use Rattle.std.specs.Prelude.{◌≡◌, IfOk, IsFalse, IsTrue, MatchBool, OnOk, true};
ghost use Rattle.std.specs.Prelude.{if◌then◌else◌, map};
ghost use Rattle.kx_machine.specs.Meaning.{NodeState, is_closed};
ghost use Rattle.kx_machines.specs.Brokers.{broker_stands};
ghost use Rattle.kx_server_audit.specs.Logs.{AreBatches, HasWhole, HoldsLog, IsUsedUp, LogIs};
ghost use Rattle.kx_server_audit.specs.Logs.{after_restart, found_notes};
ghost use Rattle.kx_txnlog.specs.Entry.{note_of};

use crate::batches::{holds_batches, whole_batches};
use crate::entries::{holds_entries, whole_entries};
use crate::lengths::found_entries;
use kx_coord::Coordinator;
use kx_log::Store;
use kx_machine::{Failing, Input, Machine, StoreMode};
use kx_machines::{BrokerMachine, LocalStore};
use kx_partition::Partition;
use kx_trace::TracedNode;
use kx_txnlog::Entry;
use std::alloc::{AllocError, Global};

/// How many bytes of whole entries a node's log has, which is these bytes: the batches of a
/// partition, or the entries of the coordinator. A part of one more at the end isn't counted. None
/// where they are damaged: something else follows the whole entries.
///
/// # Errors
///
/// Only if memory runs out.
pub(crate) fn whole_len(
    alloc: Global,
    node: TracedNode,
    bytes: Vec<u8>,
) -> Result<Option<u64>, AllocError>
    ensures { IfOk result (HasWhole node bytes.items) }
{
    match node {
        TracedNode::Coordinator => whole_entries(alloc, bytes),
        TracedNode::Partition(_) => whole_batches(alloc, bytes),
    }
}

// The entries of the coordinator's log; without the epoch that a restart wrote, if it was just
// restarted.
fn entries_of(coordinator: &Coordinator<LocalStore>, restarted: bool) -> &[Entry]
    ensures { map note_of result.now ≡ (if restarted then found_notes coordinator.now.log
        else coordinator.now.log.notes) }
{
    if restarted {
        found_entries(coordinator)
    } else {
        coordinator.entries()
    }
}

// Whether the bytes are the log of a partition.
fn partition_is<S: Store>(
    alloc: Global,
    partition: &Partition<S>,
    bytes: Vec<u8>,
) -> Result<bool, AllocError>
    ensures { IfOk result (λ same. MatchBool same
        (AreBatches bytes.items partition.now.batches)
        (AreBatches bytes.items partition.now.batches → ⊥)) }
{
    // Each batch is in its place.
    let _end = partition.end();
    holds_batches(alloc, partition.batches(), bytes)
}

// Whether the bytes are the log of a machine; without the epoch that a restart wrote, if it was just
// restarted.
fn holds(
    alloc: Global,
    machine: &BrokerMachine<LocalStore>,
    restarted: bool,
    bytes: Vec<u8>,
) -> Result<bool, AllocError>
    ensures { (state : NodeState) → broker_stands state machine.now → IfOk result (λ same.
        MatchBool same (HoldsLog restarted state bytes.items)
        (HoldsLog restarted state bytes.items → ⊥)) }
{
    match machine {
        BrokerMachine::Coordinator(machine) => {
            holds_entries(alloc, entries_of(machine.coordinator(), restarted), bytes)
        }
        BrokerMachine::Partition(machine) => partition_is(alloc, machine.partition(), bytes),
        BrokerMachine::Offsets(machine) => partition_is(alloc, machine.groups().partition(), bytes),
    }
}

// Restarts a machine on its store, of which nothing fails.
fn restart(machine: &mut BrokerMachine<LocalStore>) -> Result<(), AllocError>
    ensures { (state : NodeState) → broker_stands state machine.old
        → OnOk result (broker_stands (after_restart state) machine.new) }
{
    machine.prepare(StoreMode::Works);
    let input = Input::Restart(0);
    let taken = machine.take(&input);
    drop(input);
    match taken {
        Ok(taken) => {
            drop(taken);
            Ok(())
        }
        Err(refused) => Err(refused),
    }
}

// Whether opening a store with these bytes finds what a restart of a machine finds, whose log is
// closed.
fn closed_log_is(
    alloc: Global,
    machine: &mut BrokerMachine<LocalStore>,
    bytes: Vec<u8>,
) -> Result<bool, AllocError>
    ensures yes { (state : NodeState) → broker_stands state machine.old → is_closed state ≡ true
        → IfOk result (λ same. IsTrue same → LogIs state bytes.items) }
    ensures no { (state : NodeState) → broker_stands state machine.old → is_closed state ≡ true
        → IfOk result (λ same. IsFalse same → LogIs state bytes.items → IsUsedUp state) }
{
    restart(machine)?;
    if machine.is_closed() {
        return Ok(false);
    }
    holds(alloc, machine, true, bytes)
}

/// Whether opening a store with these bytes finds the log of a machine. A machine whose log is
/// closed may have an entry in its store that only a restart reads, so it is restarted, and stays
/// so. If the coordinator's epochs are used up, that fails, and the answer is no.
///
/// # Errors
///
/// Only if memory runs out.
pub(crate) fn log_is(
    alloc: Global,
    machine: &mut BrokerMachine<LocalStore>,
    bytes: Vec<u8>,
) -> Result<bool, AllocError>
    ensures yes { (state : NodeState) → broker_stands state machine.old
        → IfOk result (λ same. IsTrue same → LogIs state bytes.items) }
    ensures no { (state : NodeState) → broker_stands state machine.old
        → IfOk result (λ same. IsFalse same → LogIs state bytes.items → IsUsedUp state) }
{
    if machine.is_closed() {
        closed_log_is(alloc, machine, bytes)
    } else {
        holds(alloc, machine, false, bytes)
    }
}
