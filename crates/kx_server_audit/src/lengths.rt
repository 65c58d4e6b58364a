//! How many bytes the logs of machines have.
ghost use Rattle.std.specs.Prelude.{◌≡◌, ◌≤◌, ◌↔◌, ◌^◌, IsTrue, MatchOption, length, map};
ghost use Rattle.kx_machine.specs.Meaning.{NodeState};
ghost use Rattle.kx_machines.specs.Brokers.{broker_stands};
ghost use Rattle.kx_server_audit.specs.Logs.{found_notes};
ghost use Rattle.kx_trace_audit.specs.Logs.{HasFound, found_text, log_size, log_text};
ghost use Rattle.kx_txnlog.specs.Entry.{note_of};

use crate::batches::batches_len;
use crate::entries::entries_len;
use kx_coord::Coordinator;
use kx_machines::{BrokerMachine, LocalStore};
use kx_txnlog::Entry;

/// The entries that the coordinator's last opening found: all but the epoch that the opening itself
/// wrote; it wrote none if the log is closed.
pub(crate) fn found_entries(coordinator: &Coordinator<LocalStore>) -> &[Entry]
    ensures { map note_of result.now ≡ found_notes coordinator.now.log }
{
    let entries = coordinator.entries();
    if coordinator.is_closed() || entries.is_empty() {
        return entries;
    }
    &entries[..entries.len() - 1]
}

// How many bytes the entries of a machine's log have; None if 64 bits can't say it.
fn kept_len(machine: &BrokerMachine<LocalStore>) -> Option<u64>
    ensures { (state : NodeState) → broker_stands state machine.now
        → MatchOption result (2 ^ 64 ≤ length (log_text state))
        (λ len. len ≡ length (log_text state)) }
{
    match machine {
        BrokerMachine::Coordinator(machine) => entries_len(machine.coordinator().entries()),
        BrokerMachine::Partition(machine) => batches_len(machine.partition().batches()),
        BrokerMachine::Offsets(machine) => batches_len(machine.groups().partition().batches()),
    }
}

// How many bytes the log had that the last restart of a machine found; None if 64 bits can't say
// it.
fn found_len(machine: &BrokerMachine<LocalStore>) -> Option<u64>
    ensures { (state : NodeState) → broker_stands state machine.now
        → MatchOption result (2 ^ 64 ≤ length (found_text state))
        (λ len. len ≡ length (found_text state)) }
{
    match machine {
        BrokerMachine::Coordinator(machine) => entries_len(found_entries(machine.coordinator())),
        BrokerMachine::Partition(machine) => batches_len(machine.partition().batches()),
        BrokerMachine::Offsets(machine) => batches_len(machine.groups().partition().batches()),
    }
}

/// How many bytes the entries of a machine's log have, at most 2^64 - 1.
pub(crate) fn log_len(machine: &BrokerMachine<LocalStore>) -> u64
    ensures { (state : NodeState) → broker_stands state machine.now → result ≡ log_size state }
{
    kept_len(machine).unwrap_or(u64::MAX)
}

/// Whether a restart that a machine has just made found a log of this many bytes.
pub(crate) fn has_found(machine: &BrokerMachine<LocalStore>, log_len: u64) -> bool
    ensures { (state : NodeState) → broker_stands state machine.now
        → (IsTrue result ↔ HasFound state log_len) }
{
    match found_len(machine) {
        Some(len) => len == log_len,
        None => false,
    }
}
