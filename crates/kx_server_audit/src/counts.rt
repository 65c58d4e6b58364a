//! What an audit counts.
ghost use Rattle.std.specs.Prelude.{◌≡◌, ◌+◌, count_by, map};
ghost use Rattle.kx_server_audit.specs.Counting.{decided_by, decides};
ghost use Rattle.kx_trace_audit.specs.Readings.{in_64_bits};
ghost use Rattle.kx_txnlog.specs.Entry.{note_of};

use kx_machines::{BrokerMachine, LocalStore};
use kx_txnlog::{Entry, State};

/// How many steps were made again, and how many messages they sent: each at most 2^64 - 1.
#[derive(Clone, Copy)]
pub(crate) struct Counts {
    pub(crate) steps: u64,
    pub(crate) messages: u64,
}

impl Counts {
    /// Nothing was counted.
    pub(crate) const NONE: Counts = Counts {
        steps: 0,
        messages: 0,
    };

    /// Counts one more step, which sent this many messages.
    pub(crate) fn add(&mut self, sent: usize)
        ensures steps { self.new.steps ≡ in_64_bits (self.old.steps + 1) }
        ensures messages { self.new.messages ≡ in_64_bits (self.old.messages + sent) }
    {
        self.steps = self.steps.saturating_add(1);
        self.messages = self.messages.saturating_add(sent as u64);
    }
}

// Whether an entry decides the outcome of a transaction.
fn decides(entry: &Entry) -> bool
    ensures { result ≡ decides (note_of entry.now) }
{
    match entry {
        Entry::Row(row) => matches!(row.state, State::Prepare(_)),
        Entry::CoordinatorEpoch(_) | Entry::Allot(_) => false,
    }
}

// How many entries decide the outcome of a transaction.
fn count_decided(entries: &[Entry]) -> usize
    ensures { result ≡ count_by decides (map note_of entries.now) }
{
    entries.iter().filter(|entry| decides(*entry)).count()
}

/// How many transactions were decided in the log of a machine: the rows that prepare a commit or an
/// abort. Only the coordinator's log has any.
pub(crate) fn transactions(machine: &BrokerMachine<LocalStore>) -> usize
    ensures { result ≡ decided_by machine.now }
{
    match machine {
        BrokerMachine::Coordinator(machine) => count_decided(machine.coordinator().entries()),
        BrokerMachine::Partition(_) | BrokerMachine::Offsets(_) => 0,
    }
}
