//! How many batches to each partition are unanswered.
//!
//! The counts are in an array, since they outlive an epoch and need no memory; sequences don't
//! outlive it.
ghost use Rattle.std.specs.Prelude.{◌≡◌, ◌+◌, ◌<◌, ◌==◌, ℕ, true, false, nat_le, if◌then◌else◌};
ghost use Rattle.std.specs.Prelude.{MatchOption};
ghost use Rattle.kx_message.specs.Ranges.{IsPartition};
ghost use Rattle.kx_client.specs.Internal.{carried_to, count_in, slot_of};
ghost use Rattle.kx_model.specs.Client.{carries_to, window};

use kx_message::{Message, PartitionId};
use std::marker::Model;

// How many batches to a partition may be unanswered (KIP-98's max.in.flight.requests).
const WINDOW: u8 = 5;

// The place of the offsets partition, after those of the data partitions.
const OFFSETS: usize = PartitionId::DATA_COUNT as usize;

// The partition that the request carries a batch to, or offsets that become one.
fn carried(request: &Message) -> Option<PartitionId>
    ensures { MatchOption result ((p : ℕ) → carries_to p request.now ≡ false)
        (λ partition. (p : ℕ) → carries_to p request.now ≡ (partition == p)) }
{
    match request {
        Message::Produce(produce) => Some(produce.partition),
        Message::TxnOffsetCommit(_) => Some(PartitionId::OFFSETS),
        _ => None,
    }
}

// The place of a partition's count.
fn slot(partition: PartitionId) -> usize
    ensures value { result ≡ slot_of partition }
    ensures within { result < 17 }
    ensures is { IsPartition partition }
{
    let number = usize::from(partition.get());
    if partition.is_data() { number } else { OFFSETS }
}

/// How many batches to each partition are unanswered.
#[derive(Drop)]
pub(crate) struct Windows {
    unanswered: [u8; OFFSETS + 1],
}

impl Model for Windows {
    ghost use Rattle.std.specs.Prelude.{ℕ, List};

    ghost Value = { List ℕ };

    ghost view = { λ w. w.unanswered };
}

impl Windows {
    /// Windows in which no request is unanswered.
    pub(crate) fn new() -> Windows
        ensures { (p : ℕ) → IsPartition p → count_in result p ≡ 0 }
    {
        Windows {
            unanswered: [0; OFFSETS + 1],
        }
    }

    /// Whether a partition has as many as it may have.
    pub(crate) fn is_full(&self, partition: PartitionId) -> bool
        ensures value { result ≡ nat_le window (count_in self.now partition) }
        ensures is { IsPartition partition }
    {
        WINDOW <= self.unanswered[slot(partition)]
    }

    /// Counts one more unanswered request.
    pub(crate) fn note(&mut self, request: &Message)
        requires { (p : ℕ) → IsPartition p → carries_to p request.now ≡ true
            → count_in self.old p < window }
        ensures { (p : ℕ) → IsPartition p
            → count_in self.new p ≡ count_in self.old p + carried_to p request.now }
    {
        if let Some(partition) = carried(request) {
            self.unanswered[slot(partition)] += 1;
        }
    }

    /// A request is unanswered no more.
    pub(crate) fn forget(&mut self, request: &Message)
        requires { (p : ℕ) → IsPartition p → carries_to p request.now ≡ true
            → 0 < count_in self.old p }
        ensures { (p : ℕ) → IsPartition p
            → count_in self.new p + carried_to p request.now ≡ count_in self.old p }
    {
        if let Some(partition) = carried(request) {
            self.unanswered[slot(partition)] -= 1;
        }
    }
}
