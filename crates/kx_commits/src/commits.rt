//! What is kept of all offsets that consumer groups commit.
ghost use Rattle.std.specs.Prelude.{◌≡◌, ◌≤◌, ◌<◌, ◌+◌, ◌^◌, OnOk, nat_lt, option_map};
ghost use Rattle.kx_commits.specs.Kept.{SameKept, ended, noted, nothing};
ghost use Rattle.kx_commits.specs.Table.{kept_of, room_for};

use crate::said::SaidOffset;
use crate::slots::Slots;
use crate::waiting::WaitingById;
use kx_message::{GroupId, Outcome, PartitionId, ProducerId};
use std::alloc::{AllocError, Global};
use std::marker::Model;

/// The committed and the pending offsets of consumer groups (KIP-447): of each group and input
/// partition the committed offset and how many offsets are pending, and of each open transaction
/// the offsets that wait for its end. Look-ups don't grow with what was committed before.
#[derive(Drop)]
pub struct Commits {
    slots: Slots,
    waiting: WaitingById,
}

impl Model for Commits {
    ghost use Rattle.kx_commits.specs.Table.{HasSlots, Table};

    ghost Value = { Table };

    ghost view = { λ c. record { slots = c.slots; waiting = c.waiting } };

    ghost invariant = { λ c. HasSlots (record { slots = c.slots; waiting = c.waiting }) };
}

impl Commits {
    /// Commits of no group. It takes memory from `alloc` as room is made.
    pub fn new(alloc: Global) -> Commits
        ensures { SameKept (kept_of result) nothing }
    {
        Commits {
            slots: Slots::new(alloc),
            waiting: WaitingById::new(alloc),
        }
    }

    /// The committed offset of a group and an input partition, any i64, if there is one. No memory
    /// is asked for.
    pub fn committed(&self, group: GroupId, partition: PartitionId) -> Option<i64>
        ensures { result ≡ option_map (λ c. c.0)
            ((kept_of self.now).slot group partition).committed }
    {
        self.slots.committed(group, partition)
    }

    /// Whether an open transaction has an offset of a group and an input partition. No memory is
    /// asked for.
    pub fn is_pending(&self, group: GroupId, partition: PartitionId) -> bool
        ensures { result ≡ nat_lt 0 ((kept_of self.now).slot group partition).pending }
    {
        self.slots.is_pending(group, partition)
    }

    /// Makes room for this many offsets of a producer's transaction, so that noting them asks for
    /// no memory. What is kept stays.
    ///
    /// # Errors
    ///
    /// Only if memory runs out.
    pub fn reserve(&mut self, id: ProducerId, count: usize) -> Result<(), AllocError>
        ensures same { SameKept (kept_of self.new) (kept_of self.old) }
        ensures room { OnOk result (count ≤ room_for self.new id) }
    {
        self.slots.reserve(count)?;
        self.waiting.reserve(id, count)
    }

    /// Notes an offset that a batch of a producer's transaction says, which was appended.
    pub fn note(&mut self, id: ProducerId, said: SaidOffset)
        requires room { 0 < room_for self.old id }
        requires few { ((kept_of self.old).slot said.group said.partition).pending < 2 ^ 63 }
        ensures noted { SameKept (kept_of self.new) (noted id said (kept_of self.old)) }
        ensures room { room_for self.old id ≤ room_for self.new id + 1 }
    {
        self.slots.wait(&said);
        self.waiting.push(id, said);
    }

    /// The transaction of a producer ended: its offsets count, or are dropped. No memory is asked
    /// for.
    pub fn end(&mut self, id: ProducerId, outcome: Outcome)
        ensures { SameKept (kept_of self.new) (ended id outcome (kept_of self.old)) }
    {
        if let Some(waiting) = self.waiting.take(id) {
            self.slots.settle_all(waiting.all(), outcome);
        }
    }
}
