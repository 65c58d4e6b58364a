//! What is kept of all groups and input partitions.
ghost use Rattle.std.specs.Prelude.{◌≡◌, ◌<◌, ◌≤◌, ◌+◌, ◌^◌, All, Some, true, cond, nat_lt};
ghost use Rattle.std.specs.Prelude.{OnOk, option_map};
ghost use Rattle.std.specs.Map.{lookup};
ghost use Rattle.kx_commits.specs.Kept.{empty_slot, settled, settled_all, waits};
ghost use Rattle.kx_commits.specs.Table.{Key, has_slot, key_of, same_key, slot_in};

use crate::said::SaidOffset;
use crate::slot::Slot;
use indexmap::IndexMap;
use kx_message::{GroupId, Outcome, PartitionId};
use std::alloc::{AllocError, Global};
use std::marker::Model;

/// What is kept of each group and input partition, found by both in constant time.
#[derive(Drop)]
pub(crate) struct Slots {
    by_key: IndexMap<(GroupId, PartitionId), Slot>,
}

impl Model for Slots {
    ghost use Rattle.indexmap.specs.IndexMap.{IsUnique, spare};
    ghost use Rattle.kx_commits.specs.Table.{SlotTable, same_key};

    ghost Value = { SlotTable };

    ghost view = { λ s. record { entries = s.by_key.entries; room = spare s.by_key } };

    ghost invariant = { λ s. IsUnique same_key s.by_key };
}

impl Slots {
    /// A table without offsets.
    pub(crate) fn new(alloc: Global) -> Slots
        ensures { (key : Key) → slot_in result key ≡ empty_slot }
    {
        Slots {
            by_key: IndexMap::new(alloc),
        }
    }

    /// The committed offset of a group and an input partition.
    pub(crate) fn committed(&self, group: GroupId, partition: PartitionId) -> Option<i64>
        ensures { result ≡ option_map (λ c. c.0) (slot_in self.now (group, partition)).committed }
    {
        match self.by_key.get(&(group, partition)) {
            Some(slot) => slot.committed(),
            None => None,
        }
    }

    /// Whether an open transaction has an offset of them.
    pub(crate) fn is_pending(&self, group: GroupId, partition: PartitionId) -> bool
        ensures { result ≡ nat_lt 0 (slot_in self.now (group, partition)).pending }
    {
        match self.by_key.get(&(group, partition)) {
            Some(slot) => slot.is_pending(),
            None => false,
        }
    }

    /// Makes room for this many more.
    pub(crate) fn reserve(&mut self, count: usize) -> Result<(), AllocError>
        ensures same { self.new.entries ≡ self.old.entries }
        ensures room { OnOk result (count ≤ self.new.room) }
    {
        self.by_key.reserve(count)
    }

    /// Counts one more offset of a group and an input partition waits for its transaction.
    pub(crate) fn wait(&mut self, said: &SaidOffset)
        requires room { 0 < self.old.room }
        requires few { (slot_in self.old (key_of said.now)).pending < 2 ^ 63 }
        ensures slots { (key : Key) → lookup (same_key key) self.new.entries
            ≡ cond (same_key (key_of said.now) key) (Some (waits (slot_in self.old key)))
            (lookup (same_key key) self.old.entries) }
        ensures room { self.old.room ≤ self.new.room + 1 }
    {
        let key = (said.group, said.partition);
        if let Some(slot) = self.by_key.get_mut(&key) {
            slot.wait();
            return;
        }
        let mut slot = Slot::new();
        slot.wait();
        // No slot stood there, so none is dropped.
        let _ = self.by_key.insert(key, slot).unwrap();
    }

    // The transaction of an offset ended.
    fn settle(&mut self, said: SaidOffset, outcome: Outcome)
        requires { has_slot self.old (key_of said) ≡ true }
        ensures { (key : Key) → lookup (same_key key) self.new.entries
            ≡ cond (same_key (key_of said) key) (Some (settled outcome (slot_in self.old key) said))
            (lookup (same_key key) self.old.entries) }
    {
        self.by_key
            .get_mut(&(said.group, said.partition))
            .unwrap()
            .settle(said, outcome);
    }

    /// The transaction of these offsets ended, which are in order of the log.
    pub(crate) fn settle_all(&mut self, all: &[SaidOffset], outcome: Outcome)
        requires { All (λ s. has_slot self.old (key_of s) ≡ true) all.now }
        ensures slots { (key : Key) → slot_in self.new key
            ≡ settled_all outcome key.0 key.1 all.now (slot_in self.old key) }
        ensures kept { (key : Key) → has_slot self.new key ≡ has_slot self.old key }
    {
        for said in all {
            self.settle(*said, outcome);
        }
    }
}
