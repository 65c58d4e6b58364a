//! The offsets that wait for the end of their transactions, by producer id.
ghost use Rattle.std.specs.Prelude.{◌≡◌, ◌<◌, ◌≤◌, ◌+◌, ◌++◌, ◌∷◌, [], ℕ, cond, nat_eq, OnOk};
ghost use Rattle.std.specs.Prelude.{MatchOption, None, Some};
ghost use Rattle.std.specs.Map.{lookup};
ghost use Rattle.kx_commits.specs.Table.{none_waiting, waiting_in};

use crate::said::SaidOffset;
use indexmap::IndexMap;
use kx_message::ProducerId;
use std::alloc::{AllocError, Global};
use std::marker::Model;

/// The offsets of one transaction, in order.
#[derive(Drop)]
pub(crate) struct Waiting {
    said: Vec<SaidOffset>,
}

impl Model for Waiting {
    ghost use Rattle.std.specs.Prelude.{◌-◌, vec_capacity, vec_len};
    ghost use Rattle.kx_commits.specs.Table as table;

    ghost Value = { table.Waiting };

    ghost view = { λ w. record {
      said = w.said.items;
      room = vec_capacity w.said - vec_len w.said;
    } };
}

impl Waiting {
    /// No offset waits.
    pub(crate) fn new(alloc: Global) -> Waiting
        ensures { result.said ≡ [] }
    {
        Waiting {
            said: Vec::new(alloc),
        }
    }

    /// All of them.
    pub(crate) fn all(&self) -> &[SaidOffset]
        ensures { result.now ≡ self.now.said }
    {
        self.said.as_slice()
    }

    /// Makes room for this many more.
    pub(crate) fn reserve(&mut self, count: usize) -> Result<(), AllocError>
        ensures same { self.new.said ≡ self.old.said }
        ensures room { OnOk result (count ≤ self.new.room) }
    {
        self.said.reserve(count)
    }

    /// Puts one more offset after those that wait.
    pub(crate) fn push(&mut self, said: SaidOffset)
        requires { 0 < self.old.room }
        ensures said { self.new.said ≡ self.old.said ++ said ∷ [] }
        ensures room { self.old.room ≤ self.new.room + 1 }
    {
        self.said.push(said).unwrap();
    }
}

/// The offsets of all transactions.
#[derive(Drop)]
pub(crate) struct WaitingById {
    alloc: Global,
    by_id: IndexMap<ProducerId, Waiting>,
}

impl Model for WaitingById {
    ghost use Rattle.std.specs.Prelude.{nat_eq};
    ghost use Rattle.indexmap.specs.IndexMap.{IsUnique};
    ghost use Rattle.kx_commits.specs.Table.{WaitingTable};

    ghost Value = { WaitingTable };

    ghost view = { λ w. w.by_id.entries };

    ghost invariant = { λ w. IsUnique nat_eq w.by_id };
}

impl WaitingById {
    /// A table in which no offset waits.
    pub(crate) fn new(alloc: Global) -> WaitingById
        ensures { (id : ℕ) → waiting_in result id ≡ none_waiting }
    {
        WaitingById {
            alloc,
            by_id: IndexMap::new(alloc),
        }
    }

    /// Makes room for this many more of a producer id.
    pub(crate) fn reserve(&mut self, id: ProducerId, count: usize) -> Result<(), AllocError>
        ensures same { (other : ℕ)
            → (waiting_in self.new other).said ≡ (waiting_in self.old other).said }
        ensures room { OnOk result (count ≤ (waiting_in self.new id).room) }
    {
        if let Some(waiting) = self.by_id.get_mut(&id) {
            return waiting.reserve(count);
        }
        let mut waiting = Waiting::new(self.alloc);
        waiting.reserve(count)?;
        self.by_id.insert(id, waiting)?;
        Ok(())
    }

    /// Counts one more offset of a producer id that waits.
    pub(crate) fn push(&mut self, id: ProducerId, said: SaidOffset)
        requires { 0 < (waiting_in self.old id).room }
        ensures said { (other : ℕ) → (waiting_in self.new other).said
            ≡ cond (nat_eq id other) ((waiting_in self.old other).said ++ said ∷ [])
            (waiting_in self.old other).said }
        ensures room { (waiting_in self.old id).room ≤ (waiting_in self.new id).room + 1 }
    {
        self.by_id.get_mut(&id).unwrap().push(said);
    }

    /// Takes out those of a producer id, if any were kept of it.
    pub(crate) fn take(&mut self, id: ProducerId) -> Option<Waiting>
        ensures taken { MatchOption result ((waiting_in self.old id).said ≡ [])
            (λ waiting. waiting.said ≡ (waiting_in self.old id).said) }
        ensures others { (other : ℕ) → (waiting_in self.new other).said
            ≡ cond (nat_eq id other) [] (waiting_in self.old other).said }
    {
        self.by_id.swap_remove(&id)
    }
}
