//! The open transactions, in order of their first offsets.
ghost use Rattle.std.specs.Prelude.{◌≡◌, ◌≤◌, ◌<◌, ◌==◌, None, [], length, find, MatchOption};
ghost use Rattle.std.specs.Prelude.{MatchResult, IfOk, IsErr};
ghost use Rattle.kx_model.specs.Produce.{open_limit};
ghost use Rattle.kx_open.specs.Open.{begun, ended, epoch_in, is_txn_of, IsLeast};
ghost use Rattle.kx_open.specs.Open.{IsPlaceBehind, Refuses};

use crate::fault::BeginFault;
use kx_message::{Epoch, ProducerId};
use std::alloc::{AllocError, Global};
use std::marker::Model;

/// How many transactions may be open in one partition.
pub const OPEN_LIMIT: usize = 1024;

/// A transaction that began in a partition and didn't end there yet.
#[derive(Clone, Copy, Debug, PartialEq, Eq)]
pub struct OpenTxn {
    /// The producer of the transaction.
    pub id: ProducerId,
    /// The producer's epoch in it.
    pub epoch: Epoch,
    /// The offset of its first record, any i64.
    pub first: i64,
}

/// The open transactions of a partition, at most one of each producer and 1,024 in all.
#[derive(Drop)]
pub struct OpenTxns {
    // the earliest first offset first
    txns: Vec<OpenTxn>,
}

impl Model for OpenTxns {
    ghost use Rattle.std.specs.Prelude.{◌-◌, vec_len, vec_capacity};
    ghost use Rattle.kx_open.specs.Open.{OpenState, IsOpenList};

    ghost Value = { OpenState };

    ghost view = { λ o. record {
      txns = o.txns.items;
      room = vec_capacity o.txns - vec_len o.txns;
    } };

    ghost invariant = { λ o. IsOpenList o.txns.items };
}

impl OpenTxns {
    /// A list of no open transaction. It takes memory from `alloc` as they begin.
    pub fn new(alloc: Global) -> OpenTxns
        ensures { result.txns ≡ [] }
    {
        OpenTxns {
            txns: Vec::new(alloc),
        }
    }

    /// Makes room for one more, so that the next [`begin`](OpenTxns::begin) asks for no memory.
    /// What is open stays.
    ///
    /// # Errors
    ///
    /// Only if memory runs out, if there was no room.
    pub fn reserve(&mut self) -> Result<(), AllocError>
        ensures txns { self.new.txns ≡ self.old.txns }
        ensures room { IfOk result (λ done. 0 < self.new.room) }
        ensures err { IsErr result → self.old.room ≡ 0 }
    {
        self.txns.reserve(1)
    }

    /// Whether no more may begin: 1,024 are open.
    pub fn is_full(&self) -> bool
        ensures { result ≡ (length self.now.txns == open_limit) }
    {
        self.txns.len() == OPEN_LIMIT
    }

    /// A transaction of this producer begins at an offset. None of its id is open, which
    /// [`epoch_of`](OpenTxns::epoch_of) tells.
    ///
    /// # Errors
    ///
    /// [`BeginFault::Full`] exactly if 1,024 are open, else [`BeginFault::Memory`] if there
    /// was no room and memory ran out. What is open stays.
    pub fn begin(&mut self, id: ProducerId, epoch: Epoch, offset: i64) -> Result<(), BeginFault>
        requires { epoch_in id self.old.txns ≡ None }
        ensures { MatchResult result
            (λ done. (length self.old.txns < open_limit) × (self.new.txns
            ≡ begun (record { id = id; epoch = epoch; first = offset }) self.old.txns))
            (λ fault. Refuses fault self.old × (self.new.txns ≡ self.old.txns)) }
    {
        if self.is_full() {
            return Err(BeginFault::Full);
        }
        let place = self.place_behind(offset);
        let txn = OpenTxn {
            id,
            epoch,
            first: offset,
        };
        self.txns.insert(place, txn)?;
        Ok(())
    }

    // The place after those that begin no later than an offset.
    fn place_behind(&self, offset: i64) -> usize
        ensures within { result ≤ length self.now.txns }
        ensures between { IsPlaceBehind offset self.now.txns result }
    {
        self.txns.partition_point(|txn| txn.first <= offset)
    }

    /// Takes out the transaction of an id and gives it, or `None` if none of that id is open. No
    /// memory is asked for.
    pub fn end_at(&mut self, id: ProducerId) -> Option<OpenTxn>
        ensures txn { result ≡ find (is_txn_of id) self.old.txns }
        ensures rest { self.new.txns ≡ ended id self.old.txns }
        ensures room { self.old.room ≤ self.new.room }
    {
        let ended = self.txn_of(id);
        self.txns.retain(|txn| txn.id != id);
        ended
    }

    // The open transaction of an id.
    fn txn_of(&self, id: ProducerId) -> Option<OpenTxn>
        ensures { result ≡ find (is_txn_of id) self.now.txns }
    {
        self.txns.iter().find(|txn| txn.id == id).copied()
    }

    /// The least of their first offsets, or `None` if none is open. Only one is looked at, and
    /// no memory is asked for.
    pub fn first_open(&self) -> Option<i64>
        ensures { MatchOption result (self.now.txns ≡ []) (λ first. IsLeast first self.now.txns) }
    {
        let txn = self.txns.first()?;
        Some(txn.first)
    }

    /// The epoch of the open transaction of an id, or `None` if none of that id is open. No
    /// memory is asked for.
    pub fn epoch_of(&self, id: ProducerId) -> Option<Epoch>
        ensures { result ≡ epoch_in id self.now.txns }
    {
        self.txn_of(id).map(|txn| txn.epoch)
    }
}
