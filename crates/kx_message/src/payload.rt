//! What messages carry besides small values: batches of records as they stand, and lists of pairs.
//! Each is a vector that contracts see as a list, and is made of one and given back as one without
//! taking memory.
//!
//! Three types in one form, and not one list over any type: each has a name and a sentence of its
//! own, and Offsets keeps its count within its range.
ghost use Rattle.std.specs.Prelude.{◌≡◌, ◌≤◌, length, nat_eq};
ghost use Rattle.std.specs.Cmp.Lexicographic.{pointwise};
ghost use Rattle.std.specs.Cmp.Rules.{comparing};
ghost use Rattle.std.specs.Ordering.{on, eq_of_both, int_eq};
ghost use Rattle.std.proofs.Common.{rules};

use crate::{PartitionId, ProducerId};
use std::alloc::AllocError;
use std::marker::Model;

/// Bytes that a message carries as they stand, such as record batches.
#[derive(Debug, Drop)]
pub struct Bytes {
    bytes: Vec<u8>,
}

impl Model for Bytes {
    ghost use Rattle.std.specs.Prelude.{ℕ, List};

    ghost Value = { List ℕ };

    ghost view = { λ bytes. bytes.bytes.items };
}

/// A copy of the list, or an error if memory runs out.
impl Clone for Bytes {
    ghost is_clone = { λ list copy. copy ≡ list };

    fn clone(&self) -> Result<Self, AllocError> {
        let bytes = Vec::from_slice(*self.bytes.allocator(), &self.bytes)?;
        Ok(Bytes { bytes })
    }
}

/// Whether both are the same list.
// Written by hand: a derive compares what contracts see, and they see the list without its
// allocator.
impl PartialEq for Bytes {
    ghost eq = { pointwise nat_eq };

    ghost laws = { Prim.search (comparing, rules) };

    fn eq(&self, other: &Self) -> bool {
        self.bytes == other.bytes
    }
}

impl Eq for Bytes {
    ghost laws = { Prim.search (comparing, rules) };
}

impl Bytes {
    /// These bytes.
    pub fn from_vec(bytes: Vec<u8>) -> Self
        ensures { result ≡ bytes.items }
    {
        Bytes { bytes }
    }

    /// The bytes, borrowed.
    pub fn as_slice(&self) -> &[u8]
        ensures { result.now ≡ self.now }
    {
        &self.bytes
    }

    /// The bytes, given back.
    pub fn into_vec(self) -> Vec<u8>
        ensures { result.items ≡ self }
    {
        self.bytes
    }
}

/// An offset that a consumer group commits for a partition.
#[derive(Clone, Copy, Debug, PartialEq, Eq)]
pub struct PartitionOffset {
    /// The partition that the group reads.
    pub partition: PartitionId,
    /// The offset, any i64.
    pub offset: i64,
}

/// The offsets of one commit, 1 to 1000 of them.
#[derive(Debug, Drop)]
pub struct Offsets {
    offsets: Vec<PartitionOffset>,
}

impl Model for Offsets {
    ghost use Rattle.std.specs.Prelude.{List};
    ghost use Rattle.kx_message.specs.declared.payload.PartitionOffset.{PartitionOffset};
    ghost use Rattle.kx_message.specs.Ranges.{IsOffsetCount};
    ghost use Rattle.std.specs.Prelude.{length};

    ghost Value = { List PartitionOffset };

    ghost view = { λ offsets. offsets.offsets.items };

    ghost invariant = { λ offsets. IsOffsetCount (length offsets.offsets.items) };
}

/// A copy of the list, or an error if memory runs out.
impl Clone for Offsets {
    ghost is_clone = { λ list copy. copy ≡ list };

    fn clone(&self) -> Result<Self, AllocError> {
        let offsets = Vec::from_slice(*self.offsets.allocator(), &self.offsets)?;
        Ok(Offsets { offsets })
    }
}

/// Whether both are the same list.
impl PartialEq for Offsets {
    ghost eq = { pointwise
        (eq_of_both (on (λ o. o.partition) nat_eq) (on (λ o. o.offset) int_eq)) };

    ghost laws = { Prim.search (comparing, rules) };

    fn eq(&self, other: &Self) -> bool {
        self.offsets == other.offsets
    }
}

impl Eq for Offsets {
    ghost laws = { Prim.search (comparing, rules) };
}

impl Offsets {
    ghost use Rattle.kx_message.specs.Ranges.{IsOffsetCount};

    /// The most offsets of one commit.
    pub const MOST: usize = 1000;

    /// These offsets, 1 to [`Offsets::MOST`] of them.
    pub fn from_vec(offsets: Vec<PartitionOffset>) -> Self
        requires { IsOffsetCount (length offsets.items) }
        ensures { result ≡ offsets.items }
    {
        Offsets { offsets }
    }

    /// The offsets, borrowed.
    pub fn as_slice(&self) -> &[PartitionOffset]
        ensures value { result.now ≡ self.now }
        ensures within { IsOffsetCount (length self.now) }
    {
        &self.offsets
    }

    /// The offsets, given back.
    pub fn into_vec(self) -> Vec<PartitionOffset>
        ensures value { result.items ≡ self }
        ensures within { IsOffsetCount (length self) }
    {
        self.offsets
    }
}

/// A transaction that ended in an abort, and where its records begin.
#[derive(Clone, Copy, Debug, PartialEq, Eq)]
pub struct AbortedTxn {
    /// The producer of the transaction.
    pub id: ProducerId,
    /// The offset of its first record, any i64.
    pub first: i64,
}

/// The aborted transactions that a reader of committed records skips.
#[derive(Debug, Drop)]
pub struct AbortedTxns {
    aborted: Vec<AbortedTxn>,
}

impl Model for AbortedTxns {
    ghost use Rattle.std.specs.Prelude.{List};
    ghost use Rattle.kx_message.specs.declared.payload.AbortedTxn.{AbortedTxn};

    ghost Value = { List AbortedTxn };

    ghost view = { λ aborted. aborted.aborted.items };
}

/// A copy of the list, or an error if memory runs out.
impl Clone for AbortedTxns {
    ghost is_clone = { λ list copy. copy ≡ list };

    fn clone(&self) -> Result<Self, AllocError> {
        let aborted = Vec::from_slice(*self.aborted.allocator(), &self.aborted)?;
        Ok(AbortedTxns { aborted })
    }
}

/// Whether both are the same list.
impl PartialEq for AbortedTxns {
    ghost eq = { pointwise (eq_of_both (on (λ t. t.id) nat_eq) (on (λ t. t.first) int_eq)) };

    ghost laws = { Prim.search (comparing, rules) };

    fn eq(&self, other: &Self) -> bool {
        self.aborted == other.aborted
    }
}

impl Eq for AbortedTxns {
    ghost laws = { Prim.search (comparing, rules) };
}

impl AbortedTxns {
    /// These transactions.
    pub fn from_vec(aborted: Vec<AbortedTxn>) -> Self
        ensures { result ≡ aborted.items }
    {
        AbortedTxns { aborted }
    }

    /// The transactions, borrowed.
    pub fn as_slice(&self) -> &[AbortedTxn]
        ensures { result.now ≡ self.now }
    {
        &self.aborted
    }

    /// The transactions, given back.
    pub fn into_vec(self) -> Vec<AbortedTxn>
        ensures { result.items ≡ self }
    {
        self.aborted
    }
}
