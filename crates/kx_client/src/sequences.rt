//! The next sequence of each partition in a producer's present epoch.
ghost use Rattle.std.specs.Prelude.{◌≡◌, [], OnOk, OnErr};
ghost use Rattle.kx_model.specs.Client.{sequence_of, with_sequence};

use indexmap::IndexMap;
use kx_message::PartitionId;
use std::alloc::{AllocError, Global};
use std::marker::Model;

/// The next sequence of each partition to which something was sent, in the order of first use
/// (KIP-98's base sequence).
#[derive(Drop)]
pub(crate) struct Sequences {
    by_partition: IndexMap<PartitionId, u32>,
}

impl Model for Sequences {
    ghost use Rattle.std.specs.Prelude.{List, nat_eq};
    ghost use Rattle.indexmap.specs.IndexMap.{IsUnique};
    ghost use Rattle.kx_client.specs.Internal.{sequences_in};
    ghost use Rattle.kx_model.specs.Client.{Sequence};

    ghost Value = { List Sequence };

    ghost view = { λ s. sequences_in s.by_partition.entries };
}

impl Sequences {
    /// Sequences of a producer that has sent nothing.
    pub(crate) fn new(alloc: Global) -> Sequences
        ensures { result ≡ [] }
    {
        Sequences {
            by_partition: IndexMap::new(alloc),
        }
    }

    /// The next sequence of a partition, 0 if nothing was sent to it.
    pub(crate) fn next(&self, partition: PartitionId) -> u32
        ensures { result ≡ sequence_of self.now partition }
    {
        self.by_partition.get(&partition).copied().unwrap_or(0)
    }

    /// Sets the next sequence of a partition. If memory is refused, all is as before.
    pub(crate) fn set(&mut self, partition: PartitionId, next: u32) -> Result<(), AllocError>
        ensures ok { OnOk result (self.new ≡ with_sequence self.old partition next) }
        ensures err { OnErr result (self.new ≡ self.old) }
    {
        self.by_partition.insert(partition, next)?;
        Ok(())
    }

    /// A new epoch begins: each partition's next sequence is 0.
    pub(crate) fn clear(&mut self)
        ensures { self.new ≡ [] }
    {
        self.by_partition.clear();
    }
}
