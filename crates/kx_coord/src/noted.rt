//! The markers that were answered.
ghost use Rattle.std.specs.Prelude.{◌∷◌, ◌++◌, IfOk};
ghost use Rattle.std.specs.Prelude.{◌≡◌, OnErr, OnOk, false, filter, not, bytes_eq, []};
ghost use Rattle.std.specs.List.{list_any};
ghost use Rattle.kx_model.specs.Markers.{noting, same_answered};
ghost use Rattle.kx_coord.specs.Noted.{SameAnswered, answered, is_marker};

use indexmap::IndexMap;
use kx_message::{Held, PartitionId, TxnId};
use std::alloc::{AllocError, Global};
use std::marker::Model;

// An answered marker of a transactional id.
#[derive(Clone, Copy)]
struct AnsweredMarker {
    held: Held,
    partition: PartitionId,
}

/// The markers that were answered, until their rows are complete. They are found by their
/// transactional id, whose row lists no more partitions than there are.
#[derive(Drop)]
pub(crate) struct NotedMarkers {
    alloc: Global,
    by_txn: IndexMap<TxnId, Vec<AnsweredMarker>>,
}

impl Model for NotedMarkers {
    ghost use Rattle.std.specs.Prelude.{List, map};
    ghost use Rattle.std.specs.List.{flat_map};
    ghost use Rattle.kx_model.specs.Markers.{Answered};

    ghost Value = { List Answered };

    ghost use Rattle.std.specs.Prelude.{bytes_eq};
    ghost use Rattle.indexmap.specs.IndexMap.{IsUnique};
    ghost use Rattle.kx_coord.specs.Noted.{KeptOnce, answered_by};

    ghost view = { λ n. flat_map (λ e. map (answered_by e.0) e.1.items) n.by_txn.entries };

    ghost invariant = { λ n. IsUnique bytes_eq n.by_txn
        × KeptOnce (flat_map (λ e. map (answered_by e.0) e.1.items) n.by_txn.entries) };
}

// Whether it is the answer to the marker of this id and epoch to the partition.
fn is_same(marker: &AnsweredMarker, held: &Held, partition: PartitionId) -> bool
    ensures { result ≡ is_marker held.now partition marker.now }
{
    *held == marker.held && partition == marker.partition
}

// Whether the answer to that marker is among them.
fn has_marker(markers: &[AnsweredMarker], held: &Held, partition: PartitionId) -> bool
    ensures { result ≡ list_any (is_marker held.now partition) markers.now }
{
    markers
        .iter()
        .any(|marker| is_same(marker, held, partition))
}

impl NotedMarkers {
    /// An empty list. Takes no memory.
    pub(crate) fn new(alloc: Global) -> NotedMarkers
        ensures { result ≡ [] }
    {
        NotedMarkers {
            alloc,
            by_txn: IndexMap::new(alloc),
        }
    }

    /// Whether the marker of a transaction to a partition was answered.
    pub(crate) fn contains(&self, txn: TxnId, held: &Held, partition: PartitionId) -> bool
        ensures { result ≡ list_any (same_answered (answered txn held.now partition)) self.now }
    {
        match self.by_txn.get(&txn) {
            None => false,
            Some(markers) => has_marker(markers.as_slice(), held, partition),
        }
    }

    /// Notes that the marker of a transaction to a partition was answered.
    ///
    /// # Errors
    ///
    /// Only if memory runs out, and if it wasn't noted before; then they are as before.
    pub(crate) fn note(
        &mut self,
        txn: TxnId,
        held: &Held,
        partition: PartitionId,
    ) -> Result<(), AllocError>
        ensures ok { OnOk result (SameAnswered self.new
            (noting self.old (answered txn held.now partition))) }
        ensures err { OnErr result (self.new ≡ self.old) }
        ensures refused { OnErr result
            (list_any (same_answered (answered txn held.now partition)) self.old ≡ false) }
    {
        if self.contains(txn, held, partition) {
            return Ok(());
        }
        let marker = AnsweredMarker {
            held: *held,
            partition,
        };
        if let Some(markers) = self.by_txn.get_mut(&txn) {
            markers.push(marker)?;
            return Ok(());
        }
        let markers = vec![in self.alloc; marker]?;
        self.by_txn.insert(txn, markers)?;
        Ok(())
    }

    /// Forgets those of a transactional id.
    pub(crate) fn forget(&mut self, txn: TxnId)
        ensures { SameAnswered self.new (filter (λ a. not (bytes_eq a.txn txn)) self.old) }
    {
        // The answers noted of it are dropped, if there were any: its row is complete.
        let _ = self.by_txn.swap_remove(&txn);
    }

    /// Forgets them all.
    pub(crate) fn forget_all(&mut self)
        ensures { self.new ≡ [] }
    {
        *self = NotedMarkers::new(self.alloc);
    }
}
