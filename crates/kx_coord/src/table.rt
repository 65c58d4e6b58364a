//! What the coordinator keeps of its log, so that no request reads the log.
ghost use Rattle.std.specs.Prelude.{◌≡◌, ◌<◌, ◌≤◌, ◌++◌, [], ◌∷◌, List, IfOk, OnOk, OnErr, map};
ghost use Rattle.std.specs.Prelude.{MatchOption, Some, None};
ghost use Rattle.indexmap.specs.IndexMap.{spare};
ghost use Rattle.kx_model.specs.Coordinator as model;
ghost use Rattle.kx_model.specs.Coordinator.{TxnEntry};
ghost use Rattle.kx_model.specs.CoordinatorNode.{id_limit};
ghost use Rattle.kx_txnlog.specs.Entry.{note_of, row_of};
ghost use Rattle.kx_coord.specs.Internal.Answers.{IsNextId};
ghost use Rattle.kx_coord.specs.Internal.Follows.{Follows};

use indexmap::IndexMap;
use kx_message::{ProducerId, TxnId};
use kx_txnlog::{Entry, Row};
use std::alloc::{AllocError, Global};

/// The last row of each transactional id, found by it, in order of first use; one above all ids
/// that the log names; and the coordinator's epoch, 0 before the first.
#[derive(Drop)]
pub(crate) struct Table {
    pub(crate) rows: IndexMap<TxnId, Row>,
    pub(crate) next_id: u64,
    pub(crate) epoch: i32,
}

// One above the id, 0 if there is none.
fn above(id: Option<ProducerId>) -> u64
    ensures value { result ≡ model.above id }
    ensures most { result ≤ id_limit }
{
    match id {
        Some(id) => id.get() as u64 + 1,
        None => 0,
    }
}

/// One above all ids that an entry names.
pub(crate) fn above_ids(entry: &Entry) -> u64
    ensures value { result ≡ model.above_ids (note_of entry.now) }
    ensures most { result ≤ id_limit }
{
    match entry {
        Entry::CoordinatorEpoch(_) => 0,
        Entry::Allot(id) => above(Some(*id)),
        Entry::Row(row) => above(Some(row.id)).max(above(row.previous).max(above(row.next))),
    }
}

impl Table {
    /// That of an empty log. Takes no memory.
    pub(crate) fn new(alloc: Global) -> Table
        ensures { Follows [] result.rows.entries result.next_id result.epoch }
    {
        Table {
            rows: IndexMap::new(alloc),
            next_id: 0,
            epoch: 0,
        }
    }

    /// That of these entries.
    ///
    /// # Errors
    ///
    /// Only if memory runs out.
    pub(crate) fn of_entries(alloc: Global, entries: &[Entry]) -> Result<Table, AllocError>
        ensures { IfOk result (λ table.
            Follows (map note_of entries.now) table.rows.entries table.next_id table.epoch) }
    {
        let mut table = Table::new(alloc);
        for entry in entries {
            table.reserve()?;
            let copy = entry.clone()?;
            table.note(copy, above_ids(entry));
        }
        Ok(table)
    }

    /// Gives way to that of a log that was read again.
    pub(crate) fn replace(&mut self, table: Table)
        ensures { self.new ≡ table }
    {
        *self = table;
    }

    /// Makes room for one more row, so that the next note asks for no memory.
    ///
    /// # Errors
    ///
    /// Only if memory runs out.
    pub(crate) fn reserve(&mut self) -> Result<(), AllocError>
        ensures same { self.new.rows.entries ≡ self.old.rows.entries }
        ensures next { self.new.next_id ≡ self.old.next_id }
        ensures epoch { self.new.epoch ≡ self.old.epoch }
        ensures room { OnOk result (0 < spare self.new.rows) }
    {
        self.rows.reserve(1)?;
        Ok(())
    }

    /// Notes an entry that was appended, if this is one above all ids that it names.
    pub(crate) fn note(&mut self, entry: Entry, above: u64)
        requires room { 0 < spare self.old.rows }
        requires above { above ≡ model.above_ids (note_of entry) }
        requires most { above ≤ id_limit }
        ensures { (log : List TxnEntry)
            → Follows log self.old.rows.entries self.old.next_id self.old.epoch
            → Follows (log ++ note_of entry ∷ [])
            self.new.rows.entries self.new.next_id self.new.epoch }
    {
        self.next_id = self.next_id.max(above);
        match entry {
            Entry::CoordinatorEpoch(epoch) => {
                self.epoch = epoch;
            }
            Entry::Allot(_) => {}
            Entry::Row(row) => {
                let txn = row.txn;
                // The id's row before this one is dropped, if it had one: the last one counts.
                let _ = self.rows.insert(txn, row).unwrap();
            }
        }
    }

    /// The row of a transactional id.
    pub(crate) fn row(&self, txn: TxnId) -> Option<&Row>
        ensures { (log : List TxnEntry)
            → Follows log self.now.rows.entries self.now.next_id self.now.epoch
            → MatchOption result (model.row_of log txn ≡ None)
            (λ row. model.row_of log txn ≡ Some (row_of row.now)) }
    {
        self.rows.get(&txn)
    }

    /// The row of each transactional id, in order of first use.
    pub(crate) fn rows(&self) -> &[Row]
        ensures { (log : List TxnEntry)
            → Follows log self.now.rows.entries self.now.next_id self.now.epoch
            → map row_of result.now ≡ model.rows log }
    {
        self.rows.values().as_slice()
    }

    /// The next id, if one is left.
    pub(crate) fn next_id(&self) -> Option<ProducerId>
        ensures { (log : List TxnEntry)
            → Follows log self.now.rows.entries self.now.next_id self.now.epoch
            → IsNextId log result }
    {
        let id = i64::try_from(self.next_id).ok()?;
        ProducerId::try_from(id).ok()
    }
}
