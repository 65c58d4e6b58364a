//! Entries that are decided, and for which no memory was asked yet. What a row lists is copied only
//! once the row is to be appended.
ghost use Rattle.std.specs.Prelude.{◌≡◌, false, IfOk};
ghost use Rattle.kx_model.specs.CoordinatorNode.{has_no_id};
ghost use Rattle.kx_txnlog.specs.Entry.{note_of, row_of};
ghost use Rattle.kx_coord.specs.Internal.Drafts.{drafted, note_drafted};

use kx_message::{PartitionId, ProducerId};
use kx_txnlog::{Entry, Partitions, Row};
use std::alloc::AllocError;

/// The partitions that a row is to list.
#[derive(Clone, Copy)]
pub(crate) enum Listed<'r> {
    /// Those that it has.
    Own,
    /// Those of the row before.
    Before(&'r Partitions),
    /// Those of the row before, and this one after them, unless it is among them.
    With(&'r Partitions, PartitionId),
}

/// A row that is decided, but for what it lists.
#[derive(Drop)]
pub(crate) struct RowDraft<'r> {
    pub(crate) row: Row,
    pub(crate) listed: Listed<'r>,
}

impl RowDraft<'_> {
    /// A row that lists what it is to list.
    pub(crate) fn of(row: Row) -> RowDraft<'static>
        ensures { drafted result ≡ row_of row }
    {
        RowDraft {
            row,
            listed: Listed::Own,
        }
    }

    /// The row, with what it lists.
    ///
    /// # Errors
    ///
    /// Only if memory runs out.
    pub(crate) fn into_row(self) -> Result<Row, AllocError>
        ensures { IfOk result (λ row. row_of row ≡ drafted self.entry) }
    {
        let RowDraft { mut row, listed } = self;
        match listed {
            Listed::Own => {}
            Listed::Before(partitions) => row.partitions = partitions.clone()?,
            Listed::With(partitions, partition) => {
                let mut partitions = partitions.clone()?;
                partitions.insert(partition)?;
                row.partitions = partitions;
            }
        }
        Ok(row)
    }
}

/// An entry that is decided.
#[derive(Drop)]
pub(crate) enum Draft<'r> {
    /// This id is handed out.
    Allot(ProducerId),
    /// A transactional id has this row.
    Row(RowDraft<'r>),
}

impl Draft<'_> {
    /// The entry. There is an id for it.
    ///
    /// # Errors
    ///
    /// Only if memory runs out.
    pub(crate) fn into_entry(self) -> Result<Entry, AllocError>
        ensures value { IfOk result (λ entry. note_of entry ≡ note_drafted self.entry) }
        ensures id { has_no_id (note_drafted self.entry) ≡ false }
    {
        match self {
            Draft::Allot(id) => Ok(Entry::Allot(id)),
            Draft::Row(row) => Ok(Entry::Row(row.into_row()?)),
        }
    }
}
