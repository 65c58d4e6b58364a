//! The rows that are written.
//!
//! An id with its epoch is borrowed (&Held): a copied struct that is passed on twice is refused by
//! the toolchain's borrow check.
ghost use Rattle.std.specs.Prelude.{◌≡◌, ◌+◌, ◌<◌, [], List, true, false};
ghost use Rattle.kx_model.specs.Coordinator.{Prepare, TxnEntry};
ghost use Rattle.kx_message.specs.Ranges.{spent_epoch};
ghost use Rattle.kx_model.specs.Requests as model;
ghost use Rattle.kx_txnlog.specs.Entry.{row_of};
ghost use Rattle.kx_txnlog.specs.State.{cause_of, state_of};
ghost use Rattle.kx_txnlog.specs.Ranges.{may_stand};
ghost use Rattle.kx_coord.specs.Internal.Answers.{IsDrafted, IsMade, IsNextId, is_settled};
ghost use Rattle.kx_coord.specs.Internal.Drafts.{drafted};

use crate::draft::{Listed, RowDraft};
use kx_message::{ClientId, Epoch, Outcome, PartitionId, ProducerId, Timeout, TxnId};
use kx_txnlog::{Cause, Partitions, Row, State};
use std::alloc::Global;

/// The next id, if one is left, and where memory is taken from.
#[derive(Clone, Copy)]
pub(crate) struct Fresh {
    pub(crate) alloc: Global,
    pub(crate) next: Option<ProducerId>,
}

impl Fresh {
    // The row with its epoch raised, which names this next id, with the outcome and the cause. It
    // lists what it listed.
    fn decided(
        self,
        row: &Row,
        next: Option<ProducerId>,
        outcome: Outcome,
        cause: Cause,
    ) -> RowDraft<'_>
        requires { row.now.epoch < spent_epoch }
        ensures { drafted result ≡ record (row_of row.now) {
          epoch = row.now.epoch + 1;
          next = next;
          state = Prepare outcome;
          cause = cause_of cause;
        } }
    {
        let decided = Row {
            txn: row.txn,
            id: row.id,
            epoch: row.epoch.raised().unwrap(),
            previous: row.previous,
            next,
            state: State::Prepare(outcome),
            cause,
            owner: row.owner,
            timeout: row.timeout,
            start: row.start,
            partitions: Partitions::new(self.alloc),
        };
        RowDraft {
            row: decided,
            listed: Listed::Before(&row.partitions),
        }
    }

    /// A transaction that ends and waits for its markers.
    pub(crate) fn prepared(self, row: &Row, outcome: Outcome, cause: Cause) -> Option<RowDraft<'_>>
        requires { row.now.epoch < spent_epoch }
        ensures { (log : List TxnEntry) → IsNextId log self.next
            → IsDrafted (model.prepared log (row_of row.now) outcome (cause_of cause)) result }
    {
        if row.epoch != Epoch::LAST {
            return Some(self.decided(row, None, outcome, cause));
        }
        let id = self.next?;
        Some(self.decided(row, Some(id), outcome, cause))
    }

    /// The row with a partition listed last, unless it lists it, in a transaction that began at
    /// this time.
    pub(crate) fn added(self, row: &Row, partition: PartitionId, start: u64) -> RowDraft<'_>
        requires { row.now.epoch < spent_epoch }
        ensures { drafted result ≡ model.with_added (row_of row.now) start partition }
    {
        let added = Row {
            txn: row.txn,
            id: row.id,
            epoch: row.epoch,
            previous: row.previous,
            next: row.next,
            state: State::Ongoing,
            cause: Cause::Add,
            owner: row.owner,
            timeout: row.timeout,
            start,
            partitions: Partitions::new(self.alloc),
        };
        RowDraft {
            row: added,
            listed: Listed::With(&row.partitions, partition),
        }
    }

    // A row without partitions, as this one but for its id and epoch, the id before, the state and
    // the cause.
    fn cleared(
        self,
        row: &Row,
        id: ProducerId,
        epoch: Epoch,
        previous: Option<ProducerId>,
        ended: (State, Cause),
    ) -> Row
        requires { may_stand (state_of ended.0) epoch ≡ true }
        ensures { row_of result ≡ record (row_of row.now) {
          id = id;
          epoch = epoch;
          previous = previous;
          next = None;
          state = state_of ended.0;
          cause = cause_of ended.1;
          partitions = [];
        } }
    {
        let (state, cause) = ended;
        Row {
            txn: row.txn,
            id,
            epoch,
            previous,
            next: None,
            state,
            cause,
            owner: row.owner,
            timeout: row.timeout,
            start: row.start,
            partitions: Partitions::new(self.alloc),
        }
    }

    /// One epoch higher, with no partitions; an id whose epochs have run out gives way to a new
    /// one. Of a row that is raised nothing is under way.
    pub(crate) fn raised(self, row: &Row, state: State, cause: Cause) -> Option<Row>
        requires { is_settled (state_of state) ≡ true }
        ensures { (log : List TxnEntry) → IsNextId log self.next
            → IsMade (model.raised log (row_of row.now) (state_of state) (cause_of cause)) result }
    {
        if row.epoch < Epoch::LAST {
            let epoch = row.epoch.raised()?;
            return Some(self.cleared(row, row.id, epoch, row.previous, (state, cause)));
        }
        let id = self.next?;
        Some(self.cleared(row, id, Epoch::FIRST, Some(row.id), (state, cause)))
    }

    /// All markers are answered; after its last transaction an id gives way to the next one.
    pub(crate) fn completed(self, row: &Row, outcome: Outcome) -> Option<Row>
        ensures { (log : List TxnEntry) → IsNextId log self.next
            → IsMade (model.completed log (row_of row.now) outcome) result }
    {
        let ended = (State::Complete(outcome), Cause::Markers);
        if row.epoch != Epoch::SPENT {
            return Some(self.cleared(row, row.id, row.epoch, row.previous, ended));
        }
        let id = match row.next {
            Some(id) => id,
            None => self.next?,
        };
        Some(self.cleared(row, id, Epoch::FIRST, Some(row.id), ended))
    }

    /// The first row of a transactional id.
    pub(crate) fn first_use(self, client: ClientId, txn: TxnId, timeout: Timeout) -> Option<Row>
        ensures { (log : List TxnEntry) → IsNextId log self.next
            → IsMade (model.first_use log client txn timeout) result }
    {
        let id = self.next?;
        Some(Row {
            txn,
            id,
            epoch: Epoch::FIRST,
            previous: None,
            next: None,
            state: State::Empty,
            cause: Cause::Init,
            owner: client,
            timeout,
            start: 0,
            partitions: Partitions::new(self.alloc),
        })
    }
}
