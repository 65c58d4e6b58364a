//! Time: a transaction that has lasted too long is aborted.
ghost use Rattle.std.specs.Prelude.{◌≡◌, map, find, is_some, true, None, Some, IfOk};
ghost use Rattle.std.specs.Prelude.{false, IfSome, OnErr, MatchOption};
ghost use Rattle.kx_model.specs.Coordinator as model;
ghost use Rattle.kx_model.specs.Coordinator.{Ongoing};
ghost use Rattle.kx_model.specs.Markers.{expire, is_overdue, markers_of};
ghost use Rattle.kx_txnlog.specs.Entry.{row_of};
ghost use Rattle.kx_coord.specs.Calls.{Expires};
ghost use Rattle.kx_coord.specs.Internal.Deciding.{IsExpired};

use crate::coordinator::Coordinator;
use crate::markers::push_markers;
use kx_log::Store;
use kx_message::{Message, Outcome};
use kx_txnlog::{Cause, Entry, Row, State};
use std::alloc::AllocError;

// The first row whose transaction is under way for as long as its timeout or longer.
fn overdue(now: u64, rows: &[Row]) -> Option<&Row>
    ensures value { MatchOption result (find (is_overdue now) (map row_of rows.now) ≡ None)
        (λ row. find (is_overdue now) (map row_of rows.now) ≡ Some (row_of row.now)) }
    ensures ongoing { IfSome result (λ row. (row_of row.now).state ≡ Ongoing) }
{
    for row in rows {
        if is_overdue(now, row) {
            return Some(row);
        }
    }
    None
}

// Whether the transaction of a row is under way for as long as its timeout or longer.
fn is_overdue(now: u64, row: &Row) -> bool
    ensures { result ≡ is_overdue now (row_of row.now) }
{
    match row.state {
        State::Ongoing => now >= row.start && now - row.start >= u64::from(row.timeout.get()),
        State::Empty | State::Prepare(_) | State::Complete(_) => false,
    }
}

impl<S: Store> Coordinator<S> {
    // The markers that a row owes.
    fn markers_for(&self, row: &Row) -> Result<Vec<Message>, AllocError>
        ensures { IfOk result (λ handed. handed.items
            ≡ markers_of (model.coordinator_epoch self.now.log.notes) (row_of row.now)) }
    {
        let mut handed = Vec::new(self.alloc);
        push_markers(&mut handed, self.alloc, self.table.epoch, row)?;
        Ok(handed)
    }

    // The row that aborts the first transaction that has lasted too long, if there is any and an id
    // for it.
    fn expired(&self, now: u64) -> Result<Option<Row>, AllocError>
        ensures ok { IfOk result (IsExpired (expire self.now.log.notes now)) }
        ensures refused { OnErr result (is_some (expire self.now.log.notes now) ≡ true) }
    {
        let fresh = self.fresh();
        let Some(row) = overdue(now, self.table.rows()) else {
            return Ok(None);
        };
        match fresh.prepared(row, Outcome::Abort, Cause::Expiry) {
            None => Ok(None),
            Some(prepared) => Ok(Some(prepared.into_row()?)),
        }
    }

    /// The time is this, in milliseconds. The first transaction that is under way for as long as
    /// its timeout or longer is aborted; sends its markers. The coordinator's clock is the greatest
    /// time handed in.
    ///
    /// # Errors
    ///
    /// Only if memory runs out, and if a transaction has lasted too long and the coordinator
    /// isn't closed; then it is as before.
    pub fn expire(&mut self, now: u64) -> Result<Vec<Message>, AllocError>
        ensures ok { IfOk result (λ handed. Expires self.old self.new now handed.items) }
        ensures err { OnErr result ((self.new ≡ self.old)
            × (is_some (expire self.old.log.notes now) ≡ true)
            × (self.old.log.closed ≡ false)) }
    {
        let clock = self.clock.max(now);
        if self.log.is_closed() {
            self.clock = clock;
            return Ok(Vec::new(self.alloc));
        }
        let Some(row) = self.expired(now)? else {
            self.clock = clock;
            return Ok(Vec::new(self.alloc));
        };
        let handed = self.markers_for(&row)?;
        let appended = self.append(Entry::Row(row))?;
        self.clock = clock;
        if !appended {
            return Ok(Vec::new(self.alloc));
        }
        Ok(handed)
    }
}
