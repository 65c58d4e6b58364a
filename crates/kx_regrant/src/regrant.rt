//! A grant from the coordinator's log.
ghost use Rattle.std.specs.Prelude.{◌≡◌, map};
ghost use Rattle.kx_model.specs.Requests as model;
ghost use Rattle.kx_txnlog.specs.Entry.{note_of, row_of};
ghost use Rattle.kx_txnlog.specs.State.{state_of};
ghost use Rattle.kx_regrant.specs.Regrant.{core_of, granted_again, grants, last_of};
ghost use Rattle.kx_regrant.specs.Internal.{after_entry, after_row, none_seen, seen_grant};

use kx_grant::{Grant, LastRow};
use kx_message::{Epoch, Held, TxnId};
use kx_txnlog::{Cause, Entry, Row, State};

// What the last row of a transactional id says: the pair with which the core goes on, and of the
// transaction.
#[derive(Clone, Copy)]
struct Last {
    core: Held,
    row: LastRow,
}

/// What the rows so far say of a transactional id.
#[derive(Clone, Copy)]
pub struct Regrant {
    // The pair of the last row that granted one.
    granted: Option<Held>,
    // Of the last row.
    last: Option<Last>,
}

// Whether a request for an id was answered with the row's pair.
fn grants(row: &Row) -> bool
    ensures { result ≡ grants (row_of row.now) }
{
    match (row.cause, row.state) {
        (Cause::Init, State::Empty) => true,
        _ => false,
    }
}

// What a row says of the transaction.
fn last_of(state: State) -> LastRow
    ensures { result ≡ last_of (state_of state) }
{
    match state {
        State::Empty => LastRow::Empty,
        State::Ongoing => LastRow::Ongoing,
        State::Prepare(outcome) | State::Complete(outcome) => LastRow::Decided(outcome),
    }
}

fn own_pair(row: &Row) -> Held
    ensures { result ≡ model.own_pair (row_of row.now) }
{
    Held {
        id: row.id,
        epoch: row.epoch,
    }
}

// The id and epoch of the transaction after a row: those of the next id if it names one.
fn held_after(row: &Row) -> Held
    ensures { result ≡ model.held_after (row_of row.now) }
{
    match row.next {
        Some(id) => Held {
            id,
            epoch: Epoch::FIRST,
        },
        None => own_pair(row),
    }
}

// The pair with which the core goes on after a row.
fn core_of(row: &Row) -> Held
    ensures { result ≡ core_of (row_of row.now) }
{
    match row.state {
        State::Prepare(_) => held_after(row),
        State::Empty | State::Ongoing | State::Complete(_) => own_pair(row),
    }
}

impl Regrant {
    /// No row was noted.
    pub fn new() -> Regrant
        ensures { result ≡ none_seen }
    {
        Regrant {
            granted: None,
            last: None,
        }
    }

    /// Notes the next row of the transactional id.
    pub fn note_row(&mut self, row: &Row)
        ensures { self.new ≡ after_row self.old (row_of row.now) }
    {
        if grants(row) {
            self.granted = Some(own_pair(row));
        }
        self.last = Some(Last {
            core: core_of(row),
            row: last_of(row.state),
        });
    }

    // An entry of the log.
    fn note(&mut self, entry: &Entry, txn: &TxnId)
        ensures { self.new ≡ after_entry txn.now self.old (note_of entry.now) }
    {
        match entry {
            Entry::CoordinatorEpoch(_) | Entry::Allot(_) => {}
            Entry::Row(row) => {
                if row.txn == *txn {
                    self.note_row(row);
                }
            }
        }
    }

    /// The grant by the rows that were noted. None if none granted the id.
    pub fn grant(&self) -> Option<Grant>
        ensures { result ≡ seen_grant self.now.granted self.now.last }
    {
        let granted = self.granted?;
        let last = self.last?;
        Some(Grant::reopened(granted, last.core, last.row))
    }
}

/// The grant of a transactional id after a restart, from the entries of the coordinator's log:
/// `None` if none was granted. The pair is that of the last row by which a request for an id was
/// answered: a row of this cause that decides a transaction only fences its owner. Of the
/// transaction the last row is known. The log is gone over once.
pub fn granted_again(entries: &[Entry], txn: &TxnId) -> Option<Grant>
    ensures { result ≡ granted_again (map note_of entries.now) txn.now }
{
    let mut seen = Regrant::new();
    for entry in entries {
        seen.note(entry, txn);
    }
    seen.grant()
}
