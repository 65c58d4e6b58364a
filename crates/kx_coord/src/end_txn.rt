//! A client ends its transaction (KIP-98, "EndTxnRequest"; KIP-890).
ghost use Rattle.std.specs.Prelude.{◌≡◌, ◌==◌, ◌+◌, List, Some};
ghost use Rattle.kx_model.specs.Coordinator as coordinator;
ghost use Rattle.kx_model.specs.Coordinator.{ByEnd, TxnEntry, Ongoing};
ghost use Rattle.kx_model.specs.Requests as model;
ghost use Rattle.kx_txnlog.specs.Entry.{row_of};
ghost use Rattle.kx_txnlog.specs.State.{state_of};
ghost use Rattle.kx_coord.specs.Internal.Answers.{IsAnswer, IsNextId, is_settled};

use crate::add_partition::{is, is_old, refused_first};
use crate::answer::{Answer, held_after, own_pair, refuses, repeats, writes, writes_draft};
use crate::rows::Fresh;
use kx_message::{Epoch, ErrorCode, Held, Outcome};
use kx_txnlog::{Cause, Row, State};

// Whether a state is one with this outcome decided.
fn has_outcome(outcome: Outcome, state: State) -> bool
    ensures { result ≡ model.has_outcome outcome (state_of state) }
{
    match state {
        State::Empty | State::Ongoing => false,
        State::Prepare(decided) | State::Complete(decided) => decided == outcome,
    }
}

// Whether an epoch is the one above another.
fn is_above(epoch: Epoch, other: Epoch) -> bool
    ensures { result ≡ (epoch == other + 1) }
{
    other.raised() == Some(epoch)
}

// Whether the row ends the transaction of this id and epoch: it stands one epoch higher, or, after
// the last epoch, at the id that took the place of this one.
fn ends(row: &Row, held: &Held) -> bool
    ensures { result ≡ coordinator.ends held.now.id held.now.epoch (row_of row.now) }
{
    let is_raised = row.id == held.id && is_above(row.epoch, held.epoch);
    let is_previous = is(row.previous, held.id);
    match row.state {
        State::Empty | State::Ongoing => false,
        State::Prepare(_) => is_raised,
        State::Complete(_) => {
            is_raised || (held.epoch == Epoch::LAST && is_previous && row.epoch == Epoch::FIRST)
        }
    }
}

// What an end is answered when it is asked again: while the markers are on their way the id and
// epoch of the transaction after, and else the row's own.
fn ended_as(row: &Row) -> Held
    ensures { result ≡ model.ended_as (row_of row.now) (row_of row.now).state }
{
    match row.state {
        State::Prepare(_) => held_after(row),
        State::Empty | State::Ongoing | State::Complete(_) => own_pair(row),
    }
}

// No partition was added: only an abort ends it.
fn nothing_sent(fresh: Fresh, row: &Row, outcome: Outcome) -> Answer<'static>
    ensures { (log : List TxnEntry) → IsNextId log fresh.next
        → IsAnswer result (model.nothing_sent log (row_of row.now) outcome) }
{
    match outcome {
        Outcome::Abort => { writes(fresh.raised(row, State::Complete(Outcome::Abort), Cause::End)) }
        Outcome::Commit => refuses(ErrorCode::InvalidTxnState),
    }
}

// The transaction ends, and waits for its markers.
fn decides(fresh: Fresh, row: &Row, outcome: Outcome) -> Answer<'_>
    requires { (row_of row.now).state ≡ Ongoing }
    ensures { (log : List TxnEntry) → IsNextId log fresh.next
        → IsAnswer result (model.writes (model.prepared log (row_of row.now) outcome ByEnd)) }
{
    match fresh.prepared(row, outcome, Cause::End) {
        Some(prepared) => writes_draft(prepared),
        None => Answer::UsedUp,
    }
}

/// What a client is answered if the transactional id has a row.
pub(crate) fn end_row<'r>(fresh: Fresh, row: &'r Row, held: &Held, outcome: Outcome) -> Answer<'r>
    ensures { (log : List TxnEntry) → IsNextId log fresh.next
        → IsAnswer result (model.end_at log (Some (row_of row.now)) held.now outcome) }
{
    if let Some(code) = refused_first(row, held) {
        return refuses(code);
    }
    if ends(row, held) {
        if has_outcome(outcome, row.state) {
            return repeats(ended_as(row));
        }
        return refuses(ErrorCode::InvalidTxnState);
    }
    if is_old(row, held) {
        return refuses(ErrorCode::ProducerFenced);
    }
    match row.state {
        State::Empty | State::Complete(_) => nothing_sent(fresh, row, outcome),
        State::Ongoing => decides(fresh, row, outcome),
        State::Prepare(_) => refuses(ErrorCode::ConcurrentTransactions),
    }
}
