//! A client asks for an id and an epoch (KIP-98, "InitProducerIdRequest").
ghost use Rattle.std.specs.Prelude.{◌≡◌, ℕ, List, None};
ghost use Rattle.kx_model.specs.Coordinator.{TxnEntry, Ongoing};
ghost use Rattle.kx_model.specs.Requests as model;
ghost use Rattle.kx_txnlog.specs.Entry.{row_of};
ghost use Rattle.kx_coord.specs.Internal.Answers.{IsAnswer, IsNextId};

use crate::answer::{Answer, own_pair, refuses, repeats, writes};
use crate::draft::Draft;
use crate::rows::Fresh;
use kx_message::{ClientId, Epoch, ErrorCode, Held, Outcome, Timeout, TxnId};
use kx_txnlog::{Cause, Row, State};

// Its owner asks.
fn asked_again(row: &Row) -> Answer<'static>
    ensures { IsAnswer result
        (model.asked_again (row_of row.now) (row_of row.now).state) }
{
    match row.state {
        State::Empty => repeats(own_pair(row)),
        State::Ongoing | State::Prepare(_) | State::Complete(_) => {
            refuses(ErrorCode::InvalidTxnState)
        }
    }
}

// A later client takes the transactional id over.
fn takes_over(fresh: Fresh, client: ClientId, timeout: Timeout, row: &Row) -> Answer<'static>
    ensures { (log : List TxnEntry) → IsNextId log fresh.next
        → IsAnswer result (model.takes_over log client timeout (row_of row.now)) }
{
    let Some(raised) = fresh.raised(row, State::Empty, Cause::Init) else {
        return Answer::UsedUp;
    };
    let mut taken = raised;
    taken.owner = client;
    taken.timeout = timeout;
    writes(Some(taken))
}

// The owner's transaction is aborted, and the newcomer is to ask again.
fn fences_owner(fresh: Fresh, row: &Row) -> Answer<'_>
    requires { (row_of row.now).state ≡ Ongoing }
    ensures { (log : List TxnEntry) → IsNextId log fresh.next
        → IsAnswer result (model.fences_owner log (row_of row.now)) }
{
    let Some(prepared) = fresh.prepared(row, Outcome::Abort, Cause::Init) else {
        return Answer::UsedUp;
    };
    Answer::Writes {
        entry: Draft::Row(prepared),
        code: ErrorCode::ConcurrentTransactions,
        held: None,
    }
}

/// What a client is answered if the transactional id has a row.
pub(crate) fn init_row(fresh: Fresh, client: ClientId, timeout: Timeout, row: &Row) -> Answer<'_>
    ensures { (log : List TxnEntry) → IsNextId log fresh.next
        → IsAnswer result (model.init_row log client timeout (row_of row.now)) }
{
    if client < row.owner {
        return refuses(ErrorCode::ProducerFenced);
    }
    if client == row.owner {
        return asked_again(row);
    }
    match row.state {
        State::Empty | State::Complete(_) => takes_over(fresh, client, timeout, row),
        State::Ongoing => fences_owner(fresh, row),
        State::Prepare(_) => refuses(ErrorCode::ConcurrentTransactions),
    }
}

/// What a client is answered whose transactional id is used for the first time.
pub(crate) fn init_first(
    fresh: Fresh,
    client: ClientId,
    txn: TxnId,
    timeout: Timeout,
) -> Answer<'static>
    ensures { (log : List TxnEntry) → IsNextId log fresh.next
        → IsAnswer result (model.writes (model.first_use log client txn timeout)) }
{
    writes(fresh.first_use(client, txn, timeout))
}

/// What a client without a transactional id is answered.
pub(crate) fn allot(fresh: Fresh) -> Answer<'static>
    ensures { (log : List TxnEntry) (client timeout : ℕ) → IsNextId log fresh.next
        → IsAnswer result (model.init log client None timeout) }
{
    let Some(id) = fresh.next else {
        return Answer::UsedUp;
    };
    Answer::Writes {
        entry: Draft::Allot(id),
        code: ErrorCode::NoError,
        held: Some(Held {
            id,
            epoch: Epoch::FIRST,
        }),
    }
}
