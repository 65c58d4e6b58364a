//! What the coordinator answers a request, and the entry that it appends first.
ghost use Rattle.std.specs.Prelude.{◌≡◌};
ghost use Rattle.kx_model.specs.Coordinator as coordinator;
ghost use Rattle.kx_model.specs.Requests as model;
ghost use Rattle.kx_txnlog.specs.Entry.{row_of};
ghost use Rattle.kx_coord.specs.Internal.Answers.{IsAnswer, IsMade, reply_by};
ghost use Rattle.kx_coord.specs.Internal.Drafts.{drafted};

use crate::draft::{Draft, RowDraft};
use kx_message::{
    AddPartition, AddReply, Caller, EndReply, Epoch, ErrorCode, Held, InitReply, Message,
};
use kx_txnlog::{Entry, Row};

/// What is decided about a request. No memory was asked for.
#[derive(Drop)]
pub(crate) enum Answer<'r> {
    /// The log stays as it is.
    Replies {
        code: ErrorCode,
        held: Option<Held>,
    },
    /// The entry needs an id, and none is left.
    UsedUp,
    /// The entry is appended first.
    Writes {
        entry: Draft<'r>,
        code: ErrorCode,
        held: Option<Held>,
    },
}

/// What is done about a request.
#[derive(Drop)]
pub(crate) struct Response {
    /// The entry that is appended first, if any.
    pub(crate) entry: Option<Entry>,
    /// What is answered, if it was appended.
    pub(crate) code: ErrorCode,
    /// The id and epoch that are answered beside the code.
    pub(crate) held: Option<Held>,
}

/// The request is refused.
pub(crate) fn refuses(code: ErrorCode) -> Answer<'static>
    ensures { IsAnswer result (model.refuses code) }
{
    Answer::Replies { code, held: None }
}

/// The request was served before.
pub(crate) fn repeats(held: Held) -> Answer<'static>
    ensures { IsAnswer result (model.repeats held) }
{
    Answer::Replies {
        code: ErrorCode::NoError,
        held: Some(held),
    }
}

/// The id and epoch of a row.
pub(crate) fn own_pair(row: &Row) -> Held
    ensures { result ≡ model.own_pair (row_of row.now) }
{
    Held {
        id: row.id,
        epoch: row.epoch,
    }
}

/// The id and epoch of the transaction after a row: those of the next id if it names one.
pub(crate) fn held_after(row: &Row) -> Held
    ensures { result ≡ model.held_after (row_of row.now) }
{
    match row.next {
        Some(id) => Held {
            id,
            epoch: Epoch::FIRST,
        },
        None => own_pair(row),
    }
}

/// The row is appended, and the request is served.
pub(crate) fn writes_draft(draft: RowDraft<'_>) -> Answer<'_>
    ensures { IsAnswer result (model.writes (drafted draft.entry)) }
{
    let held = held_after(&draft.row);
    Answer::Writes {
        entry: Draft::Row(draft),
        code: ErrorCode::NoError,
        held: Some(held),
    }
}

/// The row, which lists what it is to list, is appended, if there was an id for it, and the request
/// is served.
pub(crate) fn writes(made: Option<Row>) -> Answer<'static>
    ensures { (r : coordinator.Row) → IsMade r made → IsAnswer result (model.writes r) }
{
    match made {
        Some(row) => writes_draft(RowDraft::of(row)),
        None => Answer::UsedUp,
    }
}

/// Whom a request is answered.
#[derive(Clone, Copy)]
pub(crate) enum ReplyTo {
    /// A client that asked for an id.
    Init(Caller),
    /// A client that ended its transaction.
    End(Caller),
    /// A partition that asked to be added to a transaction.
    Add(AddPartition),
}

impl ReplyTo {
    /// The reply with this code and, where that is 0, this id and epoch.
    pub(crate) fn message(&self, code: ErrorCode, held: Option<Held>) -> Message
        ensures { result ≡ reply_by self.now code held }
    {
        match self {
            ReplyTo::Init(caller) => Message::InitReply(InitReply {
                caller: *caller,
                code,
                held,
            }),
            ReplyTo::End(caller) => Message::EndReply(EndReply {
                caller: *caller,
                code,
                held,
            }),
            ReplyTo::Add(request) => Message::AddReply(AddReply {
                partition: request.partition,
                txn: request.txn,
                held: request.held,
                code,
            }),
        }
    }
}
