//! The replies of the core's nodes.
ghost use Rattle.std.specs.Prelude.{◌≡◌};
ghost use Rattle.kx_kafka_server.specs.Callers.{caller_of};

use crate::closed::Closed;
use kx_message::{
    Caller, EndReply, FetchReply, InitReply, JoinReply, LeaveReply, Message, OffsetFetchReply,
    OffsetsReply, ProduceReply,
};

/// Who asked: the caller of a client's request, and of the reply to one. None of a message between nodes.
pub(crate) fn caller_of(message: &Message) -> Option<Caller>
    ensures { result ≡ caller_of message.now }
{
    match message {
        Message::InitProducerId(it) => Some(it.caller),
        Message::InitReply(it) => Some(it.caller),
        Message::EndTxn(it) => Some(it.caller),
        Message::EndReply(it) => Some(it.caller),
        Message::Produce(it) => Some(it.caller),
        Message::ProduceReply(it) => Some(it.caller),
        Message::Fetch(it) => Some(it.caller),
        Message::FetchReply(it) => Some(it.caller),
        Message::Join(it) => Some(it.caller),
        Message::JoinReply(it) => Some(it.caller),
        Message::Leave(it) => Some(it.caller),
        Message::LeaveReply(it) => Some(it.caller),
        Message::TxnOffsetCommit(it) => Some(it.caller),
        Message::OffsetsReply(it) => Some(it.caller),
        Message::OffsetFetch(it) => Some(it.caller),
        Message::OffsetFetchReply(it) => Some(it.caller),
        Message::AddPartition(_)
        | Message::AddReply(_)
        | Message::WriteMarker(_)
        | Message::MarkerReply(_) => None,
    }
}

/// The reply to an InitProducerId.
pub(crate) fn init_reply(message: &Message) -> Result<InitReply, Closed> {
    match message {
        Message::InitReply(reply) => Ok(*reply),
        _ => Err(Closed),
    }
}

/// The reply to an EndTxn.
pub(crate) fn end_reply(message: &Message) -> Result<EndReply, Closed> {
    match message {
        Message::EndReply(reply) => Ok(*reply),
        _ => Err(Closed),
    }
}

/// The reply to a Produce.
pub(crate) fn produce_reply(message: &Message) -> Result<ProduceReply, Closed> {
    match message {
        Message::ProduceReply(reply) => Ok(*reply),
        _ => Err(Closed),
    }
}

/// The reply to a Fetch.
pub(crate) fn fetch_reply(message: Message) -> Result<FetchReply, Closed> {
    match message {
        Message::FetchReply(reply) => Ok(reply),
        _ => Err(Closed),
    }
}

/// The reply to a Join.
pub(crate) fn join_reply(message: &Message) -> Result<JoinReply, Closed> {
    match message {
        Message::JoinReply(reply) => Ok(*reply),
        _ => Err(Closed),
    }
}

/// The reply to a Leave.
pub(crate) fn leave_reply(message: &Message) -> Result<LeaveReply, Closed> {
    match message {
        Message::LeaveReply(reply) => Ok(*reply),
        _ => Err(Closed),
    }
}

/// The reply to a TxnOffsetCommit.
pub(crate) fn offsets_reply(message: &Message) -> Result<OffsetsReply, Closed> {
    match message {
        Message::OffsetsReply(reply) => Ok(*reply),
        _ => Err(Closed),
    }
}

/// The reply to an OffsetFetch.
pub(crate) fn offset_fetch_reply(message: &Message) -> Result<OffsetFetchReply, Closed> {
    match message {
        Message::OffsetFetchReply(reply) => Ok(*reply),
        _ => Err(Closed),
    }
}
