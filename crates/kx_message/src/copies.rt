//! Copies of messages. A copy takes memory only if a message carries bytes or a list.
ghost use Rattle.std.specs.Prelude.{◌≡◌};
ghost use Rattle.kx_message.specs.Copies.{HoldsNoList};

use crate::message::Message;
use std::alloc::AllocError;

/// A copy of the message, or an error if memory runs out, which a message without bytes and
/// lists never meets.
// Written by hand, over derived copies of its parts, so that its contract says which messages take
// no memory.
impl Clone for Message {
    ghost is_clone = { λ message copy. copy ≡ message };

    ghost is_infallible = { HoldsNoList };

    fn clone(&self) -> Result<Self, AllocError> {
        match self {
            Message::InitProducerId(init) => Ok(Message::InitProducerId(*init)),
            Message::InitReply(reply) => Ok(Message::InitReply(*reply)),
            Message::EndTxn(end) => Ok(Message::EndTxn(*end)),
            Message::EndReply(reply) => Ok(Message::EndReply(*reply)),
            Message::Produce(produce) => Ok(Message::Produce(produce.clone()?)),
            Message::ProduceReply(reply) => Ok(Message::ProduceReply(*reply)),
            Message::AddPartition(add) => Ok(Message::AddPartition(*add)),
            Message::AddReply(reply) => Ok(Message::AddReply(*reply)),
            Message::WriteMarker(marker) => Ok(Message::WriteMarker(*marker)),
            Message::MarkerReply(reply) => Ok(Message::MarkerReply(*reply)),
            Message::Fetch(fetch) => Ok(Message::Fetch(*fetch)),
            Message::FetchReply(reply) => Ok(Message::FetchReply(reply.clone()?)),
            Message::Join(join) => Ok(Message::Join(*join)),
            Message::JoinReply(reply) => Ok(Message::JoinReply(*reply)),
            Message::Leave(leave) => Ok(Message::Leave(*leave)),
            Message::LeaveReply(reply) => Ok(Message::LeaveReply(*reply)),
            Message::TxnOffsetCommit(commit) => Ok(Message::TxnOffsetCommit(commit.clone()?)),
            Message::OffsetsReply(reply) => Ok(Message::OffsetsReply(*reply)),
            Message::OffsetFetch(fetch) => Ok(Message::OffsetFetch(*fetch)),
            Message::OffsetFetchReply(reply) => Ok(Message::OffsetFetchReply(*reply)),
        }
    }
}
