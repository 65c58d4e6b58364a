//! What the frame of a message says of it before its fields: its kind and its length.
ghost use Rattle.std.specs.Prelude.{◌≡◌, ◌↔◌, ◌≤◌, IsTrue};
ghost use Rattle.kx_message.specs.Fields.{kind_of};
ghost use Rattle.kx_message.specs.Sizes.{FitsFrame, HasRoom, size_of, optional_size};

use crate::TxnId;
use crate::message::Message;

/// The most that a frame's length may say, in bytes.
pub const LONGEST_FRAME: usize = 2_097_152;

/// The byte that tells the kinds of messages apart in their frames.
pub fn kind(message: &Message) -> u8
    ensures { result ≡ kind_of message.now }
{
    match message {
        Message::InitProducerId(_) => 1,
        Message::InitReply(_) => 2,
        Message::EndTxn(_) => 3,
        Message::EndReply(_) => 4,
        Message::Produce(_) => 5,
        Message::ProduceReply(_) => 6,
        Message::AddPartition(_) => 7,
        Message::AddReply(_) => 8,
        Message::WriteMarker(_) => 9,
        Message::MarkerReply(_) => 10,
        Message::Fetch(_) => 11,
        Message::FetchReply(_) => 12,
        Message::Join(_) => 13,
        Message::JoinReply(_) => 14,
        Message::Leave(_) => 15,
        Message::LeaveReply(_) => 16,
        Message::TxnOffsetCommit(_) => 17,
        Message::OffsetsReply(_) => 18,
        Message::OffsetFetch(_) => 19,
        Message::OffsetFetchReply(_) => 20,
    }
}

fn optional_len(txn: Option<TxnId>) -> usize
    ensures value { result ≡ optional_size txn }
    ensures within { result ≤ 65 }
{
    match txn {
        None => 1,
        Some(txn) => 1 + txn.as_bytes().len(),
    }
}

/// How many bytes the fields of a message take in its frame. The message has room in one
/// (`HasRoom`): the batches and the aborted transactions that it carries are fewer than 2,097,152
/// bytes and transactions, as in any message that [`Message::fits`], and in any without them.
pub fn fields_len(message: &Message) -> usize
    requires { HasRoom message.now }
    ensures { result ≡ size_of message.now }
{
    match message {
        Message::InitProducerId(init) => 12 + optional_len(init.txn),
        Message::InitReply(_) | Message::EndReply(_) | Message::ProduceReply(_) => 20,
        Message::EndTxn(end) => 20 + end.txn.as_bytes().len(),
        Message::Produce(produce) => {
            14 + optional_len(produce.txn) + produce.batch.as_slice().len()
        }
        Message::AddPartition(add) => 13 + add.txn.as_bytes().len(),
        Message::AddReply(reply) => 15 + reply.txn.as_bytes().len(),
        Message::MarkerReply(reply) => 15 + reply.txn.as_bytes().len(),
        Message::WriteMarker(marker) => 18 + marker.txn.as_bytes().len(),
        Message::Fetch(_) => 23,
        Message::FetchReply(reply) => {
            44 + 16 * reply.aborted.as_slice().len() + reply.batches.as_slice().len()
        }
        Message::Join(join) => 9 + join.group.as_bytes().len(),
        Message::Leave(leave) => 9 + leave.group.as_bytes().len(),
        Message::JoinReply(_) | Message::OffsetFetchReply(_) => 18,
        Message::LeaveReply(_) | Message::OffsetsReply(_) => 10,
        Message::TxnOffsetCommit(commit) => {
            34 + commit.txn.as_bytes().len()
                + commit.group.as_bytes().len()
                + 10 * commit.offsets.as_slice().len()
        }
        Message::OffsetFetch(fetch) => 12 + fetch.group.as_bytes().len(),
    }
}

// Whether no payload alone is more than a frame holds.
fn has_room(message: &Message) -> bool
    ensures { IsTrue result ↔ HasRoom message.now }
{
    match message {
        Message::Produce(produce) => produce.batch.as_slice().len() < LONGEST_FRAME,
        Message::FetchReply(reply) => {
            reply.aborted.as_slice().len() < LONGEST_FRAME
                && reply.batches.as_slice().len() < LONGEST_FRAME
        }
        _ => true,
    }
}

impl Message {
    /// Whether the message's frame is within the limit: its kind and fields take at most 2097152
    /// bytes. Only a message that carries record batches or aborted transactions can be longer.
    #[tactic(auto, using(crate::proofs::Sizes::size_is, crate::proofs::Sizes::room))]
    pub fn fits(&self) -> bool
        ensures { IsTrue result ↔ FitsFrame self.now }
    {
        has_room(self) && fields_len(self) < LONGEST_FRAME
    }
}
