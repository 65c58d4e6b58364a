//! What is taken for the answer of a node that takes no step, since memory runs out or its trace can't
//! be written.
ghost use Rattle.std.specs.Prelude.{◌≡◌};
ghost use Rattle.kx_kafka_server.specs.Untaken.{untaken_reply};

use kx_message::{
    EndReply, ErrorCode, InitReply, JoinReply, LeaveReply, Message, OffsetFetchReply, OffsetsReply,
    ProduceReply,
};

/// The code of a node whose log is closed: nothing was changed, and clients ask again.
pub(crate) const UNTAKEN: ErrorCode = ErrorCode::KafkaStorageError;

/// The reply of a node whose log is closed to a request that is to append, or for a committed offset;
/// `None` if the message is no such request.
pub(crate) fn untaken_reply(message: &Message) -> Option<Message>
    ensures { result ≡ untaken_reply message.now }
{
    match message {
        Message::InitProducerId(it) => Some(Message::InitReply(InitReply {
            caller: it.caller,
            code: UNTAKEN,
            held: None,
        })),
        Message::EndTxn(it) => Some(Message::EndReply(EndReply {
            caller: it.caller,
            code: UNTAKEN,
            held: None,
        })),
        Message::Produce(it) => Some(Message::ProduceReply(ProduceReply {
            caller: it.caller,
            partition: it.partition,
            code: UNTAKEN,
            offset: -1,
        })),
        Message::Join(it) => Some(Message::JoinReply(JoinReply {
            caller: it.caller,
            code: UNTAKEN,
            generation: 0,
            place: 0,
            count: 0,
        })),
        Message::Leave(it) => Some(Message::LeaveReply(LeaveReply {
            caller: it.caller,
            code: UNTAKEN,
        })),
        Message::TxnOffsetCommit(it) => Some(Message::OffsetsReply(OffsetsReply {
            caller: it.caller,
            code: UNTAKEN,
        })),
        Message::OffsetFetch(it) => Some(Message::OffsetFetchReply(OffsetFetchReply {
            caller: it.caller,
            code: UNTAKEN,
            offset: -1,
        })),
        _ => None,
    }
}
