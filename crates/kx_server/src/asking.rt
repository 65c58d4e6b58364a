//! What clients may ask.
ghost use Rattle.std.specs.Prelude.{◌≡◌};
ghost use Rattle.kx_server.specs.Asking.{asker_of, refusal_of};

use kx_broker::refused_fetch;
use kx_message::{ClientId, ErrorCode, Message, ProduceReply};
use std::alloc::Global;

/// The client that asks with this message, if it is one of a client's requests. All other
/// messages go between nodes, or to clients, and no client may send one.
pub fn asker(message: &Message) -> Option<ClientId>
    ensures { result ≡ asker_of message.now }
{
    let caller = match message {
        Message::InitProducerId(it) => it.caller,
        Message::EndTxn(it) => it.caller,
        Message::Produce(it) => it.caller,
        Message::Fetch(it) => it.caller,
        Message::Join(it) => it.caller,
        Message::Leave(it) => it.caller,
        Message::TxnOffsetCommit(it) => it.caller,
        Message::OffsetFetch(it) => it.caller,
        _ => return None,
    };
    Some(caller.client)
}

/// The reply to a request for a data partition that a server of this many doesn't have, and to a
/// batch for the offsets partition, which takes none from clients: unknown topic or partition. None
/// for any other message.
pub fn missing_partition(alloc: Global, message: &Message, partitions: u16) -> Option<Message>
    ensures { result ≡ refusal_of partitions message.now }
{
    match message {
        Message::Produce(it) if it.partition.get() >= partitions => {
            Some(Message::ProduceReply(ProduceReply {
                caller: it.caller,
                partition: it.partition,
                code: ErrorCode::UnknownTopicOrPartition,
                offset: -1,
            }))
        }
        Message::Fetch(it) if it.partition.is_data() && it.partition.get() >= partitions => {
            Some(refused_fetch(alloc, it, ErrorCode::UnknownTopicOrPartition))
        }
        _ => None,
    }
}
