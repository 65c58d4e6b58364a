//! What is read of messages: whose they are, which transaction they are about, and how they answer.
use kx_batch::BatchView;
use kx_message::{ClientId, ErrorCode, Held, Message, NodeId, Produce};

// Whose producer id a batch has; none if it has none, or its bytes are no batch.
fn producer_in(produce: &Produce) -> Option<i64> {
    let Ok((batch, _)) = BatchView::read(produce.batch.as_slice()) else {
        return None;
    };
    let id = batch.producer_id();
    if id < 0 { None } else { Some(id) }
}

// The producer id and epoch that a message names, if it names both.
fn held_in(message: &Message) -> Option<Held> {
    match message {
        Message::InitReply(reply) => reply.held,
        Message::EndTxn(request) => Some(request.held),
        Message::EndReply(reply) => reply.held,
        Message::AddPartition(request) => Some(request.held),
        Message::AddReply(reply) => Some(reply.held),
        Message::WriteMarker(marker) => Some(marker.held.get()),
        Message::MarkerReply(reply) => Some(reply.held.get()),
        Message::TxnOffsetCommit(request) => Some(request.held),
        _ => None,
    }
}

/// The producer id that a message names, if any.
pub(crate) fn producer_of(message: &Message) -> Option<i64> {
    if let Message::Produce(produce) = message {
        return producer_in(produce);
    }
    Some(held_in(message)?.id.get())
}

// The client that sends a message, if one does.
fn sender_of(message: &Message) -> Option<ClientId> {
    match message {
        Message::InitProducerId(request) => Some(request.caller.client),
        Message::EndTxn(request) => Some(request.caller.client),
        Message::Produce(request) => Some(request.caller.client),
        Message::Fetch(request) => Some(request.caller.client),
        Message::Join(request) => Some(request.caller.client),
        Message::Leave(request) => Some(request.caller.client),
        Message::TxnOffsetCommit(request) => Some(request.caller.client),
        Message::OffsetFetch(request) => Some(request.caller.client),
        _ => None,
    }
}

/// The client that a message is from or for, if any.
pub(crate) fn client_of(message: &Message) -> Option<ClientId> {
    match message.receiver() {
        NodeId::Client(client) => Some(client),
        NodeId::Coordinator | NodeId::Partition(_) => sender_of(message),
    }
}

/// The number of the client that a message is from or for, if any.
pub(crate) fn number_of(message: &Message) -> Option<u32> {
    Some(client_of(message)?.get())
}

/// The code of a reply, if the message is one.
pub(crate) fn code_of(message: &Message) -> Option<ErrorCode> {
    match message {
        Message::InitReply(reply) => Some(reply.code),
        Message::EndReply(reply) => Some(reply.code),
        Message::ProduceReply(reply) => Some(reply.code),
        Message::AddReply(reply) => Some(reply.code),
        Message::MarkerReply(reply) => Some(reply.code),
        Message::FetchReply(reply) => Some(reply.code),
        Message::JoinReply(reply) => Some(reply.code),
        Message::LeaveReply(reply) => Some(reply.code),
        Message::OffsetsReply(reply) => Some(reply.code),
        Message::OffsetFetchReply(reply) => Some(reply.code),
        _ => None,
    }
}

/// The code of the first reply among these messages, if one is a reply.
pub(crate) fn answer_in(messages: &[Message]) -> Option<ErrorCode> {
    for message in messages {
        if let Some(code) = code_of(message) {
            return Some(code);
        }
    }
    None
}

/// Whether a marker is among these messages.
pub(crate) fn has_marker(messages: &[Message]) -> bool {
    for message in messages {
        if matches!(message, Message::WriteMarker(_)) {
            return true;
        }
    }
    false
}
