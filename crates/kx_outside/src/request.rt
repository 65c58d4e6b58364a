//! A request that arrives from outside.
ghost use Rattle.std.specs.Prelude.{◌≡◌, IfOk, MatchOption};
ghost use Rattle.std.specs.Bool.{Decides};
ghost use Rattle.kx_model.specs.Open.{is_request};
ghost use Rattle.kx_outside.specs.Requests.{CanArrive, IsRequest, arrives};

use crate::ranges::request_fits;
use kx_message::Message;
use std::alloc::AllocError;
use std::marker::Model;

/// Whether a client may send the message (Kafka's protocol guide has the requests of clients).
pub fn is_request(message: &Message) -> bool
    ensures { result ≡ is_request message.now }
{
    match message {
        Message::InitProducerId(_)
        | Message::EndTxn(_)
        | Message::Produce(_)
        | Message::Fetch(_)
        | Message::Join(_)
        | Message::Leave(_)
        | Message::TxnOffsetCommit(_)
        | Message::OffsetFetch(_) => true,
        Message::InitReply(_)
        | Message::EndReply(_)
        | Message::ProduceReply(_)
        | Message::AddPartition(_)
        | Message::AddReply(_)
        | Message::WriteMarker(_)
        | Message::MarkerReply(_)
        | Message::FetchReply(_)
        | Message::JoinReply(_)
        | Message::LeaveReply(_)
        | Message::OffsetsReply(_)
        | Message::OffsetFetchReply(_) => false,
    }
}

/// Whether the message can arrive from outside: a client may send it, and its frame is within the
/// limit.
pub fn can_arrive(message: &Message) -> bool
    ensures value { result ≡ arrives message.now }
    ensures decides { Decides result (CanArrive message.now) }
{
    is_request(message) && message.fits()
}

/// A request of a client that arrives from outside.
#[derive(Drop)]
pub struct OutsideRequest {
    message: Message,
}

impl Model for OutsideRequest {
    ghost use Rattle.kx_message.specs.declared.message.Message.{Message};
    ghost use Rattle.kx_outside.specs.Requests.{CanArrive};

    ghost Value = { Message };

    ghost view = { λ request. request.message };

    ghost invariant = { λ request. CanArrive request.message };
}

impl OutsideRequest {
    /// The message as a request from outside, none if it cannot arrive: if no client may
    /// send it, or no frame can bring it.
    pub fn new(message: Message) -> Option<OutsideRequest>
        ensures { MatchOption result (CanArrive message → ⊥)
            (λ request. (request ≡ message) × CanArrive message) }
    {
        if !can_arrive(&message) {
            return None;
        }
        Some(OutsideRequest { message })
    }

    /// A copy of the message, each of whose fields is in its range.
    ///
    /// # Errors
    ///
    /// Only if memory runs out.
    pub fn message(&self) -> Result<Message, AllocError>
        ensures { IfOk result (λ message. message ≡ self.now) }
    {
        self.message.clone()
    }

    /// The message is a request with each of its fields in its range, and can arrive. This does
    /// nothing when it runs.
    pub fn fits(&self)
        ensures arrives { CanArrive self.now }
        ensures request { IsRequest self.now }
    {
        request_fits(&self.message);
    }
}
