//! What a client makes of a reply (KIP-98, KIP-447; Kafka's error codes).
ghost use Rattle.std.specs.Prelude.{◌≡◌, false, option_map};
ghost use Rattle.kx_client.specs.Internal.{is_done, meant, without};
ghost use Rattle.kx_model.specs.Replies.{holding, is_awaited, learns, meaning, placed_in};
ghost use Rattle.kx_model.specs.Replies.{offset_meaning, offsets_meaning, take_reply};

use crate::client::{Place, ProducerClient};
use kx_message::{ErrorCode, Held, JoinReply, Message, NodeId};

// What the code of a reply means.
#[derive(Clone, Copy, Debug, PartialEq, Eq)]
pub(crate) enum Meaning {
    // The request is answered.
    Done,
    // The request waits on, to be sent again.
    Waits,
    // The transaction has to be aborted.
    Aborts,
    // The client has failed for good.
    Fails,
}

// What a code means.
fn meaning_of(code: ErrorCode) -> Meaning
    ensures { meant result ≡ meaning code }
{
    match code {
        ErrorCode::NoError => Meaning::Done,
        ErrorCode::OutOfOrderSequenceNumber
        | ErrorCode::ConcurrentTransactions
        | ErrorCode::KafkaStorageError => Meaning::Waits,
        _ => Meaning::Fails,
    }
}

// The same of an answer to offsets.
fn offsets_meaning(code: ErrorCode) -> Meaning
    ensures { meant result ≡ offsets_meaning code }
{
    match code {
        ErrorCode::UnknownMemberId | ErrorCode::IllegalGeneration => Meaning::Aborts,
        other => meaning_of(other),
    }
}

// The same of an answer to a fetch of an offset: that the group has a commit of it pending is an
// answer too.
fn offset_meaning(code: ErrorCode) -> Meaning
    ensures { meant result ≡ offset_meaning code }
{
    match code {
        ErrorCode::UnstableOffsetCommit => Meaning::Done,
        other => meaning_of(other),
    }
}

impl ProducerClient {
    /// Whether a message that comes is a reply to this client, and a request of its kind and number
    /// waits. No other message changes anything.
    pub fn awaits(&self, reply: &Message) -> bool
        ensures { result ≡ is_awaited self.now reply.now }
    {
        reply.receiver() == NodeId::Client(self.number) && self.waiting.awaits(reply)
    }

    // What a code alone changes; whether the request is answered, so that the reply says more.
    fn learn(&mut self, meaning: Meaning, reply: &Message) -> bool
        ensures state { self.new ≡ learns (meant meaning) self.old (without self.old reply.now)
            (without self.old reply.now) }
        ensures done { result ≡ is_done meaning }
    {
        if meaning == Meaning::Waits {
            return false;
        }
        self.waiting.settle(reply);
        match meaning {
            Meaning::Aborts => self.must_abort = true,
            Meaning::Fails => self.failed = true,
            Meaning::Done | Meaning::Waits => {}
        }
        meaning == Meaning::Done
    }

    // Holds the id and epoch that it was handed, if any: its sequences begin at 0 then.
    fn hold(&mut self, held: Option<Held>)
        ensures { self.new ≡ holding self.old held }
    {
        if held.is_some() {
            self.held = held;
            self.sequences.clear();
        }
    }

    // The transaction has ended, and the client goes on with this id and epoch, if it was handed
    // any (KIP-890).
    fn end(&mut self, held: Option<Held>)
        ensures { self.new ≡ record (holding self.old held) {
          in_transaction = false;
          must_abort = false;
        } }
    {
        self.hold(held);
        self.in_transaction = false;
        self.must_abort = false;
    }

    // A join was answered 0: the client has this place in its group.
    fn settle_in(&mut self, joined: &JoinReply)
        ensures { self.new ≡ record self.old {
          place = option_map (placed_in joined.now.generation joined.now.place joined.now.count)
              self.old.group;
        } }
    {
        let JoinReply {
            generation,
            place,
            count,
            ..
        } = *joined;
        self.place = self.group.map(|group| Place {
            group,
            generation,
            number: place,
            count,
        });
    }

    /// Takes a message that has come, and asks for no memory. It changes something only if it is
    /// a reply to this client and a request of its kind and number waits.
    ///
    /// [`NoError`](ErrorCode::NoError) answers the request, and what the reply says counts.
    /// [`OutOfOrderSequenceNumber`](ErrorCode::OutOfOrderSequenceNumber),
    /// [`ConcurrentTransactions`](ErrorCode::ConcurrentTransactions) and
    /// [`KafkaStorageError`](ErrorCode::KafkaStorageError) leave it waiting, to be sent again.
    /// [`UnknownMemberId`](ErrorCode::UnknownMemberId) and
    /// [`IllegalGeneration`](ErrorCode::IllegalGeneration) on offsets answer it, and the
    /// transaction has to be aborted. [`UnstableOffsetCommit`](ErrorCode::UnstableOffsetCommit) on
    /// a fetch of an offset answers it, and says no offset. After any other code the client has
    /// failed for good.
    #[tactic(auto, unfolding(kx_model::specs::Replies::take_reply))]
    pub fn take(&mut self, reply: &Message)
        ensures { self.new ≡ take_reply self.old reply.now }
    {
        if !self.awaits(reply) {
            return;
        }
        match reply {
            Message::InitReply(it) => {
                if self.learn(meaning_of(it.code), reply) {
                    self.hold(it.held);
                }
            }
            Message::EndReply(it) => {
                if self.learn(meaning_of(it.code), reply) {
                    self.end(it.held);
                }
            }
            Message::ProduceReply(it) => {
                self.learn(meaning_of(it.code), reply);
            }
            Message::JoinReply(it) => {
                if self.learn(meaning_of(it.code), reply) {
                    self.settle_in(it);
                }
            }
            Message::LeaveReply(it) => {
                self.learn(meaning_of(it.code), reply);
            }
            Message::OffsetsReply(it) => {
                self.learn(offsets_meaning(it.code), reply);
            }
            Message::FetchReply(it) => {
                self.learn(meaning_of(it.code), reply);
            }
            Message::OffsetFetchReply(it) => {
                self.learn(offset_meaning(it.code), reply);
            }
            _ => {}
        }
    }
}
