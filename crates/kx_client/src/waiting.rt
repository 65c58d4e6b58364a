//! The requests of a client that wait for their replies.
//!
//! The end of a transaction, a join and a leave that wait are looked for among all that waits: no
//! more than five batches for each of 17 partitions, and a few requests.
ghost use Rattle.std.specs.Prelude.{◌≡◌, ◌+◌, ◌<◌, ◌≤◌, ◌^◌, ◌++◌, [], ◌∷◌, ℕ, true, false, not};
ghost use Rattle.std.specs.Prelude.{length, filter, take, drop, nat_lt, nat_le, count_by};
ghost use Rattle.std.specs.Prelude.{OnErr, OnOk, IfOk, MatchOption};
ghost use Rattle.std.specs.List.{list_any};
ghost use Rattle.kx_message.specs.declared.message.Message.TheVariants as msg;
ghost use Rattle.kx_client.specs.Internal.{IsAwaitedAt, IsUnawaited};
ghost use Rattle.kx_model.specs.Client.{carries_to, is_end, is_init, is_of_group, window};
ghost use Rattle.kx_model.specs.Replies.{correlation_of, is_answer_to};

use crate::windows::Windows;
use kx_message::{InitProducerId, Message, PartitionId, kind};
use std::alloc::{AllocError, Global};
use std::marker::Model;

// Whether it ends a transaction.
fn is_end(message: &Message) -> bool
    ensures { result ≡ is_end message.now }
{
    matches!(message, Message::EndTxn(_))
}

// Whether it joins or leaves a group.
fn is_of_group(message: &Message) -> bool
    ensures { result ≡ is_of_group message.now }
{
    matches!(message, Message::Join(_) | Message::Leave(_))
}

// The number of the request, which its reply repeats; 0 between nodes.
fn correlation(message: &Message) -> u32
    ensures { result ≡ correlation_of message.now }
{
    match message {
        Message::InitProducerId(it) => it.caller.correlation,
        Message::InitReply(it) => it.caller.correlation,
        Message::EndTxn(it) => it.caller.correlation,
        Message::EndReply(it) => it.caller.correlation,
        Message::Produce(it) => it.caller.correlation,
        Message::ProduceReply(it) => it.caller.correlation,
        Message::Fetch(it) => it.caller.correlation,
        Message::FetchReply(it) => it.caller.correlation,
        Message::Join(it) => it.caller.correlation,
        Message::JoinReply(it) => it.caller.correlation,
        Message::Leave(it) => it.caller.correlation,
        Message::LeaveReply(it) => it.caller.correlation,
        Message::TxnOffsetCommit(it) => it.caller.correlation,
        Message::OffsetsReply(it) => it.caller.correlation,
        Message::OffsetFetch(it) => it.caller.correlation,
        Message::OffsetFetchReply(it) => it.caller.correlation,
        Message::AddPartition(_)
        | Message::AddReply(_)
        | Message::WriteMarker(_)
        | Message::MarkerReply(_) => 0,
    }
}

// Whether the reply answers the request: the kind of a reply is the one after its request's.
fn is_answer_to(reply: &Message, request: &Message) -> bool
    ensures { result ≡ is_answer_to reply.now request.now }
{
    kind(reply) == kind(request) + 1 && correlation(reply) == correlation(request)
}

/// The unanswered requests of a client, in the order of first sending, which is that of their
/// numbers.
#[derive(Drop)]
pub(crate) struct Waiting {
    requests: Vec<Message>,
    // the number of the next request, 2^32 once none is left
    next: u64,
    windows: Windows,
}

impl Model for Waiting {
    ghost use Rattle.std.specs.Prelude.{◌-◌, ◌≤◌, ◌^◌, nat_lt, vec_capacity, vec_len};
    ghost use Rattle.kx_client.specs.Internal.{AreCounted, AreNumbered, HasOneInit, Unanswered};

    ghost Value = { Unanswered };

    ghost view = { λ w. record {
      messages = w.requests.items;
      next = w.next;
      has_room = nat_lt 0 (vec_capacity w.requests - vec_len w.requests);
    } };

    ghost invariant = { λ w. HasOneInit w.requests.items × AreNumbered 0 w.requests.items w.next
        × AreCounted w.windows w.requests.items };
}

impl Waiting {
    /// A table in which no request waits; the next request is number 0.
    pub(crate) fn new(alloc: Global) -> Waiting
        ensures messages { result.messages ≡ [] }
        ensures next { result.next ≡ 0 }
    {
        Waiting {
            requests: Vec::new(alloc),
            next: 0,
            windows: Windows::new(),
        }
    }

    /// The number of the next request, 2^32 once none is left.
    pub(crate) fn next(&self) -> u64
        ensures { result ≡ self.now.next }
    {
        self.next
    }

    /// Whether nothing waits.
    pub(crate) fn is_empty(&self) -> bool
        ensures { result ≡ not (nat_lt 0 (length self.now.messages)) }
    {
        self.requests.is_empty()
    }

    /// The request for an id that waits.
    pub(crate) fn init(&self) -> Option<InitProducerId>
        ensures { MatchOption result (list_any is_init self.now.messages ≡ false)
            (λ init. (list_any is_init self.now.messages ≡ true)
            × (filter is_init self.now.messages ≡ msg.InitProducerId init ∷ [])) }
    {
        for request in &self.requests {
            if let Message::InitProducerId(init) = request {
                return Some(*init);
            }
        }
        None
    }

    /// Whether the end of a transaction waits.
    pub(crate) fn is_ending(&self) -> bool
        ensures { result ≡ list_any is_end self.now.messages }
    {
        self.requests.iter().any(|request| is_end(request))
    }

    /// Whether a request to join or to leave a group waits.
    pub(crate) fn has_of_group(&self) -> bool
        ensures { result ≡ list_any is_of_group self.now.messages }
    {
        self.requests.iter().any(|request| is_of_group(request))
    }

    /// Whether a partition has as many unanswered batches as it may have.
    pub(crate) fn is_window_full(&self, partition: PartitionId) -> bool
        ensures { result ≡ nat_le window (count_by (carries_to partition) self.now.messages) }
    {
        self.windows.is_full(partition)
    }

    // The place of the request that the reply answers, if it waits.
    fn place_of(&self, reply: &Message) -> Option<usize>
        ensures { MatchOption result (IsUnawaited reply.now self.now.messages)
            (λ place. IsAwaitedAt reply.now self.now.messages place) }
    {
        let number = correlation(reply);
        let place = self
            .requests
            .partition_point(|request| correlation(request) < number);
        let Some(request) = self.requests.get(place) else {
            return None;
        };
        if is_answer_to(reply, request) {
            Some(place)
        } else {
            None
        }
    }

    /// Whether a request waits that the reply answers.
    pub(crate) fn awaits(&self, reply: &Message) -> bool
        ensures { result ≡ list_any (is_answer_to reply.now) self.now.messages }
    {
        self.place_of(reply).is_some()
    }

    /// Makes room for one more.
    pub(crate) fn reserve(&mut self) -> Result<(), AllocError>
        ensures same { self.new.messages ≡ self.old.messages }
        ensures next { self.new.next ≡ self.old.next }
        ensures room { OnOk result (self.new.has_room ≡ true) }
    {
        self.requests.reserve(1)
    }

    /// The next request waits. A request for an id waits alone of its kind.
    pub(crate) fn push(&mut self, request: Message)
        requires room { self.old.has_room ≡ true }
        requires left { self.old.next < 2 ^ 32 }
        requires number { correlation_of request ≡ self.old.next }
        requires one { is_init request ≡ true → list_any is_init self.old.messages ≡ false }
        requires window { (p : ℕ) → carries_to p request ≡ true
            → nat_le window (count_by (carries_to p) self.old.messages) ≡ false }
        ensures messages { self.new.messages ≡ self.old.messages ++ request ∷ [] }
        ensures next { self.new.next ≡ self.old.next + 1 }
    {
        self.windows.note(&request);
        self.requests.push_reserved(request);
        self.next += 1;
    }

    /// Drops all requests that wait. Room that there is stays.
    pub(crate) fn clear(&mut self)
        ensures messages { self.new.messages ≡ [] }
        ensures next { self.new.next ≡ self.old.next }
        ensures room { self.old.has_room ≡ true → self.new.has_room ≡ true }
    {
        self.requests.clear();
        self.windows = Windows::new();
    }

    // The request at this place waits no more.
    fn take_out(&mut self, place: usize)
        requires { place < length self.old.messages }
        ensures messages { self.new.messages
            ≡ take place self.old.messages ++ drop (place + 1) self.old.messages }
        ensures next { self.new.next ≡ self.old.next }
    {
        self.windows.forget(&self.requests[place]);
        drop(self.requests.remove(place));
    }

    /// What the reply answers waits no more.
    pub(crate) fn settle(&mut self, reply: &Message)
        ensures messages { self.new.messages
            ≡ filter (λ m. not (is_answer_to reply.now m)) self.old.messages }
        ensures next { self.new.next ≡ self.old.next }
    {
        if let Some(place) = self.place_of(reply) {
            self.take_out(place);
        }
    }

    /// No partition has more unanswered batches than it may have.
    pub(crate) fn windows_hold(&self)
        ensures { (p : ℕ) → count_by (carries_to p) self.now.messages ≤ window }
    {
        // They count each partition's unanswered batches, and none is above the limit.
        let _windows = &self.windows;
    }

    /// A copy of each, in order.
    ///
    /// # Errors
    ///
    /// Only if memory is refused, which is asked for only if a request waits.
    pub(crate) fn copies(&self, alloc: Global) -> Result<Vec<Message>, AllocError>
        ensures ok { IfOk result (λ copies. copies.items ≡ self.now.messages) }
        ensures err { OnErr result (0 < length self.now.messages) }
    {
        if self.requests.is_empty() {
            return Ok(Vec::new(alloc));
        }
        let mut copies = Vec::with_capacity(alloc, self.requests.len())?;
        for request in &self.requests {
            copies.push(request.clone()?)?;
        }
        Ok(copies)
    }
}
