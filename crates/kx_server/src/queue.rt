//! The messages that wait to be written to a connection.
ghost use Rattle.std.specs.Prelude.{◌≡◌, ◌++◌, ◌∷◌, [], ◌↔◌, ◌≤◌, IsTrue, MatchBool, MatchOption};
ghost use Rattle.std.specs.Prelude.{◌<◌, ◌+◌};
ghost use Rattle.kx_message.specs.Sizes.{FitsFrame, longest_frame};
ghost use Rattle.kx_server.specs.Queues.{frame_len, frames_len, most_waiting};

use kx_message::{LONGEST_FRAME, Message, fields_len};
use std::alloc::Global;
use std::collections::VecDeque;
use std::marker::Model;

/// The most bytes that the frames of the messages have which wait for one connection: two of the
/// longest.
pub const MOST_WAITING: usize = 2 * (LONGEST_FRAME + 4);

/// Messages in the order in which they are written, whose frames have at most [`MOST_WAITING`]
/// bytes in all.
#[derive(Drop)]
pub struct Queue {
    messages: VecDeque<Message>,
    bytes: usize,
}

impl Model for Queue {
    ghost use Rattle.std.specs.Prelude.{List};
    ghost use Rattle.kx_message.specs.declared.message.Message.{Message};

    ghost Value = { List Message };

    ghost use Rattle.kx_server.specs.Queues.{IsBounded};

    ghost view = { λ q. q.messages.items };

    ghost invariant = { λ q. IsBounded q.messages.items q.bytes };
}

// How many bytes the frame of a message has that one holds.
fn len_of(message: &Message) -> usize
    requires { FitsFrame message.now }
    ensures value { result ≡ frame_len message.now }
    ensures within { result < longest_frame + 5 }
{
    fields_len(message) + 5
}

impl Queue {
    /// A queue without messages.
    pub fn new(alloc: Global) -> Queue
        ensures { result ≡ [] }
    {
        Queue {
            messages: VecDeque::new(alloc),
            bytes: 0,
        }
    }

    /// How many bytes the frames of its messages have in all.
    pub fn bytes(&self) -> usize
        ensures value { result ≡ frames_len self.now }
        ensures bound { result ≤ most_waiting }
    {
        self.bytes
    }

    /// Whether no message waits.
    pub fn is_empty(&self) -> bool
        ensures { IsTrue result ↔ (self.now ≡ []) }
    {
        self.messages.is_empty()
    }

    /// Puts a message after the others, and says whether it did. It doesn't if the message is
    /// longer than a frame, if more than [`MOST_WAITING`] bytes would wait, and if memory
    /// runs out; then the message is dropped.
    pub fn push(&mut self, message: Message) -> bool
        ensures { MatchBool result (self.new ≡ self.old ++ message ∷ []) (self.new ≡ self.old) }
    {
        if !message.fits() {
            return false;
        }
        let len = len_of(&message);
        if len > MOST_WAITING - self.bytes {
            return false;
        }
        if self.messages.push_back(message).is_err() {
            return false;
        }
        self.bytes += len;
        true
    }

    /// Takes the first message out.
    pub fn pop(&mut self) -> Option<Message>
        ensures { MatchOption result ((self.new ≡ []) × (self.old ≡ []))
            (λ message. self.old ≡ message ∷ self.new) }
    {
        let message = self.messages.pop_front()?;
        self.bytes -= len_of(&message);
        Some(message)
    }
}
