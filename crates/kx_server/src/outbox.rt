//! What waits to be written to a connection, which threads share.
ghost use Rattle.std.specs.Prelude.{◌≡◌, ◌≢◌, ◌↔◌, ◌++◌, ◌∷◌, [], false, true};
ghost use Rattle.kx_server.specs.declared.outbox.Put.TheVariants as put;

use crate::queue::Queue;
use kx_message::Message;
use std::alloc::Global;
use std::sync::{Condvar, Mutex, Wait};
use std::time::{Clock, Duration};

// A connection is read on while fewer bytes than these wait for it.
const FEW_WAITING: usize = 65_536;

// The messages, and whether more are taken.
#[derive(Drop)]
struct Waiting {
    queue: Queue,
    is_open: bool,
}

/// What became of a message that was put in.
#[derive(Clone, Copy, Debug, PartialEq, Eq)]
pub(crate) enum Put {
    /// The message waits to be written.
    Taken,
    /// The message was dropped, since the outbox was closed before.
    Closed,
    /// The message was dropped, since [`Queue::push`] refused it, and the outbox was closed by
    /// this.
    Refused,
}

impl Waiting {
    // Takes a message in, while it is open.
    fn put(&mut self, message: Message) -> Put
        ensures taken { result ≡ put.Taken → (self.new.queue ≡ self.old.queue ++ message ∷ [])
            × (self.new.is_open ≡ true) }
        ensures dropped { result ≢ put.Taken → (self.new.queue ≡ self.old.queue)
            × (self.new.is_open ≡ false) }
        ensures closed { (result ≡ put.Closed) ↔ (self.old.is_open ≡ false) }
    {
        if !self.is_open {
            return Put::Closed;
        }
        if !self.queue.push(message) {
            self.is_open = false;
            return Put::Refused;
        }
        Put::Taken
    }
}

/// The messages that wait to be written to a connection. Whoever puts one in never waits for the
/// connection.
#[derive(Drop)]
pub(crate) struct Outbox {
    waiting: Mutex<Waiting>,
    moved: Condvar,
}

impl Outbox {
    /// An open outbox without messages.
    pub(crate) fn new(alloc: Global) -> Outbox {
        Outbox {
            waiting: Mutex::new(Waiting {
                queue: Queue::new(alloc),
                is_open: true,
            }),
            moved: Condvar::new(),
        }
    }

    /// Puts a message in, if it can be taken.
    pub(crate) fn put<R: Wait>(&self, rt: &R, message: Message) -> Put {
        let put = self.waiting.lock(rt).put(message);
        self.moved.notify_all();
        put
    }

    /// Waits for a message, and takes the first one out. None if none waits and the outbox is
    /// closed.
    pub(crate) fn next<R: Wait>(&self, rt: &R) -> Option<Message> {
        let mut waiting = self.moved.wait_while(rt, self.waiting.lock(rt), |waiting| {
            waiting.is_open && waiting.queue.is_empty()
        });
        let message = waiting.queue.pop();
        self.moved.notify_all();
        message
    }

    /// Waits for a message, at most this long, and takes the first one out. None if none waits
    /// by then.
    pub(crate) fn next_within<R: Wait + Clock>(
        &self,
        rt: &R,
        patience: Duration,
    ) -> Option<Message> {
        let (mut waiting, _) = self
            .moved
            .wait_timeout_while(rt, self.waiting.lock(rt), patience, |waiting| {
                waiting.is_open && waiting.queue.is_empty()
            });
        let message = waiting.queue.pop();
        self.moved.notify_all();
        message
    }

    /// Waits until few bytes wait or the outbox is closed, and says whether it is open.
    pub(crate) fn is_ready<R: Wait>(&self, rt: &R) -> bool {
        let waiting = self.moved.wait_while(rt, self.waiting.lock(rt), |waiting| {
            waiting.is_open && waiting.queue.bytes() >= FEW_WAITING
        });
        waiting.is_open
    }

    /// Closes it: no more messages are taken. Those that wait stay.
    pub(crate) fn close<R: Wait>(&self, rt: &R) {
        self.waiting.lock(rt).is_open = false;
        self.moved.notify_all();
    }
}
