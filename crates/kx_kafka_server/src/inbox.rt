//! The requests that wait to be taken, of one connection.
use std::alloc::Global;
use std::collections::VecDeque;
use std::sync::{Condvar, Mutex, Wait};
use std::time::{Clock, Duration, Instant};

// While as many bytes as these wait, nothing is read from the connection.
const MUCH_WAITS: usize = 65_536;

#[derive(Drop)]
struct Waiting {
    requests: VecDeque<Vec<u8>>,
    bytes: usize,
    is_open: bool,
    // whether one that was taken is being answered
    is_answering: bool,
    // when a request was last put in or answered, if the system says
    moved: Option<Instant>,
}

/// The texts of the requests of a connection that wait to be taken.
#[derive(Drop)]
pub(crate) struct Inbox {
    waiting: Mutex<Waiting>,
    moved: Condvar,
}

impl Inbox {
    /// An inbox without requests, which takes some.
    pub(crate) fn new(alloc: Global) -> Inbox {
        Inbox {
            waiting: Mutex::new(Waiting {
                requests: VecDeque::new(alloc),
                bytes: 0,
                is_open: true,
                is_answering: false,
                moved: None,
            }),
            moved: Condvar::new(),
        }
    }

    /// Waits until few bytes wait, and puts a request after them. Says whether it did: not if the
    /// inbox is closed, or memory runs out.
    pub(crate) fn put<R: Wait + Clock>(&self, rt: &R, request: Vec<u8>) -> bool {
        let now = Instant::now(rt).ok();
        let mut waiting = self.moved.wait_while(rt, self.waiting.lock(rt), |waiting| {
            waiting.is_open && waiting.bytes >= MUCH_WAITS
        });
        if !waiting.is_open {
            return false;
        }
        let bytes = waiting.bytes.saturating_add(request.len());
        if waiting.requests.push_back(request).is_err() {
            return false;
        }
        waiting.bytes = bytes;
        waiting.moved = now;
        self.moved.notify_all();
        true
    }

    // Notes that the request that was taken last is answered.
    fn rest<R: Wait + Clock>(&self, rt: &R) {
        let now = Instant::now(rt).ok();
        let mut waiting = self.waiting.lock(rt);
        waiting.is_answering = false;
        waiting.moved = now;
    }

    /// Waits for a request, and takes the first: the one before was answered. None if none waits and
    /// the inbox is closed.
    pub(crate) fn next<R: Wait + Clock>(&self, rt: &R) -> Option<Vec<u8>> {
        self.rest(rt);
        let mut waiting = self.moved.wait_while(rt, self.waiting.lock(rt), |waiting| {
            waiting.is_open && waiting.requests.is_empty()
        });
        let request = waiting.requests.pop_front()?;
        waiting.bytes = waiting.bytes.saturating_sub(request.len());
        waiting.is_answering = true;
        self.moved.notify_all();
        Some(request)
    }

    /// How long no request was put in or answered. `None` if one waits or is being answered, or the
    /// system doesn't say.
    pub(crate) fn quiet<R: Wait + Clock>(&self, rt: &R) -> Option<Duration> {
        let waiting = self.waiting.lock(rt);
        if waiting.is_answering || !waiting.requests.is_empty() {
            return None;
        }
        waiting.moved?.elapsed(rt).ok()
    }

    /// Whether more requests may come.
    pub(crate) fn is_open<R: Wait>(&self, rt: &R) -> bool {
        self.waiting.lock(rt).is_open
    }

    /// Takes no more requests. Those that wait stay.
    pub(crate) fn close<R: Wait>(&self, rt: &R) {
        self.waiting.lock(rt).is_open = false;
        self.moved.notify_all();
    }
}
