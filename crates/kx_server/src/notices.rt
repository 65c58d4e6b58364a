//! The notices for whoever runs the server. Threads put them in and never wait; one thread of its own
//! writes their lines to standard error, as fast as whoever reads there takes them.
ghost use Rattle.std.specs.Prelude.{◌≡◌, ◌+◌, ◌++◌, ◌∷◌, [], MatchBool, min, true};
ghost use Rattle.kx_notices.specs.Rates.{most_counted};

use crate::peer::Peer;
use crate::ticking::{millis_since, moment};
use kx_notices::{Closing, Notice, Rate, Said, Shortage, TopicRefusal, Unserved, line_of};
use std::alloc::{AllocError, Global};
use std::collections::VecDeque;
use std::mem;
use std::sync::{Condvar, Mutex, Wait};
use std::time::{Clock, Duration, Instant};

// How many notices wait for their lines at most.
const MOST_WAITING: usize = 1024;

// After how long lines that were left out are told, if nothing else is.
const TOLD_MILLIS: u64 = 1000;

// How long the end of a server waits for the last lines.
const LAST_MILLIS: u64 = 2000;

// A notice, and when it was, in milliseconds since 1970.
#[derive(Drop)]
struct Noticed {
    time: u64,
    notice: Notice,
}

// Which notices are taken in.
#[derive(Clone, Copy, PartialEq, Eq)]
enum Taken {
    // No notice is taken in, since the server hasn't begun or has ended.
    None,
    // Only notices of what the server has no more of are taken in.
    Shortages,
    // All notices are taken in.
    All,
}

// The notices that wait for their lines.
#[derive(Drop)]
struct Waiting {
    notices: VecDeque<Noticed>,
    // how many are lost since the last was taken
    lost: u64,
    // which are taken in
    taken: Taken,
    // whether their lines are written
    is_written: bool,
}

impl Waiting {
    // One notice is lost.
    fn lose(&mut self)
        ensures lost { self.new.lost ≡ min (self.old.lost + 1) most_counted }
        ensures kept { self.new.notices.items ≡ self.old.notices.items }
    {
        self.lost = self.lost.saturating_add(1);
    }

    // Takes a notice in, and says whether it did; else it is lost, and counted.
    fn put(&mut self, noticed: Noticed) -> bool
        ensures { MatchBool result
            ((self.new.notices.items ≡ self.old.notices.items ++ noticed ∷ [])
            × (self.new.lost ≡ self.old.lost))
            ((self.new.notices.items ≡ self.old.notices.items)
            × (self.new.lost ≡ min (self.old.lost + 1) most_counted)) }
    {
        if self.notices.len() >= MOST_WAITING {
            self.lose();
            return false;
        }
        if self.notices.push_back(noticed).is_err() {
            self.lose();
            return false;
        }
        true
    }

    // Whether there is nothing to write.
    fn is_idle(&self) -> bool {
        self.notices.is_empty() && self.lost == 0
    }
}

// What is to be written next.
#[derive(Drop)]
struct Next {
    noticed: Option<Noticed>,
    // how many were lost before it
    lost: u64,
}

/// The notices for whoever runs a server, which are taken in while somebody writes their lines.
#[derive(Drop)]
pub struct Notices {
    alloc: Global,
    waiting: Mutex<Waiting>,
    moved: Condvar,
}

impl Notices {
    /// No notice is taken in yet.
    pub(crate) fn new(alloc: Global) -> Notices {
        Notices {
            alloc,
            waiting: Mutex::new(Waiting {
                notices: VecDeque::new(alloc),
                lost: 0,
                taken: Taken::None,
                is_written: false,
            }),
            moved: Condvar::new(),
        }
    }

    /// From now on notices are taken in, until [`end`](Notices::end): all of them, or only those of
    /// what the server has no more of.
    pub(crate) fn open<R: Wait>(&self, rt: &R, tells_all: bool) {
        self.waiting.lock(rt).taken = if tells_all {
            Taken::All
        } else {
            Taken::Shortages
        };
    }

    // Whether all notices are taken in.
    fn takes_all<R: Wait>(&self, rt: &R) -> bool {
        self.waiting.lock(rt).taken == Taken::All
    }

    // Puts a notice in, unless none are taken in. One for which there is no memory is lost.
    fn put<R: Wait + Clock>(&self, rt: &R, notice: Result<Notice, AllocError>) {
        let time = moment(rt).unwrap_or(0);
        let mut waiting = self.waiting.lock(rt);
        if waiting.taken == Taken::None {
            return;
        }
        match notice {
            Ok(notice) => {
                let _ = waiting.put(Noticed { time, notice });
            }
            Err(_) => waiting.lose(),
        }
        self.moved.notify_all();
    }

    // The notice of a connection that is served from now on.
    fn opening(&self, peer: &Peer) -> Result<Notice, AllocError> {
        Ok(Notice::Opened {
            connection: peer.number() as u64,
            from: Said::of(self.alloc, peer.address(self.alloc)?.as_bytes())?,
        })
    }

    /// The server has no more of something. This is taken in even if other notices aren't.
    pub fn ran_out<R: Wait + Clock>(&self, rt: &R, what: Shortage) {
        self.put(rt, Ok(Notice::RanOut { what }));
    }

    /// A connection is served from now on.
    pub(crate) fn opened<R: Wait + Clock>(&self, rt: &R, peer: &Peer) {
        if self.takes_all(rt) {
            self.put(rt, self.opening(peer));
        }
    }

    /// The connection of this number closes.
    pub(crate) fn closed<R: Wait + Clock>(&self, rt: &R, number: usize, why: Closing) {
        if self.takes_all(rt) {
            let connection = number as u64;
            self.put(rt, Ok(Notice::Closed { connection, why }));
        }
    }

    // The notice of a client that asks for what isn't served.
    fn refusal(&self, number: usize, client: &[u8], asked: Unserved) -> Result<Notice, AllocError> {
        Ok(Notice::NotServed {
            connection: number as u64,
            client: Said::of(self.alloc, client)?,
            asked,
        })
    }

    /// A client of the connection of this number, which gives itself a name, asks for what isn't
    /// served.
    pub fn not_served<R: Wait + Clock>(
        &self,
        rt: &R,
        number: usize,
        client: &[u8],
        asked: Unserved,
    ) {
        if self.takes_all(rt) {
            self.put(rt, self.refusal(number, client, asked));
        }
    }

    // The notice of a topic that is made or not.
    fn topic(&self, name: &[u8], made: Result<u16, TopicRefusal>) -> Result<Notice, AllocError> {
        let topic = Said::of(self.alloc, name)?;
        Ok(match made {
            Ok(partitions) => Notice::TopicMade { topic, partitions },
            Err(why) => Notice::TopicNotMade { topic, why },
        })
    }

    /// A client asked for a topic of this name: how many partitions it was made with, or why it wasn't
    /// made.
    pub fn topic_asked<R: Wait + Clock>(
        &self,
        rt: &R,
        name: &[u8],
        made: Result<u16, TopicRefusal>,
    ) {
        if self.takes_all(rt) {
            self.put(rt, self.topic(name, made));
        }
    }

    // Waits for what is to be written next. If lines that were left out are to be told, it is nothing
    // once that is due. None once no more come.
    fn next<R: Wait + Clock>(&self, rt: &R, owes: bool) -> Option<Next> {
        let mut waiting = if owes {
            let due = Duration::from_millis(TOLD_MILLIS);
            let (waiting, _) = self
                .moved
                .wait_timeout_while(rt, self.waiting.lock(rt), due, |it| it.is_idle());
            waiting
        } else {
            self.moved.wait_while(rt, self.waiting.lock(rt), |it| {
                it.taken != Taken::None && it.is_idle()
            })
        };
        if !owes && waiting.is_idle() {
            return None;
        }
        Some(Next {
            noticed: waiting.notices.pop_front(),
            lost: mem::replace(&mut waiting.lost, 0),
        })
    }

    /// All lines are written, or none can be.
    pub(crate) fn finish<R: Wait>(&self, rt: &R) {
        self.waiting.lock(rt).is_written = true;
        self.moved.notify_all();
    }

    /// Takes no more notices in, and waits until the lines of those that wait are written, but not for
    /// long: nobody may read them.
    pub(crate) fn end<R: Wait + Clock>(&self, rt: &R) {
        let mut waiting = self.waiting.lock(rt);
        if waiting.taken == Taken::None {
            return;
        }
        waiting.taken = Taken::None;
        self.moved.notify_all();
        let patience = Duration::from_millis(LAST_MILLIS);
        let _ = self
            .moved
            .wait_timeout_while(rt, waiting, patience, |it| !it.is_written);
    }
}

// Writes the line of a notice. Nobody may read it.
fn write_line<R: Eprint>(rt: &R, alloc: Global, time: u64, notice: &Notice) {
    let Ok(line) = line_of(alloc, time, notice) else {
        return;
    };
    if let Ok(text) = str::from_utf8(line.as_slice()) {
        let _ = eprint!(rt; "{text}");
    }
}

// Writes the next notice, if this second has room for its line, and before it how many lines were
// left out.
fn write_next<R: Eprint + Clock>(rt: &R, alloc: Global, rate: &mut Rate, now: u64, next: Next) {
    let lines = rate.turn(now);
    if lines != 0 {
        let time = moment(rt).unwrap_or(0);
        write_line(rt, alloc, time, &Notice::LeftOut { lines });
    }
    rate.lose(next.lost);
    if let Some(Noticed { time, notice }) = next.noticed {
        if rate.admit() {
            write_line(rt, alloc, time, &notice);
        }
    }
}

/// Writes the lines of notices to standard error until no more come.
pub(crate) fn write_notices<R: Eprint + Wait + Clock>(rt: &R, alloc: Global, notices: &Notices) {
    let begun = Instant::now(rt).ok();
    let mut rate = Rate::new();
    for _ in rt.forever() {
        let Some(next) = notices.next(rt, rate.owes()) else {
            break;
        };
        let now = millis_since(rt, &begun);
        write_next(rt, alloc, &mut rate, now, next);
    }
    notices.finish(rt);
}
