//! The clock of a server: nodes whose stores failed are opened again, logs that readers don't see
//! yet are published, markers that weren't answered are sent again, and where the server is asked
//! to, transactions that have lasted too long are ended, and members of groups that are silent for
//! too long are dropped.
ghost use Rattle.std.specs.Prelude.{◌≡◌, ◌/◌, min};
ghost use Rattle.core.specs.Duration.{as_nanos};
ghost use Rattle.kx_server.specs.Ticking.{told_next};

use crate::hub::Hub;
use crate::options::ServerOptions;
use kx_message::Timeout;
use kx_published::book::Naming;
use kx_publishing::Readable;
use std::sync::{Condvar, Mutex, Wait};
use std::time::{Clock, Duration, Instant};

// How long a tick lasts.
const TICK_SECONDS: u64 = 1;

// How many transactions are ended at most in one tick.
const MOST_ENDED: usize = 1024;

/// Whether a server goes on.
#[derive(Drop)]
pub(crate) struct Going {
    has_ended: Mutex<bool>,
    moved: Condvar,
}

impl Going {
    /// A server that goes on.
    pub(crate) fn new() -> Going {
        Going {
            has_ended: Mutex::new(false),
            moved: Condvar::new(),
        }
    }

    /// From now on it doesn't, and whoever waits is woken.
    pub(crate) fn end<R: Wait>(&self, rt: &R) {
        *self.has_ended.lock(rt) = true;
        self.moved.notify_all();
    }

    // Waits for the next tick, and says whether the server has ended meanwhile.
    fn waits<R: Wait + Clock>(&self, rt: &R) -> bool {
        let tick = Duration::from_secs(TICK_SECONDS);
        let (has_ended, _) = self
            .moved
            .wait_timeout_while(rt, self.has_ended.lock(rt), tick, |has_ended| !*has_ended);
        *has_ended
    }
}

// The milliseconds of a time, 2^64 - 1 if they are more.
fn millis_of(time: Duration) -> u64
    ensures { result ≡ min (as_nanos time / 1_000_000) u64.MAX }
{
    match u64::try_from(time.as_millis()) {
        Ok(millis) => millis,
        Err(_) => u64::MAX,
    }
}

// What the coordinator is told of the time, in milliseconds since 1970, when it was told a time, so
// many have passed since, and the clock on the wall shows one: a clock that is put back holds up no
// transaction, and one that goes ahead is followed.
fn told_next(told: u64, passed: u64, wall: u64) -> u64
    ensures { result ≡ told_next told passed wall }
{
    told.saturating_add(passed).max(wall)
}

// The milliseconds that have passed between two moments, none if one of them isn't known.
fn passed_between(earlier: &Option<Instant>, later: &Option<Instant>) -> u64 {
    match (earlier, later) {
        (Some(earlier), Some(later)) => millis_of(later.duration_since(*earlier)),
        _ => 0,
    }
}

/// The time, in milliseconds since 1970. None if the clock can't be read.
pub fn moment<R: Clock>(rt: &R) -> Option<u64> {
    Some(millis_of(rt.since_1970().ok()?))
}

/// The milliseconds that have passed since a moment, none if the clock can't be read.
pub(crate) fn millis_since<R: Clock>(rt: &R, begun: &Option<Instant>) -> u64 {
    passed_between(begun, &Instant::now(rt).ok())
}

// What a tick does at this time, in milliseconds since 1970.
fn tick<L: Readable, J: Naming, R: Wait + Drop>(
    rt: &R,
    hub: &Hub<L, J, R>,
    expires: bool,
    now: u64,
) {
    hub.tend(rt, now);
    if expires {
        for _ in 0..MOST_ENDED {
            if !hub.expire(rt, now) {
                break;
            }
        }
    }
    hub.remind(rt);
}

// Drops members of groups that were silent for too long, if the server does so at all.
fn drop_silent<L: Readable, J: Naming, R: Wait + Drop>(
    rt: &R,
    hub: &Hub<L, J, R>,
    limit: &Option<Timeout>,
    passed: u64,
) {
    if let Some(limit) = limit {
        hub.drop_silent(rt, passed, u64::from(limit.get()));
    }
}

/// Ticks until the server has ended. Transactions that have lasted too long are ended, and members
/// of groups that are silent for too long dropped, only if the server is asked to.
pub(crate) fn keep_time<L: Readable, J: Naming, R: Wait + Clock + Drop>(
    rt: &R,
    hub: &Hub<L, J, R>,
    going: &Going,
    options: &ServerOptions,
) {
    let mut told = options.since;
    let mut last = Instant::now(rt).ok();
    for _ in rt.forever() {
        let now = Instant::now(rt).ok();
        let passed = passed_between(&last, &now);
        told = told_next(told, passed, moment(rt).unwrap_or(0));
        last = now;
        tick(rt, hub, options.expires, told);
        drop_silent(rt, hub, &options.session_timeout, passed);
        if going.waits(rt) {
            break;
        }
    }
}
