//! A connection, as its two threads share it.
ghost use Rattle.std.specs.Prelude.{◌≡◌, ◌≤◌, ◌+◌, ◌↔◌, IfSome, IsNone};
ghost use Rattle.core.specs.Duration.{as_nanos};

use crate::inbox::Inbox;
use crate::protocol::Shared;
use kx_gateway::Broker;
use kx_kafka::{Frames, KafkaFault};
use kx_message::{Caller, ClientId};
use kx_notices::Closing;
use kx_server::{Peer, Waker};
use std::alloc::{AllocError, Global};
use std::io;
use std::io::ErrorKind;
use std::sync::{Arc, Mutex, Wait};
use std::time::{Clock, Duration};

// How many bytes are read at once.
const PIECE: usize = 65_536;

// Why a connection closes from which no more is read.
fn why_of(ended: &Result<Closing, KafkaFault>) -> Closing {
    match ended {
        Ok(why) => *why,
        Err(KafkaFault::Memory) => Closing::Unanswered,
        Err(_) => Closing::Frame,
    }
}

// How much longer a connection may ask for nothing that has done so for this long. None once its time
// is over.
fn patience_left(idle: Duration, quiet: Duration) -> Option<Duration>
    ensures over { IsNone result ↔ (as_nanos idle ≤ as_nanos quiet) }
    ensures left { IfSome result (λ left. as_nanos left + as_nanos quiet ≡ as_nanos idle) }
{
    let left = idle.checked_sub(quiet)?;
    if left.is_zero() { None } else { Some(left) }
}

// Whether a read ended since nothing came for as long as it waits.
fn is_timeout(error: &io::Error) -> bool {
    matches!(error.kind(), ErrorKind::WouldBlock | ErrorKind::TimedOut)
}

/// A connection: what is read from it waits in its inbox, and one thread takes each request when the
/// one before was answered, so that responses are in order.
#[derive(Drop)]
pub struct StockLink {
    pub(crate) shared: Arc<Shared>,
    pub(crate) peer: Arc<Peer>,
    pub(crate) inbox: Inbox,
    pub(crate) waker: Arc<Waker>,
    pub(crate) client: ClientId,
    // whether the connection is to end with the response that is being made
    ends: Mutex<bool>,
    // how many messages were sent to the core
    asked: Mutex<u32>,
}

impl StockLink {
    /// A connection that asks the core as this client.
    pub(crate) fn new(
        alloc: Global,
        shared: Arc<Shared>,
        peer: Arc<Peer>,
        client: ClientId,
    ) -> Result<StockLink, AllocError> {
        let waker = Waker::new(peer.number());
        let Ok(waker) = Arc::new(alloc, waker) else {
            return Err(AllocError);
        };
        Ok(StockLink {
            shared,
            peer,
            inbox: Inbox::new(alloc),
            waker,
            client,
            ends: Mutex::new(false),
            asked: Mutex::new(0),
        })
    }

    /// Who sends the next message to the core. None after 2^32 - 1 messages.
    pub(crate) fn next_caller<R: Wait>(&self, rt: &R) -> Option<Caller> {
        let mut asked = self.asked.lock(rt);
        *asked = asked.checked_add(1)?;
        Some(Caller {
            client: self.client,
            correlation: *asked,
        })
    }

    /// Has the connection end once the response to the request that is being answered is written.
    pub(crate) fn end<R: Wait>(&self, rt: &R) {
        *self.ends.lock(rt) = true;
    }

    /// Whether the connection is to end.
    pub(crate) fn has_ended<R: Wait>(&self, rt: &R) -> bool {
        *self.ends.lock(rt)
    }

    /// The broker, as the client is told it.
    pub(crate) fn broker(&self) -> Broker<'_> {
        self.shared.address.broker(self.peer.port())
    }

    // Puts the requests in whose frames are whole, and says whether more may come.
    fn put_all<R: Wait + Clock>(
        &self,
        rt: &R,
        alloc: Global,
        frames: &mut Frames,
    ) -> Result<bool, KafkaFault> {
        for _ in rt.forever() {
            let Some(text) = frames.front()? else {
                return Ok(true);
            };
            let request = Vec::from_slice(alloc, text)?;
            if !self.inbox.put(rt, request) {
                return Ok(false);
            }
            frames.pass();
        }
        Ok(false)
    }

    // Says whether a connection is kept after a read that timed out: if a request waits or is being
    // answered, or if one arrived or was answered less than the idle time ago.
    fn stays<R: Wait + Clock>(&self, rt: &R) -> bool {
        let Some(idle) = self.shared.idle else {
            return true;
        };
        let left = match self.inbox.quiet(rt) {
            None => Some(idle),
            Some(quiet) => patience_left(idle, quiet),
        };
        if left.is_some() {
            self.peer.read_within(left);
        }
        left.is_some()
    }

    // Reads the next piece, and returns how many bytes it has; or why the connection closes.
    fn read_piece<R: Wait + Clock>(&self, rt: &R, piece: &mut [u8]) -> Result<usize, Closing> {
        for _ in rt.forever() {
            match self.peer.read(piece) {
                Ok(0) => return Err(Closing::Client),
                Ok(count) => return Ok(count),
                Err(error) if !is_timeout(&error) => return Err(Closing::Client),
                Err(_) => {}
            }
            if !self.stays(rt) {
                return Err(Closing::Idle);
            }
        }
        unreachable!()
    }

    // Reads until either end closes, and says why.
    fn read_all<R: Wait + Clock>(&self, rt: &R, alloc: Global) -> Result<Closing, KafkaFault> {
        let mut frames = Frames::new(alloc);
        let mut piece = vec![in alloc; 0; PIECE]?;
        self.peer.read_within(self.shared.idle);
        for _ in rt.forever() {
            let count = match self.read_piece(rt, piece.as_mut_slice()) {
                Ok(count) => count,
                Err(why) => return Ok(why),
            };
            let Some(read) = piece.get(..count) else {
                return Ok(Closing::Client);
            };
            frames.feed(read)?;
            if !self.put_all(rt, alloc, &mut frames)? {
                return Ok(Closing::Client);
            }
        }
        unreachable!()
    }

    /// Reads requests until either end closes the connection. Those that were whole by then are
    /// answered, also if bytes arrived that no frame begins with.
    pub(crate) fn take_requests<R: Wait + Clock>(&self, rt: &R, alloc: Global) {
        let ended = self.read_all(rt, alloc);
        self.peer.closes(rt, why_of(&ended));
        self.inbox.close(rt);
        self.waker.wake(rt);
        if ended.is_err() {
            self.peer.linger();
        }
    }
}
