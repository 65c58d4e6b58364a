//! The threads of a server's connections.
use crate::fault::NetFault;
use crate::hub::Hub;
use crate::protocol::Link;
use kx_notices::{Closing, Shortage};
use kx_published::book::Naming;
use kx_publishing::Readable;
use std::alloc::{AllocError, Global};
use std::net::{TcpListener, TcpStream};
use std::sync::{Arc, Condvar, Mutex, Wait};
use std::thread::Threads;
use std::time::{Clock, Duration};
use std::{io, thread};

// After how long a thread that can't be started is tried again.
const PAUSE_MILLIS: u64 = 10;

// After how long a connection that can't be taken is tried again, if none is closed meanwhile.
const WAIT_SECONDS: u64 = 1;

// How many connections are served.
#[derive(Drop)]
struct Count {
    served: Mutex<usize>,
    fewer: Condvar,
}

impl Count {
    // Counts no connection yet.
    fn new() -> Count {
        Count {
            served: Mutex::new(0),
            fewer: Condvar::new(),
        }
    }

    // How many connections are served now.
    fn get<R: Wait>(&self, rt: &R) -> usize {
        *self.served.lock(rt)
    }

    // Counts a connection that is served from now on.
    fn add<R: Wait>(&self, rt: &R) {
        let mut served = self.served.lock(rt);
        *served = served.saturating_add(1);
    }

    // Counts a connection that was closed, and wakes who waits for that.
    fn take<R: Wait>(&self, rt: &R) {
        let mut served = self.served.lock(rt);
        *served = served.saturating_sub(1);
        drop(served);
        self.fewer.notify_all();
    }

    // Waits until fewer are served than now, but not for long.
    fn wait_for_fewer<R: Wait + Clock>(&self, rt: &R) {
        let served = self.served.lock(rt);
        let now = *served;
        let long = Duration::from_secs(WAIT_SECONDS);
        let _fewer = self
            .fewer
            .wait_timeout_while(rt, served, long, |served| *served >= now);
    }

    // Waits until none is served.
    fn wait_for_none<R: Wait>(&self, rt: &R) {
        let _none = self
            .fewer
            .wait_while(rt, self.served.lock(rt), |served| *served > 0);
    }
}

// Which of the two threads of a connection.
#[derive(Clone, Copy)]
enum Side {
    // It reads what arrives.
    Reader,
    // It writes what is answered.
    Writer,
}

// What the two threads of a connection share. The connection is closed with it.
#[derive(Drop)]
struct Wire<L: Readable, J: Naming, R: Wait + Drop, K: Link> {
    alloc: Global,
    hub: Arc<Hub<L, J, R>>,
    link: K,
}

// Whether a listener that fails so never works again: it is no listener (EBADF, EFAULT, EINVAL,
// ENOTSOCK). All else passes: files that other connections have are given back when these close.
fn is_for_good(error: &io::Error) -> bool {
    matches!(error.raw_os_error(), Some(9 | 14 | 22 | 88))
}

impl<L: Readable, J: Naming, R: Wait + Clock + Drop, K: Link> Wire<L, J, R, K> {
    // Reads from the connection until either end closes it.
    fn read(&self, rt: &R) {
        self.link.read(rt, self.alloc, &*self.hub);
    }

    // Writes to the connection until either end closes it.
    fn write(&self, rt: &R) {
        self.link.write(rt, self.alloc, &*self.hub);
    }

    // Tells whoever runs the server that the connection closes, and why.
    fn tell_closed(&self, rt: &R) {
        let peer = self.link.peer();
        self.hub.notices().closed(rt, peer.number(), peer.why(rt));
    }
}

// A thread has nothing more to do with a connection. The last one closes it.
fn leave<L: Readable, J: Naming, R: Wait + Clock + Drop, K: Link>(
    rt: &R,
    wire: Arc<Wire<L, J, R, K>>,
    count: &Count,
) {
    if let Some(wire) = Arc::into_inner(wire) {
        wire.tell_closed(rt);
        drop(wire);
        count.take(rt);
    }
}

// Starts the thread that reads from a connection. Says whether it runs.
fn start_reader<
    L: Readable + Send + Sync + 'static,
    J: Naming + Send + Sync + 'static,
    R: Threads + Wait + Clock + Copy + Send + Sync + Drop + 'static,
    K: Link + Send + Sync + 'static,
>(rt: R, wire: &Arc<Wire<L, J, R, K>>, count: &Arc<Count>) -> bool {
    let (Ok(wire), Ok(count)) = (Arc::try_clone(wire), Arc::try_clone(count)) else {
        return false;
    };
    thread::spawn(&rt, move || {
        wire.read(&rt);
        leave(&rt, wire, &*count);
    })
    .is_ok()
}

// Starts the thread that writes to a connection. Says whether it runs.
fn start_writer<
    L: Readable + Send + Sync + 'static,
    J: Naming + Send + Sync + 'static,
    R: Threads + Wait + Clock + Copy + Send + Sync + Drop + 'static,
    K: Link + Send + Sync + 'static,
>(rt: R, wire: &Arc<Wire<L, J, R, K>>, count: &Arc<Count>) -> bool {
    let (Ok(wire), Ok(count)) = (Arc::try_clone(wire), Arc::try_clone(count)) else {
        return false;
    };
    thread::spawn(&rt, move || {
        wire.write(&rt);
        leave(&rt, wire, &*count);
    })
    .is_ok()
}

/// The connections that are served, each by two threads. The last of them closes the connection.
#[derive(Drop)]
pub(crate) struct Seats<L: Readable, J: Naming, R: Threads + Wait + Clock + Drop> {
    rt: R,
    alloc: Global,
    hub: Arc<Hub<L, J, R>>,
    count: Arc<Count>,
}

impl<
    L: Readable + Send + Sync + 'static,
    J: Naming + Send + Sync + 'static,
    R: Eprint + Threads + Wait + Clock + Copy + Send + Sync + Drop + 'static,
> Seats<L, J, R> {
    /// No connection is served.
    ///
    /// # Errors
    ///
    /// Only if memory runs out.
    pub(crate) fn new(rt: R, alloc: Global, hub: Arc<Hub<L, J, R>>) -> Result<Self, AllocError> {
        Ok(Seats {
            rt,
            alloc,
            hub,
            count: Arc::new(alloc, Count::new())?,
        })
    }

    /// The next connection of a listener. If it can't be taken now, since the process has as many
    /// files as it may have, it is taken once a connection was closed or a second has passed.
    ///
    /// # Errors
    ///
    /// `Other`, if the listener never works again.
    pub(crate) fn accept(&self, listener: &TcpListener) -> Result<TcpStream, NetFault> {
        let rt = self.rt;
        let mut has_told = false;
        for _ in rt.forever() {
            match listener.accept() {
                Ok((stream, _)) => return Ok(stream),
                Err(error) if is_for_good(&error) => return Err(NetFault::Other),
                Err(_) => {}
            }
            if !has_told {
                self.hub.notices().ran_out(&rt, Shortage::Files);
                has_told = true;
            }
            self.count.wait_for_fewer(&rt);
        }
        unreachable!()
    }

    /// The connection of this number is closed before it is served.
    pub(crate) fn refuse(&self, number: usize, why: Closing) {
        self.hub.notices().closed(&self.rt, number, why);
    }

    /// How many connections are served.
    pub(crate) fn count(&self) -> usize {
        self.count.get(&self.rt)
    }

    // Starts a thread of a connection, as soon as it can be started.
    fn start<K: Link + Send + Sync + 'static>(&self, side: Side, wire: &Arc<Wire<L, J, R, K>>) {
        let rt = self.rt;
        let mut has_told = false;
        for _ in rt.forever() {
            let runs = match side {
                Side::Reader => start_reader(rt, wire, &self.count),
                Side::Writer => start_writer(rt, wire, &self.count),
            };
            if runs {
                return;
            }
            if !has_told {
                self.hub.notices().ran_out(&rt, Shortage::Threads);
                has_told = true;
            }
            thread::sleep(&rt, Duration::from_millis(PAUSE_MILLIS));
        }
    }

    /// Serves a connection, from as soon as threads for it can be started.
    ///
    /// # Errors
    ///
    /// If memory runs out before that; the connection is closed then.
    pub(crate) fn serve<K: Link + Send + Sync + 'static>(&self, link: K) -> Result<(), AllocError> {
        let wire = Wire {
            alloc: self.alloc,
            hub: Arc::try_clone(&self.hub)?,
            link,
        };
        let Ok(wire) = Arc::new(self.alloc, wire) else {
            return Err(AllocError);
        };
        self.count.add(&self.rt);
        self.hub.notices().opened(&self.rt, wire.link.peer());
        self.start(Side::Writer, &wire);
        self.start(Side::Reader, &wire);
        leave(&self.rt, wire, &*self.count);
        Ok(())
    }

    /// Waits until all connections have ended.
    pub(crate) fn join(&self) {
        self.count.wait_for_none(&self.rt);
    }
}
