//! The server, from its first connection to its last.
ghost use Rattle.std.specs.Prelude.{◌≤◌, OnOk};
ghost use Rattle.kx_server.specs.Lines.{Listens};

use crate::fault::ServerFault;
use crate::hub::{Answers, Hub, Nodes, Place};
use crate::lines::tell;
use crate::listening::{fault_of, listen, port_of};
use crate::notices::{Notices, write_notices};
use crate::operator::Operator;
use crate::options::ServerOptions;
use crate::peer::Peer;
use crate::protocol::{OwnFrames, Protocol};
use crate::routes::Routes;
use crate::seats::Seats;
use crate::sessions::Member;
use crate::ticking::{Going, keep_time};
use crate::watches::Watches;
use kx_message::Message;
use kx_nodes::{JoinSet, Receipt, Workers};
use kx_notices::Closing;
use kx_published::book::Naming;
use kx_publishing::{PublishedMachine, Readable};
use std::alloc::{AllocError, Global};
use std::io::Write;
use std::net::{Net, TcpListener, TcpStream};
use std::sync::{Arc, Wait};
use std::thread;
use std::thread::Threads;
use std::time::Clock;

// How many threads deliver what nodes send to nodes.
const WORKERS: usize = 4;

// What a server's threads share.
#[derive(Drop)]
struct Shared<L: Readable, J: Naming, R: Wait + Drop> {
    hub: Arc<Hub<L, J, R>>,
    notices: Arc<Notices>,
    going: Arc<Going>,
}

impl<
    L: Readable + Send + Sync + 'static,
    J: Naming + Send + Sync + 'static,
    R: Eprint + Threads + Wait + Clock + Copy + Send + Sync + Drop + 'static,
> Shared<L, J, R> {
    // Starts the clock.
    fn add_clock(
        &self,
        threads: &mut JoinSet<R>,
        rt: R,
        options: &ServerOptions,
    ) -> Result<(), AllocError> {
        threads.make_room()?;
        let hub = Arc::try_clone(&self.hub)?;
        let going = Arc::try_clone(&self.going)?;
        let options = *options;
        let Ok(handle) = thread::spawn(&rt, move || keep_time(&rt, &*hub, &*going, &options)) else {
            return Err(AllocError);
        };
        threads.push(handle);
        Ok(())
    }

    // Starts the thread that writes notices. It isn't joined, since nobody may read them.
    fn start_notices(&self, rt: R, alloc: Global, tells_all: bool) -> Result<(), AllocError> {
        let notices = Arc::try_clone(&self.notices)?;
        self.notices.open(&rt, tells_all);
        let Ok(_) = thread::spawn(&rt, move || write_notices(&rt, alloc, &*notices)) else {
            self.notices.finish(&rt);
            return Err(AllocError);
        };
        Ok(())
    }

    // Starts the threads that a server has beside its connections.
    fn start_beside(
        &self,
        threads: &mut JoinSet<R>,
        rt: R,
        alloc: Global,
        options: &ServerOptions,
    ) -> Result<(), AllocError> {
        self.start_notices(rt, alloc, options.tells_notices)?;
        self.add_clock(threads, rt, options)
    }
}

/// When a server ends.
#[derive(Clone, Copy, Debug, PartialEq, Eq)]
pub enum Until {
    /// When it has served as many connections as its options say.
    Served,
    /// When its process is killed. As many connections as its options say are served at a time, and
    /// one more is closed at once.
    Killed,
}

impl Until {
    // How many connections are taken at most.
    fn taken(self, options: &ServerOptions) -> usize {
        match self {
            Until::Served => usize::from(options.connections.get()),
            Until::Killed => usize::MAX,
        }
    }
}

// A connection of this number, once it can be served. None if it is closed.
fn opened<P: Protocol, R: Wait>(
    rt: &R,
    alloc: Global,
    protocol: &P,
    number: usize,
    stream: TcpStream,
) -> Option<P::Link> {
    let peer = Arc::new(alloc, Peer::new(alloc, number, stream)).ok()?;
    protocol.open(rt, alloc, peer).ok()
}

// Takes the connections, one after the other, and serves each from then on.
fn take_connections<
    L: Readable + Send + Sync + 'static,
    J: Naming + Send + Sync + 'static,
    R: Eprint + Threads + Wait + Clock + Copy + Send + Sync + Drop + 'static,
    P: Protocol,
>(
    rt: R,
    alloc: Global,
    seats: &Seats<L, J, R>,
    listener: &TcpListener,
    options: &ServerOptions,
    spoken: (&P, Until),
) -> Result<(), ServerFault> {
    let (protocol, until) = spoken;
    for number in 0..until.taken(options) {
        let stream = match seats.accept(listener) {
            Ok(stream) => stream,
            Err(fault) => return Err(fault_of(listener, fault)),
        };
        if seats.count() >= usize::from(options.connections.get()) {
            seats.refuse(number, Closing::Full);
            continue;
        }
        let served = match opened(&rt, alloc, protocol, number, stream) {
            Some(link) => seats.serve(link),
            None => Err(AllocError),
        };
        if served.is_err() {
            seats.refuse(number, Closing::Memory);
        }
    }
    Ok(())
}

// The workers of a server's nodes.
type Served<L, J, R> = Workers<PublishedMachine<L, J, R>, Answers<R>, R>;

// Starts this many workers of these nodes.
fn start_workers<
    L: Readable + Send + Sync + 'static,
    J: Naming + Send + Sync + 'static,
    R: Threads + Wait + Copy + Send + Sync + Drop + 'static,
>(
    rt: R,
    alloc: Global,
    places: &[Place<L, J, R>],
    count: usize,
) -> Result<Served<L, J, R>, AllocError>
    requires { 1 ≤ count }
{
    let mut nodes = Vec::new(alloc);
    for place in places {
        nodes.push(Arc::try_clone(&place.node)?)?;
    }
    let answers = Answers::new(rt, Routes::new(alloc), Watches::new(alloc)?);
    Workers::start(rt, alloc, nodes, count, answers)
}

// What the threads of a server with these nodes share.
fn share<
    L: Readable + Send + Sync + 'static,
    J: Naming + Send + Sync + 'static,
    R: Threads + Wait + Copy + Send + Sync + Drop + 'static,
>(
    alloc: Global,
    places: Vec<Place<L, J, R>>,
    workers: &Served<L, J, R>,
) -> Result<Shared<L, J, R>, AllocError> {
    let notices = Arc::new(alloc, Notices::new(alloc))?;
    let hub = Hub::new(alloc, places, workers.handle()?, Arc::try_clone(&notices)?);
    Ok(Shared {
        hub: Arc::new(alloc, hub)?,
        notices,
        going: Arc::new(alloc, Going::new())?,
    })
}

/// A server whose workers run. It is ended by [`serve`](Server::serve) or [`end`](Server::end).
pub struct Server<L: Readable, J: Naming, R: Threads + Wait + Drop> {
    rt: R,
    alloc: Global,
    workers: Served<L, J, R>,
    shared: Shared<L, J, R>,
}

impl<
    L: Readable + Send + Sync + 'static,
    J: Naming + Send + Sync + 'static,
    R: Eprint + Threads + Wait + Clock + Copy + Send + Sync + Drop + 'static,
> Server<L, J, R> {
    /// A server of these nodes, with this many threads that deliver what nodes send to nodes. It
    /// has served no connection yet.
    ///
    /// # Errors
    ///
    /// Only if memory or threads run out; then no thread runs.
    pub fn start(
        rt: R,
        alloc: Global,
        nodes: Vec<Place<L, J, R>>,
        workers: usize,
    ) -> Result<Self, AllocError>
        requires { 1 ≤ workers }
    {
        let workers = start_workers(rt, alloc, nodes.as_slice(), workers)?;
        match share(alloc, nodes, &workers) {
            Ok(shared) => Ok(Server {
                rt,
                alloc,
                workers,
                shared,
            }),
            Err(refused) => {
                // The workers were given no input, so they have no receipts.
                let _ = workers.end();
                Err(refused)
            }
        }
    }

    /// Takes steps that no client may ask for.
    ///
    /// # Errors
    ///
    /// Only if 2^63 - 1 of them exist.
    pub fn operator(&self) -> Result<Operator<L, J, R>, AllocError> {
        Ok(Operator::of(Arc::try_clone(&self.shared.hub)?))
    }

    // Members of groups from before the server began are given their time from now on, if they
    // may return. Else they leave, as does one for whose session memory runs out. What was left
    // undone is asked for.
    fn begin_with(&self, members: &[Member], may_return: bool, left: Vec<Message>) {
        let hub = &self.shared.hub;
        for member in members {
            let stays = may_return && hub.sessions.add(&self.rt, *member).is_ok();
            if !stays {
                hub.drop_member(&self.rt, *member);
            }
        }
        for message in left {
            let _ = hub.deliver(&self.rt, message);
        }
    }

    // Serves the connections that come to a listener, beside the clock.
    fn serve_shared<P: Protocol>(
        &self,
        listener: &TcpListener,
        options: &ServerOptions,
        protocol: &P,
        until: Until,
    ) -> Result<(), ServerFault> {
        let (rt, alloc) = (self.rt, self.alloc);
        let hub = Arc::try_clone(&self.shared.hub)?;
        let mut clock = JoinSet::new(rt, alloc);
        let seats = Seats::new(rt, alloc, hub)?;
        let served = match self.shared.start_beside(&mut clock, rt, alloc, options) {
            Ok(()) => { take_connections(rt, alloc, &seats, listener, options, (protocol, until)) }
            Err(_) => Err(ServerFault::Memory),
        };
        seats.join();
        self.shared.notices.end(&rt);
        self.shared.going.end(&rt);
        clock.join();
        served
    }

    /// Serves the connections of a listener, at once, whose clients speak this protocol. When it
    /// ends, no thread of the server runs. Returns the receipts of all steps of traced nodes, in any
    /// order.
    ///
    /// # Errors
    ///
    /// `Net` if no connection can be taken any more, `Memory` if memory or threads run out or
    /// a receipt was lost. Connections that were taken are served to their ends also then.
    pub fn serve_speaking<P: Protocol>(
        self,
        listener: &TcpListener,
        options: &ServerOptions,
        protocol: &P,
        until: Until,
    ) -> Result<Vec<Receipt>, ServerFault> {
        let served = self.serve_shared(listener, options, protocol, until);
        let receipts = self.end();
        served?;
        Ok(receipts?)
    }

    /// Serves as many connections of a listener as the options say, at once, and ends when the last
    /// of them has ended. Their clients speak the project's own protocol.
    ///
    /// # Errors
    ///
    /// As [`serve_speaking`](Server::serve_speaking).
    pub fn serve(
        self,
        listener: &TcpListener,
        options: &ServerOptions,
    ) -> Result<Vec<Receipt>, ServerFault> {
        let protocol = OwnFrames::of(options);
        self.serve_speaking(listener, options, &protocol, Until::Served)
    }

    /// Ends the server. Returns the receipts of all steps of traced nodes, in any order.
    ///
    /// # Errors
    ///
    /// Only if memory ran out for a receipt; all threads have ended then, too.
    pub fn end(self) -> Result<Vec<Receipt>, AllocError> {
        let Server {
            rt,
            alloc: _,
            workers,
            shared,
        } = self;
        let ended = workers.end();
        let kept = shared.hub.take_receipts(&rt);
        let mut receipts = ended?;
        receipts.append(&mut kept?)?;
        Ok(receipts)
    }
}

/// Serves nodes on 127.0.0.1 to clients that speak a protocol: prints `listening` and the port, and
/// serves connections at once. The server listens on `port`; 0 takes any that is free.
///
/// # Errors
///
/// As [`ServerFault`] has them. Connections that were taken are served to their ends also then.
pub fn serve_nodes<
    L: Readable + Send + Sync + 'static,
    J: Naming + Send + Sync + 'static,
    R: Net<Listener = TcpListener, Stream = TcpStream>
        + Eprint
        + Threads
        + Wait
        + Clock
        + Copy
        + Send
        + Sync
        + Drop
        + 'static,
    P: Protocol,
    W: Write,
>(
    rt: R,
    alloc: Global,
    nodes: Nodes<L, J, R>,
    port: u16,
    options: &ServerOptions,
    spoken: (&P, Until),
    out: &mut W,
) -> Result<(), ServerFault>
    ensures { OnOk result (Listens (W.contents out.old) (W.contents out.new)) }
{
    let listener = listen(&rt, port)?;
    tell(out, "listening", usize::from(port_of(&listener)?))?;
    let Nodes { places, members } = nodes;
    let (protocol, until) = spoken;
    let left = protocol.left(alloc)?;
    let server = Server::start(rt, alloc, places, WORKERS)?;
    server.begin_with(members.as_slice(), protocol.may_return(), left);
    // Nodes without traces in memory leave no receipts.
    server.serve_speaking(&listener, options, protocol, until)?;
    Ok(())
}
