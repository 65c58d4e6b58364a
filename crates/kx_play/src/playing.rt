//! Playing, from the first connection to the last thread that ends.
use crate::clients::Clients;
use crate::fault::{PlayFault, confirmed};
use crate::nodes::{CLIENTS, CoreServer, INPUTS, Nodes, PlayMaking, machines};
use crate::options::PlayOptions;
use crate::setup::set_up;
use crate::wires::{Wires, listen_on_any, port_of};
use kx_nodes::{Made, Receipt, Trace, Traced};
use kx_publishing::{Logging, Readable};
use kx_server::{Connections, Partitions, ServerOptions};
use std::alloc::{AllocError, Global};
use std::net::{Net, TcpListener, TcpStream};
use std::sync::Wait;
use std::thread;
use std::thread::{JoinHandle, Threads};
use std::time::Clock;

/// The traces of all nodes, and the receipts of all their steps.
#[derive(Drop)]
pub struct Played {
    /// How each node was made, and what it took: the coordinator, partitions 0 to 3, the offsets
    /// partition, and the clients.
    pub traces: Vec<Trace<PlayMaking>>,
    /// What each step answered.
    pub receipts: Vec<Receipt>,
}

// The thread of the clients, which returns the receipts of their steps.
type Playing = JoinHandle<Result<Vec<Receipt>, PlayFault>>;

// Lets the clients play, and closes their connections then.
fn run_clients<L: Readable, R: Wait + Clock + Drop>(
    rt: &R,
    mut clients: Clients<L, R>,
) -> Result<Vec<Receipt>, PlayFault> {
    let played = clients.play(rt);
    clients.close();
    drop(clients);
    played
}

// Starts the thread of the clients.
fn start_clients<
    L: Readable + Send + Sync + 'static,
    R: Threads + Wait + Clock + Copy + Send + Sync + Drop + 'static,
>(rt: R, clients: Clients<L, R>) -> Result<Playing, AllocError> {
    Ok(thread::spawn(&rt, move || run_clients(&rt, clients))?)
}

// Waits until the thread of the clients has ended.
fn join_clients<R: Threads + Wait>(
    rt: &R,
    playing: Result<Playing, AllocError>,
) -> Result<Vec<Receipt>, PlayFault> {
    playing?.join(rt)
}

// What the server is asked for: a connection for each client, and no expiry.
fn serving() -> ServerOptions {
    ServerOptions {
        partitions: Partitions::new(u16::from(2 * INPUTS)).unwrap(),
        connections: Connections::new(CLIENTS).unwrap(),
        expires: false,
        session_timeout: None,
        since: 0,
        tells_notices: false,
    }
}

// The one list and then the other, if there are both.
fn both<T: Drop, E>(
    first: Result<Vec<T>, E>,
    second: Result<Vec<T>, PlayFault>,
) -> Result<Vec<T>, PlayFault>
where
    PlayFault: From<E>,
{
    let mut all = first?;
    all.append(&mut second?)?;
    Ok(all)
}

// Serves the clients, which have a thread of their own, until all have closed. Returns the receipts
// of all steps.
fn serve<
    L: Readable + Send + Sync + 'static,
    R: Net<Listener = TcpListener, Stream = TcpStream>
        + Eprint
        + Threads
        + Wait
        + Clock
        + Copy
        + Send
        + Sync
        + Drop
        + 'static,
>(
    rt: R,
    clients: Clients<L, R>,
    server: CoreServer<L, R>,
    listener: &TcpListener,
    wires: Wires<R>,
) -> Result<Vec<Receipt>, PlayFault> {
    let playing = start_clients(rt, clients);
    if playing.is_err() {
        wires.close();
    }
    let served = server.serve(listener, &serving());
    let played = join_clients(&rt, playing);
    wires.join();
    both(served, played)
}

// Plays with a server that has served nothing yet.
fn play_with<
    L: Readable + Send + Sync + 'static,
    R: Net<Listener = TcpListener, Stream = TcpStream>
        + Eprint
        + Threads
        + Wait
        + Clock
        + Copy
        + Send
        + Sync
        + Drop
        + 'static,
>(
    rt: R,
    alloc: Global,
    options: &PlayOptions,
    nodes: &Nodes<L, R>,
    server: CoreServer<L, R>,
    listener: &TcpListener,
    mut wires: Wires<R>,
) -> Result<Vec<Receipt>, PlayFault> {
    match set_up(
        alloc,
        options.records,
        nodes.clients.as_slice(),
        &server,
        &mut wires,
    ) {
        Ok(clients) => serve(rt, clients, server, listener, wires),
        Err(fault) => {
            wires.close();
            wires.join();
            // It served nothing.
            drop(server.end());
            Err(fault)
        }
    }
}

// Plays with a server that listens here.
fn play_at<
    L: Readable + Send + Sync + 'static,
    R: Net<Listener = TcpListener, Stream = TcpStream>
        + Eprint
        + Threads
        + Wait
        + Clock
        + Copy
        + Send
        + Sync
        + Drop
        + 'static,
>(
    rt: R,
    alloc: Global,
    options: &PlayOptions,
    nodes: &Nodes<L, R>,
    listener: &TcpListener,
) -> Result<Vec<Receipt>, PlayFault> {
    let wires = Wires::new(rt, alloc, options, port_of(listener)?)?;
    match nodes.serve(rt, alloc, options.workers) {
        Ok(server) => play_with(rt, alloc, options, nodes, server, listener, wires),
        Err(refused) => {
            drop(wires);
            Err(refused.into())
        }
    }
}

// Plays with these nodes, and returns the receipts of all steps.
fn play_nodes<
    L: Readable + Send + Sync + 'static,
    R: Net<Listener = TcpListener, Stream = TcpStream>
        + Eprint
        + Threads
        + Wait
        + Clock
        + Copy
        + Send
        + Sync
        + Drop
        + 'static,
>(
    rt: R,
    alloc: Global,
    options: &PlayOptions,
    nodes: &Nodes<L, R>,
) -> Result<Vec<Receipt>, PlayFault> {
    let listener = listen_on_any(&rt)?;
    let played = play_at(rt, alloc, options, nodes, &listener);
    drop(listener);
    played
}

// Plays with the nodes of these machines. Returns the traces of all, and the receipts of all steps.
fn play_machines<
    M: Logging + Send + Sync + 'static,
    B: Made + Send + Sync + 'static,
    R: Net<Listener = TcpListener, Stream = TcpStream>
        + Eprint
        + Threads
        + Wait
        + Clock
        + Copy
        + Send
        + Sync
        + Drop
        + 'static,
>(
    rt: R,
    alloc: Global,
    options: &PlayOptions,
    machines: Vec<Traced<M, B>>,
) -> Result<(Vec<Trace<B>>, Vec<Receipt>), PlayFault> {
    let mut nodes = Nodes::new(alloc);
    let played = match nodes.add_all(alloc, machines) {
        Ok(()) => play_nodes(rt, alloc, options, &nodes),
        Err(refused) => Err(refused.into()),
    };
    let mut traces = Vec::new(alloc);
    let ended = nodes.end(&mut traces);
    match confirmed(played, ended) {
        Ok(receipts) => Ok((traces, receipts)),
        Err(fault) => {
            drop(traces);
            Err(fault)
        }
    }
}

/// Plays over loopback: starts all threads, and joins them.
///
/// # Errors
///
/// `Net` if a connection can't be made or fails, `GaveUp` if it comes to no end, `Memory`
/// if memory or threads run out.
pub fn play<
    R: Net<Listener = TcpListener, Stream = TcpStream>
        + AllocGlobal
        + Eprint
        + Threads
        + Wait
        + Clock
        + Copy
        + Send
        + Sync
        + Drop
        + 'static,
>(rt: R, options: &PlayOptions) -> Result<Played, PlayFault> {
    let alloc = rt.alloc();
    let machines = machines(alloc)?;
    let (traces, receipts) = play_machines(rt, alloc, options, machines)?;
    Ok(Played { traces, receipts })
}
