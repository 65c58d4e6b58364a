//! Setting up: the clients, and their connections.
use crate::client::Client;
use crate::clients::{Clients, Dropping};
use crate::fault::PlayFault;
use crate::nodes::{CoreServer, LEAVING, group};
use crate::options::Records;
use crate::wires::Wires;
use kx_message::ClientId;
use kx_nodes::{Locked, Node};
use kx_publishing::Readable;
use std::alloc::Global;
use std::net::{Net, TcpListener, TcpStream};
use std::sync::{Arc, Wait};
use std::thread::Threads;
use std::time::Clock;

// A client with this node, before its end of a new connection.
fn client_of<
    L: Locked,
    R: Net<Listener = TcpListener, Stream = TcpStream>
        + Threads
        + Wait
        + Copy
        + Send
        + Sync
        + Drop
        + 'static,
>(alloc: Global, node: &Arc<Node<L>>, wires: &mut Wires<R>) -> Result<Client<L>, PlayFault> {
    let node = Arc::try_clone(node)?;
    match wires.add() {
        Ok(end) => Ok(Client::new(alloc, node, end)),
        Err(fault) => {
            drop(node);
            Err(fault)
        }
    }
}

// Adds a client for each of these nodes.
fn add_clients<
    L: Readable,
    R: Net<Listener = TcpListener, Stream = TcpStream>
        + Threads
        + Wait
        + Copy
        + Send
        + Sync
        + Drop
        + 'static,
>(
    alloc: Global,
    clients: &mut Clients<L, R>,
    nodes: &[Arc<Node<L>>],
    wires: &mut Wires<R>,
) -> Result<(), PlayFault> {
    for node in nodes {
        clients.add(client_of(alloc, node, wires)?)?;
    }
    Ok(())
}

/// The clients of a server, each with one of these nodes and before its end of a new connection.
pub(crate) fn set_up<
    L: Readable + Send + Sync + 'static,
    R: Net<Listener = TcpListener, Stream = TcpStream>
        + Eprint
        + Threads
        + Wait
        + Clock
        + Copy
        + Send
        + Sync
        + Drop
        + 'static,
>(
    alloc: Global,
    records: Records,
    nodes: &[Arc<Node<L>>],
    server: &CoreServer<L, R>,
    wires: &mut Wires<R>,
) -> Result<Clients<L, R>, PlayFault> {
    let dropping = Dropping {
        operator: server.operator()?,
        group: group(),
        member: ClientId::from(LEAVING),
    };
    let mut clients = Clients::new(alloc, dropping, records);
    match add_clients(alloc, &mut clients, nodes, wires) {
        Ok(()) => Ok(clients),
        Err(fault) => {
            drop(clients);
            Err(fault)
        }
    }
}
