//! The threads of a server: all nodes of a core in one process, served to clients over sockets. A
//! request goes to the node that it names, a reply to the connection that spoke last for its client.
//! What nodes send to nodes goes through inboxes to workers. Pages are read from published logs, as
//! no step. Where the nodes are from, and so where their logs are, is the caller's.
#![tactic(auto)]

mod asking;
mod connection;
mod fault;
mod hub;
mod lines;
mod listening;
mod notices;
mod operator;
mod options;
mod outbox;
mod peer;
mod protocol;
mod queue;
mod readers;
mod reading;
mod routes;
mod seats;
mod server;
mod sessions;
mod speakers;
mod ticking;
mod watches;

pub use asking::{asker, missing_partition};
pub use fault::{NetFault, ServerFault};
pub use hub::{Answers, Hub, Nodes, Place, ServedNode};
pub use lines::tell;
pub use notices::Notices;
pub use operator::Operator;
pub use options::{Connections, Partitions, ServerOptions};
pub use peer::Peer;
pub use protocol::{Link, OwnFrames, OwnLink, Protocol};
pub use queue::{MOST_WAITING, Queue};
pub use readers::{MOST_READERS, Readers};
pub use reading::{FromLog, LogEnds, read_ends, read_page};
pub use server::{Server, Until, serve_nodes};
pub use sessions::Member;
pub use ticking::moment;
pub use watches::Waker;
