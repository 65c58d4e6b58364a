//! What the demonstration audits: clients and the server over loopback in one process, with a relay
//! between them that repeats frames, loses some and holds others back. Two producers fill the input
//! partitions; two processors of one group write the images of what they read, and one of them is
//! dropped in the middle. The server is [`kx_server`]'s, over nodes that keep their traces, as the
//! clients' nodes do; when all threads have ended, the traces and the receipts of all steps are
//! returned.
//!
//! `options` and `fault` are what is asked for and what may fail. `nodes` makes the nodes, and
//! `wires` the connections with the relay's threads. `client` is a client before its end of a
//! connection, `producers` and `members` are what the clients do, and `clients` all of them in
//! turn. `setup` makes the clients of a server, and `playing` goes from the first connection to the
//! last thread. What only passes on nodes is generic in their machines.
#![tactic(auto)]

mod client;
mod clients;
mod fault;
mod members;
mod nodes;
mod options;
mod playing;
mod producers;
mod setup;
mod wires;

pub use fault::PlayFault;
pub use nodes::{INPUTS, PlayMaking, partition};
pub use options::{PlayOptions, Records, WorkerCount};
pub use playing::{Played, play};
