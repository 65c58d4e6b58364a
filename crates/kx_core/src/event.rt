//! What happens in a world.
use kx_machine::{Input, Note, StoreMode};
use kx_message::{ClientId, GroupId, NodeId, Timeout, TxnId};
use kx_outside::OutsideRequest;
use kx_processor::{Inputs, Process};

/// What happens next: one node takes one input, a client is made, or a request arrives from
/// outside.
#[derive(Drop)]
pub enum Event<F: Process> {
    /// A client is made, whose number is above those of all others; else nothing happens.
    Make {
        client: ClientId,
        txn: Option<TxnId>,
        timeout: Timeout,
    },
    /// A processor is made, in the same way: a client that is a member of a group, with its input
    /// partitions and its process.
    MakeProcessor {
        client: ClientId,
        txn: Option<TxnId>,
        timeout: Timeout,
        group: GroupId,
        inputs: Inputs,
        process: F,
    },
    /// The message of this number, counted from 0 among all that were ever sent, comes to a node,
    /// whose store does this meanwhile. If there is no such message, or no such node, nothing
    /// happens.
    Deliver {
        number: usize,
        to: NodeId,
        store: StoreMode,
    },
    /// A node is handed anything else, while its store does this. A message comes by its number
    /// alone.
    Hand {
        to: NodeId,
        input: Input,
        store: StoreMode,
    },
    /// A client's request arrives from outside, of a client that the world need not have: it is
    /// one more message that was sent, which can be delivered like any other.
    Arrive {
        request: OutsideRequest,
    },
}

/// What an event answers beside its messages.
#[derive(Clone, Copy, Debug, PartialEq, Eq)]
pub struct Happened {
    /// What the node answers.
    pub note: Note,
    /// Whether the node's store failed: its append, which closes the node's log until the node is
    /// opened again, or that opening.
    pub failed: bool,
}
