//! How a node was made, as a value, with which its trace begins.
ghost use Rattle.std.specs.Prelude.{◌≡◌};

use kx_machine::Making;
use kx_message::{ClientId, GroupId, NodeId, Timeout, TxnId};
use kx_processor::{Inputs, Process};

/// How a node was made. The value says which node of the definitions it was then.
pub trait Made: Drop {
    ghost use Rattle.std.specs.Prelude.{◌≡◌};
    ghost use Rattle.kx_machine.specs.Meaning.{NodeState};
    ghost use Rattle.kx_nodes.specs.Replay.{name_of};

    // the node as it was made
    ghost state: { Self → NodeState };

    /// The node's name: where messages to it go.
    fn name(&self) -> NodeId
        ensures { result ≡ name_of (state self.now) };
}

/// A node that isn't a processor.
impl Made for Making {
    ghost use Rattle.kx_machine.specs.Meaning.{made_as};

    ghost state = { made_as };

    fn name(&self) -> NodeId {
        match self {
            Making::Coordinator => NodeId::Coordinator,
            Making::Partition(number) => NodeId::Partition(*number),
            Making::Client { number, .. } => NodeId::Client(*number),
        }
    }
}

/// How a processor is made: a client that consumes, processes and produces, and has asked for
/// nothing yet.
#[derive(Drop)]
pub struct ProcessorMaking<P: Process> {
    /// Its own number.
    pub number: ClientId,
    /// Its transactional id, if it is to write anything.
    pub txn: Option<TxnId>,
    /// How long each of its transactions may stay open.
    pub timeout: Timeout,
    /// The group in which it consumes.
    pub group: GroupId,
    /// How many input partitions it has.
    pub inputs: Inputs,
    /// What it makes of each record.
    pub process: P,
}

impl<P: Process> Made for ProcessorMaking<P> {
    ghost use Rattle.kx_nodes.specs.Made.{made_processor};

    ghost state = { made_processor P.image_of };

    fn name(&self) -> NodeId {
        NodeId::Client(self.number)
    }
}
