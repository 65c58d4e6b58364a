//! The nodes of a server, which an audit makes again.
ghost use Rattle.std.specs.Prelude.{◌≡◌};
ghost use Rattle.kx_audit.specs.Making as making;
ghost use Rattle.kx_trace_audit.specs.Servers.{making_of};

use crate::lengths::{has_found, log_len};
use crate::opened::node_on;
use kx_audit::{Remade, Tells};
use kx_machine::{Failing, Making, StoreMode};
use kx_machines::{BrokerMachine, LocalStore, local_coordinator, local_server};
use kx_message::NodeId;
use kx_nodes::Made;
use kx_trace::TracedNode;
use kx_trace_audit::{Server, TraceOf, TraceRefusal, node_name};
use std::alloc::{AllocError, Global};

/// A node of a server, whose log is in memory.
#[derive(Clone, Copy)]
pub(crate) struct ServerNode {
    /// The node, as its trace names it.
    pub(crate) node: TracedNode,
}

// How the node is made, as any node that isn't a processor.
fn making(node: TracedNode) -> Making
    ensures { making.making_of result ≡ making_of node }
{
    match node {
        TracedNode::Coordinator => Making::Coordinator,
        TracedNode::Partition(number) => Making::Partition(number),
    }
}

impl Made for ServerNode {
    ghost use Rattle.kx_audit.specs.Making.{node_of};
    ghost use Rattle.kx_trace_audit.specs.Servers.{making_of};

    ghost state = { λ server. node_of (making_of server.node) };

    fn name(&self) -> NodeId {
        node_name(self.node)
    }
}

impl Tells for ServerNode {
    ghost use Rattle.kx_trace_audit.specs.Servers.{making_of};

    ghost making = { λ server. making_of server.node };

    fn tells(&self) {
        making(self.node).tells();
    }
}

/// A node is made again with an empty log in memory.
impl Remade for ServerNode {
    type Machine = BrokerMachine<LocalStore>;

    fn make(&self, alloc: Global) -> Result<BrokerMachine<LocalStore>, AllocError> {
        match self.node {
            TracedNode::Coordinator => Ok(BrokerMachine::Coordinator(local_coordinator(alloc)?)),
            TracedNode::Partition(number) => local_server(alloc, number),
        }
    }

    fn prepare(machine: &mut BrokerMachine<LocalStore>, mode: StoreMode) {
        machine.prepare(mode);
    }
}

impl Server for ServerNode {
    fn of(node: TracedNode) -> ServerNode {
        ServerNode { node }
    }

    fn begun(alloc: Global, of: &TraceOf) -> Result<BrokerMachine<LocalStore>, TraceRefusal> {
        match &of.opened {
            None => Ok(ServerNode { node: of.node }.make(alloc)?),
            Some(opened) => node_on(alloc, of.node, opened),
        }
    }

    fn log_len(machine: &BrokerMachine<LocalStore>) -> u64 {
        log_len(machine)
    }

    fn has_found(machine: &BrokerMachine<LocalStore>, log_len: u64) -> bool {
        has_found(machine, log_len)
    }
}
