//! Nodes of a server, as their traces name them.
ghost use Rattle.std.specs.Prelude.{◌≡◌};
ghost use Rattle.kx_trace_audit.specs.Servers.{name_of};

use crate::refusal::TraceRefusal;
use kx_audit::Remade;
use kx_message::NodeId;
use kx_trace::TracedNode;
use kx_trace_files::OpenedOn;
use std::alloc::Global;

/// What a trace's head says, and what is known of the node's log.
#[derive(Drop)]
pub struct TraceOf {
    /// The node that the trace's head names.
    pub node: TracedNode,
    /// The log on which the node was opened when its trace was begun; None if it was made with an
    /// empty log.
    pub opened: Option<OpenedOn>,
    /// How many bytes of whole entries the node's log had when its trace ended, if that is known.
    pub log_len: Option<u64>,
}

/// The name in messages of the node that a trace is of.
pub fn node_name(node: TracedNode) -> NodeId
    ensures { result ≡ name_of node }
{
    match node {
        TracedNode::Coordinator => NodeId::Coordinator,
        TracedNode::Partition(number) => NodeId::Partition(number),
    }
}

/// How a server's node is made again.
pub trait Server: Remade {
    ghost use Rattle.std.specs.Prelude.{◌≡◌, ◌↔◌, IsTrue, MatchResult};
    ghost use Rattle.kx_machine.specs.Meaning.{NodeState};
    ghost use Rattle.kx_trace_audit.specs.Beginnings.{BeginRefused, StandsAsBegun};
    ghost use Rattle.kx_trace_audit.specs.Logs.{HasFound, log_size};
    ghost use Rattle.kx_trace_audit.specs.Servers.{making_of};

    /// How the node that a trace names is made.
    fn of(node: TracedNode) -> Self
        ensures { Self.making result ≡ making_of node };

    /// The machine of the node of a trace, of which no step was made again.
    ///
    /// # Errors
    ///
    /// `Bytes` if the log with which the trace begins can't be opened; `Memory` if memory runs
    /// out.
    fn begun(alloc: Global, of: &TraceOf) -> Result<Self::Machine, TraceRefusal>
        ensures { MatchResult result (StandsAsBegun Self.Machine.stands of.now)
            (BeginRefused of.now) };

    /// How many bytes the entries of its log have, or `u64::MAX` if they have more.
    fn log_len(machine: &Self::Machine) -> u64
        ensures { (state : NodeState) → Self.Machine.stands state machine.now
            → result ≡ log_size state };

    /// Whether a restart that the machine has just made found a log of this many bytes.
    fn has_found(machine: &Self::Machine, log_len: u64) -> bool
        ensures { (state : NodeState) → Self.Machine.stands state machine.now
            → (IsTrue result ↔ HasFound state log_len) };
}
