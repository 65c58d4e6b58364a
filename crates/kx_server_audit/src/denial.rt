//! Where and why an audit says no.
ghost use Rattle.std.specs.Prelude.{◌≡◌};

use crate::fault::AuditFault;
use kx_trace::TracedNode;
use kx_trace_audit::TraceRefusal;
use std::alloc::AllocError;

/// Where and why an audit says no.
#[derive(Clone, Copy)]
pub(crate) enum Denial {
    /// At an item of a node's trace, by its number, counted from 1.
    Item {
        node: TracedNode,
        item: u64,
        why: TraceRefusal,
    },
    /// The trace in the file of this node names another one.
    OtherNode(TracedNode),
    /// The file of this node's log isn't the log to which the node's trace leads.
    OtherLog(TracedNode),
}

impl Denial {
    ghost use Rattle.kx_server_audit.specs.Denials.{denial_number};

    /// Its number: that of the refusal; 1 if a trace names another node, and 7 for a log.
    pub(crate) fn number(&self) -> u8
        ensures { result ≡ denial_number self.now }
    {
        match self {
            Denial::Item { why, .. } => why.number(),
            Denial::OtherNode(_) => TraceRefusal::DuplicateNode.number(),
            Denial::OtherLog(_) => TraceRefusal::Log.number(),
        }
    }
}

/// Why an audit ends that isn't a yes.
#[derive(Clone, Copy)]
pub(crate) enum Stop {
    /// The audit says no.
    No(Denial),
    /// The server isn't audited.
    Fault(AuditFault),
}

impl From<AuditFault> for Stop {
    ghost use Rattle.kx_server_audit.specs.declared.denial.Stop.TheVariants.{Fault};

    ghost from_gives = { λ fault stop. stop ≡ Fault fault };

    fn from(fault: AuditFault) -> Self {
        Stop::Fault(fault)
    }
}

/// Out of memory is [`AuditFault::Memory`].
impl From<AllocError> for Stop {
    ghost use Rattle.kx_server_audit.specs.declared.denial.Stop.TheVariants.{Fault};
    ghost use Rattle.kx_server_audit.specs.declared.fault.AuditFault.TheVariants.{Memory};

    ghost from_gives = { λ refused stop. stop ≡ Fault Memory };

    fn from(_: AllocError) -> Self {
        Stop::Fault(AuditFault::Memory)
    }
}
