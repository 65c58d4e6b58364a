//! Why an audit of traces refuses.
ghost use Rattle.std.specs.Prelude.{◌≡◌};
ghost use Rattle.kx_trace_audit.specs.Faults.{refusal_number};
ghost use Rattle.kx_trace_audit.specs.declared.refusal.TraceRefusal.TheVariants.{Memory};

use std::alloc::AllocError;
use thiserror::Error;

/// Why an audit of traces refuses.
#[derive(Clone, Copy, Debug, PartialEq, Eq, Drop, Error)]
pub enum TraceRefusal {
    /// Two traces are of one node.
    #[error("two traces are of one node")]
    DuplicateNode = 1,
    /// No trace goes on with these bytes.
    #[error("no trace goes on with these bytes")]
    Bytes = 2,
    /// A step takes a message that no step sent.
    #[error("a step takes a message that no step sent")]
    Unsent = 3,
    /// The node's store did something else in a step than its trace tells.
    #[error("the store did something else")]
    Store = 4,
    /// A step sends something else than its trace tells.
    #[error("the step sends something else")]
    Answer = 5,
    /// A restart found another log than the one to which the trace leads.
    #[error("a restart found another log")]
    Found = 6,
    /// The node's log isn't the one to which its trace leads.
    #[error("the trace leads to another log")]
    Log = 7,
    /// Memory ran out.
    #[error("out of memory")]
    Memory = 8,
}

impl TraceRefusal {
    /// The number of the refusal: `DuplicateNode` 1, `Bytes` 2, `Unsent` 3, `Store` 4, `Answer` 5,
    /// `Found` 6, `Log` 7, `Memory` 8.
    pub fn number(self) -> u8
        ensures { result ≡ refusal_number self }
    {
        self as u8
    }
}

/// Out of memory is [`TraceRefusal::Memory`].
impl From<AllocError> for TraceRefusal {
    ghost from_gives = { λ refused fault. fault ≡ Memory };

    fn from(_: AllocError) -> Self {
        TraceRefusal::Memory
    }
}
