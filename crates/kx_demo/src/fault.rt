//! Why a demonstration has no end.
ghost use Rattle.std.specs.Prelude.{◌≡◌};
ghost use Rattle.kx_demo.specs.Faults.{fault_number};

use std::alloc::AllocError;
use thiserror::Error;

/// Why a demonstration comes to no end that could be audited. All its threads have ended then.
#[derive(Clone, Copy, Debug, PartialEq, Eq, Error)]
pub enum DemoFault {
    /// A port of 127.0.0.1 can't be had, or a connection fails.
    #[error("the network fails")]
    Net,
    /// The output can't be written.
    #[error("the output cannot be written")]
    Write,
    /// What happened can't be written down.
    #[error("the trace cannot be written")]
    Trace,
    /// The page of what happened can't be written.
    #[error("the page cannot be written")]
    Page,
    /// Memory ran out, or a thread can't be started.
    #[error("out of memory")]
    Memory,
    /// The clients looked for their next frames 1,000,000 times, and hadn't come to the end; or a
    /// node took as many inputs as a trace holds.
    #[error("gave up")]
    GaveUp,
}

impl DemoFault {
    /// The number of the fault, by which another program knows it: `Net` 1, `Write`, `Trace` and
    /// `Page` 2, `Memory` 4, `GaveUp` 5.
    pub fn number(self) -> u8
        ensures { result ≡ fault_number self }
    {
        match self {
            DemoFault::Net => 1,
            DemoFault::Write | DemoFault::Trace | DemoFault::Page => 2,
            DemoFault::Memory => 4,
            DemoFault::GaveUp => 5,
        }
    }
}

/// Out of memory.
impl From<AllocError> for DemoFault {
    ghost use Rattle.kx_demo.specs.declared.fault.DemoFault.TheVariants.{Memory};

    ghost from_gives = { λ refused fault. fault ≡ Memory };

    fn from(_: AllocError) -> Self {
        DemoFault::Memory
    }
}
