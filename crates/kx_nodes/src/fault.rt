//! Why a node doesn't take an input, and why workers don't.
ghost use Rattle.std.specs.Prelude.{◌≡◌};
ghost use Rattle.kx_nodes.specs.Faults.{hand_number, node_number};
ghost use Rattle.kx_nodes.specs.declared.fault.NodeFault.TheVariants.{Memory};

use std::alloc::AllocError;
use thiserror::Error;

/// Why a node doesn't take an input. Its trace is then as before.
#[derive(Clone, Copy, Debug, PartialEq, Eq, Drop, Error)]
pub enum NodeFault {
    /// Memory ran out.
    #[error("out of memory")]
    Memory = 1,
    /// The trace has 1,048,576 steps.
    #[error("the trace is full")]
    TraceFull = 2,
}

impl NodeFault {
    /// The number of the fault, by which another program knows it: `Memory` 1, `TraceFull` 2.
    pub fn number(self) -> u8
        ensures { result ≡ node_number self }
    {
        self as u8
    }
}

/// Out of memory.
impl From<AllocError> for NodeFault {
    ghost from_gives = { λ refused fault. fault ≡ Memory };

    fn from(_: AllocError) -> Self {
        NodeFault::Memory
    }
}

/// Why workers don't take an input. There is then no step.
#[derive(Clone, Copy, Debug, PartialEq, Eq, Drop, Error)]
pub enum HandFault {
    /// Memory ran out.
    #[error("out of memory")]
    Memory = 1,
    /// The tickets are used up: 2^64 - 1 were given.
    #[error("the tickets are used up")]
    UsedUp = 2,
}

impl HandFault {
    /// The number of the fault, by which another program knows it: `Memory` 1, `UsedUp` 2.
    pub fn number(self) -> u8
        ensures { result ≡ hand_number self }
    {
        self as u8
    }
}
