//! Why nodes aren't followed.
ghost use Rattle.std.specs.Prelude.{◌≡◌};
ghost use Rattle.kx_follow.specs.Faults.{follow_number};
ghost use Rattle.kx_follow.specs.declared.fault.FollowFault.TheVariants.{Memory};

use std::alloc::AllocError;
use thiserror::Error;

/// Why nodes aren't followed. Nothing of them is kept then.
#[derive(Clone, Copy, Debug, PartialEq, Eq, Drop, Error)]
pub enum FollowFault {
    /// Two of the nodes have one name.
    #[error("two nodes have one name")]
    DuplicateNode = 1,
    /// Memory ran out.
    #[error("out of memory")]
    Memory = 2,
}

impl FollowFault {
    /// The number of the fault: `DuplicateNode` 1, `Memory` 2.
    pub fn number(self) -> u8
        ensures { result ≡ follow_number self }
    {
        self as u8
    }
}

/// Out of memory.
impl From<AllocError> for FollowFault {
    ghost from_gives = { λ refused fault. fault ≡ Memory };

    fn from(_: AllocError) -> Self {
        FollowFault::Memory
    }
}
