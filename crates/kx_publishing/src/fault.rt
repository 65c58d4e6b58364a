//! Why a node publishes nothing, or has no reader.
ghost use Rattle.std.specs.Prelude.{◌≡◌};
ghost use Rattle.kx_publishing.specs.Faults.{publish_number};
ghost use Rattle.kx_publishing.specs.declared.fault.PublishFault.TheVariants.{Memory};

use std::alloc::AllocError;
use thiserror::Error;

/// Why a node publishes nothing, or has no reader. Readers then see what they saw.
#[derive(Clone, Copy, Debug, PartialEq, Eq, Drop, Error)]
pub enum PublishFault {
    /// Memory ran out, or there were 2^61 publishes.
    #[error("out of memory")]
    Memory = 1,
    /// The node publishes nothing, or all its readers' places are taken.
    #[error("no published log to read")]
    NoReader = 3,
}

impl PublishFault {
    /// The number of the fault, by which another program knows it: `Memory` 1, `NoReader` 3. They
    /// are numbered with those of [`NodeFault`](kx_nodes::NodeFault), whose `TraceFull` is 2.
    pub fn number(self) -> u8
        ensures { result ≡ publish_number self }
    {
        self as u8
    }
}

/// Out of memory.
impl From<AllocError> for PublishFault {
    ghost from_gives = { λ refused fault. fault ≡ Memory };

    fn from(_: AllocError) -> Self {
        PublishFault::Memory
    }
}
