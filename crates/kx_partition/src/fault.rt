//! Why there is no page.
ghost use Rattle.std.specs.Prelude.{◌≡◌};
ghost use Rattle.kx_partition.specs.Faults.{number_of};
ghost use Rattle.kx_partition.specs.declared.fault.FetchFault.TheVariants as fetch;
ghost use Rattle.kx_partition.specs.declared.fault.ReplyFault.{ReplyFault};
ghost use Rattle.kx_partition.specs.declared.fault.ReplyFault.TheVariants.{Bytes, Memory};

use kx_batch::BatchFault;
use kx_message::ErrorCode;
use std::alloc::AllocError;
use thiserror::Error;

/// Why a fetch has no page. The partition is as before.
#[derive(Clone, Copy, Debug, PartialEq, Eq, Error)]
pub enum FetchFault {
    /// The fetch is refused, with the code that goes to the client.
    #[error("the fetch is refused with error code {0}")]
    Refused(ErrorCode),
    /// Memory ran out. Only a page that names aborted transactions asks for memory.
    #[error("out of memory")]
    Memory,
}

impl FetchFault {
    /// The number of the fault, 1 to 2.
    pub fn number(self) -> u8
        ensures { result ≡ number_of self }
    {
        match self {
            FetchFault::Refused(_) => 1,
            FetchFault::Memory => 2,
        }
    }
}

/// Why a message has no page.
#[derive(Clone, Copy, Debug, PartialEq, Eq, Error)]
pub enum ReplyFault {
    /// The message is no reply to a fetch, or one with an error code.
    #[error("the message has no page")]
    NoPage,
    /// Its bytes aren't batches one after the other: the fault of the first that isn't right.
    #[error("the page is damaged: {0}")]
    Bytes(BatchFault),
    /// Memory ran out. The message has a page, and the page names aborted transactions.
    #[error("out of memory")]
    Memory,
}

impl From<AllocError> for FetchFault {
    ghost from_gives = { λ refused fault. fault ≡ fetch.Memory };

    fn from(_refused: AllocError) -> FetchFault {
        FetchFault::Memory
    }
}

impl From<BatchFault> for ReplyFault {
    ghost from_gives = { λ damage fault. fault ≡ Bytes damage };

    fn from(damage: BatchFault) -> ReplyFault {
        ReplyFault::Bytes(damage)
    }
}

impl From<AllocError> for ReplyFault {
    ghost from_gives = { λ refused fault. fault ≡ Memory };

    fn from(_refused: AllocError) -> ReplyFault {
        ReplyFault::Memory
    }
}
