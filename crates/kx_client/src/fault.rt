//! Why a client hands nothing out.
ghost use Rattle.std.specs.Prelude.{◌≡◌};
ghost use Rattle.kx_client.specs.Calls.{number_of};
ghost use Rattle.kx_client.specs.declared.fault.ClientFault.TheVariants.{Memory};

use std::alloc::AllocError;
use thiserror::Error;

/// Why a client refuses a command. A refused command changes nothing.
#[derive(Clone, Copy, Debug, PartialEq, Eq, Drop, Error)]
pub enum ClientFault {
    /// The client isn't in the state for it: it has an id already, or none yet; it is in a
    /// transaction already, or in none; it isn't in a group, or in another; or the end of its
    /// transaction is unanswered.
    #[error("the client isn't ready for this")]
    NotReady = 1,
    /// Something is unanswered that has to be answered first.
    #[error("a request is unanswered")]
    InFlight = 2,
    /// Five batches to the partition are unanswered.
    #[error("five batches to the partition are unanswered")]
    WindowFull = 3,
    /// The client has failed for good.
    #[error("the client has failed")]
    Failed = 4,
    /// The client has no transactional id.
    #[error("the client has no transactional id")]
    NotTransactional = 5,
    /// No sequence of the partition, or no number for the request, is left.
    #[error("no sequence or no request number is left")]
    UsedUp = 6,
    /// The transaction has to be aborted.
    #[error("the transaction has to be aborted")]
    MustAbort = 7,
    /// The records don't fit a batch of 1,048,588 bytes.
    #[error("the batch is too large")]
    TooLarge = 8,
    /// Memory ran out.
    #[error("out of memory")]
    Memory = 9,
}

impl ClientFault {
    /// The number of the fault, 1 to 9.
    pub fn number(self) -> u8
        ensures { result ≡ number_of self }
    {
        self as u8
    }
}

impl From<AllocError> for ClientFault {
    ghost from_gives = { λ _ fault. fault ≡ Memory };

    fn from(_refused: AllocError) -> ClientFault {
        ClientFault::Memory
    }
}
