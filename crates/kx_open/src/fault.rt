//! Why a transaction can't begin.
ghost use Rattle.std.specs.Prelude.{◌≡◌};
ghost use Rattle.kx_open.specs.Faults.{number_of};
ghost use Rattle.kx_open.specs.declared.fault.BeginFault.{BeginFault};

use crate::open::OpenTxn;
use std::alloc::AllocFailed;
use thiserror::Error;

/// Why a transaction can't begin. The open transactions are as before.
#[derive(Clone, Copy, Debug, PartialEq, Eq, Error)]
pub enum BeginFault {
    /// 1,024 transactions are open.
    #[error("too many transactions are open")]
    Full = 1,
    /// Memory ran out.
    #[error("out of memory")]
    Memory = 2,
}

impl BeginFault {
    /// The number of the fault, 1 to 2.
    pub fn number(self) -> u8
        ensures { result ≡ number_of self }
    {
        self as u8
    }
}

/// Out of memory is [`BeginFault::Memory`].
impl From<AllocFailed<OpenTxn>> for BeginFault {
    ghost from_gives = { λ refused fault. fault ≡ BeginFault.Memory };

    fn from(_refused: AllocFailed<OpenTxn>) -> Self {
        BeginFault::Memory
    }
}
