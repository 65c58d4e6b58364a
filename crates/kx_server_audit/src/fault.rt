//! Why a server isn't audited.
ghost use Rattle.std.specs.Prelude.{◌≡◌};
ghost use Rattle.kx_server_audit.specs.declared.fault.AuditFault.TheVariants.{Memory};

use crate::file::AuditFile;
use std::alloc::AllocError;
use thiserror::Error;

/// Why a server isn't audited, or what was found can't be told. Nothing is known of the server then.
#[derive(Clone, Copy, Debug, PartialEq, Eq, Error)]
pub enum AuditFault {
    /// The folder has no traces.
    #[error("there are no traces")]
    NoTraces,
    /// The file can't be read.
    #[error("{0} cannot be read")]
    Read(AuditFile),
    /// The file's first bytes aren't those of a trace.
    #[error("{0} is not a trace")]
    NoTrace(AuditFile),
    /// The trace is of another version of the format.
    #[error("{0}: the trace has another version")]
    Version(AuditFile),
    /// The trace begins with a log that was there before, so it doesn't tell all steps of its node.
    #[error("{0}: the trace does not tell the steps before it")]
    Later(AuditFile),
    /// What was found can't be written. What of it was written isn't known.
    #[error("the audit cannot be written")]
    Write,
    /// Memory ran out.
    #[error("out of memory")]
    Memory,
}

impl AuditFault {
    ghost use Rattle.kx_server_audit.specs.Faults.{fault_number};

    /// The number of the fault: `NoTraces` 1, `Read` 2, `NoTrace` 3, `Version` 4, `Write` 5,
    /// `Memory` 6, `Later` 7, of whichever file.
    pub fn number(self) -> u8
        ensures { result ≡ fault_number self }
    {
        match self {
            AuditFault::NoTraces => 1,
            AuditFault::Read(_) => 2,
            AuditFault::NoTrace(_) => 3,
            AuditFault::Version(_) => 4,
            AuditFault::Write => 5,
            AuditFault::Memory => 6,
            AuditFault::Later(_) => 7,
        }
    }
}

/// Out of memory.
impl From<AllocError> for AuditFault {
    ghost from_gives = { λ refused fault. fault ≡ Memory };

    fn from(_: AllocError) -> Self {
        AuditFault::Memory
    }
}
