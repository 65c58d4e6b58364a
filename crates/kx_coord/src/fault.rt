//! Why a coordinator isn't restarted.
ghost use Rattle.std.specs.Prelude.{◌≡◌};
ghost use Rattle.kx_coord.specs.declared.fault.RestartFault.{RestartFault};

use kx_log::OpenFault;
use thiserror::Error;

/// Why a coordinator isn't restarted.
#[derive(Clone, Copy, Debug, PartialEq, Eq, Drop, Error)]
pub enum RestartFault {
    /// Its log isn't opened again, for this fault. [`OpenFault::Device`] says that the device
    /// failed as the log was read.
    #[error("the log isn't opened: {0}")]
    Unopened(OpenFault),
    /// The log was read, but the device failed as the new coordinator epoch was written. The
    /// store's count of failures rose in this call.
    #[error("the device failed as the coordinator epoch was written")]
    Unwritten,
}

impl From<OpenFault> for RestartFault {
    ghost from_gives = { λ fault refused. refused ≡ RestartFault.Unopened fault };

    fn from(fault: OpenFault) -> RestartFault {
        RestartFault::Unopened(fault)
    }
}
