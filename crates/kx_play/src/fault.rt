//! Why playing has no end that could be audited.
ghost use Rattle.std.specs.Prelude.{◌≡◌};

use kx_nodes::NodeFault;
use kx_server::ServerFault;
use std::alloc::{AllocError, AllocFailed};
use thiserror::Error;

/// Why playing comes to no end that could be audited. All its threads have ended then.
#[derive(Clone, Copy, Debug, PartialEq, Eq, Error)]
pub enum PlayFault {
    /// A port of 127.0.0.1 can't be had, or a connection fails.
    #[error("the network fails")]
    Net,
    /// Memory ran out, or a thread can't be started.
    #[error("out of memory")]
    Memory,
    /// The clients looked for their next frames 1,000,000 times, and hadn't come to the end; or a
    /// node took as many inputs as a trace holds.
    #[error("gave up")]
    GaveUp,
}

/// Memory ran out.
impl From<AllocError> for PlayFault {
    ghost use Rattle.kx_play.specs.declared.fault.PlayFault.TheVariants.{Memory};

    ghost from_gives = { λ refused fault. fault ≡ Memory };

    fn from(_: AllocError) -> Self {
        PlayFault::Memory
    }
}

/// Memory ran out for what is put into a list or made to be shared, which is dropped.
impl<T: Drop> From<AllocFailed<T>> for PlayFault {
    ghost use Rattle.kx_play.specs.declared.fault.PlayFault.TheVariants.{Memory};

    ghost from_gives = { λ refused fault. fault ≡ Memory };

    fn from(_: AllocFailed<T>) -> Self {
        PlayFault::Memory
    }
}

/// A node that doesn't take an input, since memory ran out or its trace is full.
impl From<NodeFault> for PlayFault {
    fn from(fault: NodeFault) -> Self {
        match fault {
            NodeFault::Memory => PlayFault::Memory,
            NodeFault::TraceFull => PlayFault::GaveUp,
        }
    }
}

/// A server that serves no more: since the network fails, or memory or threads ran out.
impl From<ServerFault> for PlayFault {
    fn from(fault: ServerFault) -> Self {
        match fault {
            ServerFault::Net { .. } => PlayFault::Net,
            _ => PlayFault::Memory,
        }
    }
}

/// What was returned, if what came after it succeeded as well.
pub(crate) fn confirmed<T: Drop>(
    returned: Result<T, PlayFault>,
    after: Result<(), AllocError>,
) -> Result<T, PlayFault> {
    let value = returned?;
    after?;
    Ok(value)
}
