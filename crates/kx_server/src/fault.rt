//! Why a server doesn't serve.
ghost use Rattle.std.specs.Prelude.{◌≡◌};
ghost use Rattle.kx_server.specs.Faults.{server_fault_number};

use std::alloc::AllocError;
use std::fmt;
use std::fmt::{Display, Formatter};
use thiserror::Error;

/// Why the network fails.
#[derive(Clone, Copy, Debug, PartialEq, Eq)]
pub enum NetFault {
    /// The port can't be had, since another socket has it.
    InUse,
    /// Anything else.
    Other,
}

impl Display for NetFault {
    fn fmt<W: fmt::Write>(&self, f: &mut Formatter<W>) -> fmt::Result {
        f.write_str(match self {
            NetFault::InUse => "is in use",
            NetFault::Other => "cannot be used",
        })
    }
}

/// Why a server doesn't serve its connections to the end.
#[derive(Clone, Copy, Debug, PartialEq, Eq, Error)]
pub enum ServerFault {
    /// The port can't be had, or no connection can be taken on it.
    #[error("port {port} {fault}")]
    Net {
        /// The port, 0 if any was asked for and none could be had.
        port: u16,
        /// Why.
        fault: NetFault,
    },
    /// A line can't be written.
    #[error("the output cannot be written")]
    Write,
    /// Memory ran out, or a thread can't be started.
    #[error("out of memory")]
    Memory,
}

impl ServerFault {
    /// The number of the fault, by which another program knows it: `Net` 1, `Write` 2, `Memory` 4.
    pub fn number(self) -> u8
        ensures { result ≡ server_fault_number self }
    {
        match self {
            ServerFault::Net { .. } => 1,
            ServerFault::Write => 2,
            ServerFault::Memory => 4,
        }
    }
}

/// Memory ran out.
impl From<AllocError> for ServerFault {
    ghost use Rattle.kx_server.specs.declared.fault.ServerFault.TheVariants.{Memory};

    ghost from_gives = { λ refused fault. fault ≡ Memory };

    fn from(_: AllocError) -> Self {
        ServerFault::Memory
    }
}
