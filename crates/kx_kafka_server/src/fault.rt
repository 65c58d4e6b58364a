//! Why stock clients aren't served.
use kx_sums::SumFault;
use std::alloc::AllocError;
use std::fmt;
use std::fmt::{Display, Formatter};
use thiserror::Error;

/// A file that the gateway keeps beside the logs.
#[derive(Clone, Copy, Debug, PartialEq, Eq)]
pub enum GatewayFile {
    /// `topics`: the table of topics.
    Topics,
    /// `clients`: how many blocks of client numbers were reserved.
    Clients,
}

impl Display for GatewayFile {
    fn fmt<W: fmt::Write>(&self, f: &mut Formatter<W>) -> fmt::Result {
        f.write_str(match self {
            GatewayFile::Topics => "topics",
            GatewayFile::Clients => "clients",
        })
    }
}

/// Why stock clients aren't served. A file of the gateway may have lost a torn last line, and may
/// have topics that were asked for.
#[derive(Clone, Copy, Debug, PartialEq, Eq, Error)]
pub enum GatewayFault {
    /// Memory ran out.
    #[error("out of memory")]
    Memory,
    /// A line of a file, counted from 1, isn't what the gateway writes.
    #[error("{file}: line {line} is damaged")]
    Damaged {
        /// The file.
        file: GatewayFile,
        /// The line.
        line: u32,
    },
    /// A file can't be read or written.
    #[error("{file}: the device failed")]
    Device {
        /// The file.
        file: GatewayFile,
    },
    /// A file isn't the one that was written, by the checksums beside it.
    #[error("{file}: {fault}, by the checksums beside it")]
    Changed {
        /// The file.
        file: GatewayFile,
        /// How it differs.
        fault: SumFault,
    },
    /// The checksums of a file can't be opened, read or cut.
    #[error("{file}: its checksums cannot be read")]
    Sums {
        /// The file.
        file: GatewayFile,
    },
    /// The file `clients` says that all numbers are reserved that clients may have.
    #[error("clients: no number is left for a client, all below 2147483648 are reserved")]
    Numbers,
    /// A topic that was asked for is in the file with another number of partitions.
    #[error("topics: topic {topic} of --topics has {count} partitions there")]
    Differs {
        /// Which of the topics that were asked for, counted from 1.
        topic: usize,
        /// How many partitions the file says.
        count: u16,
    },
    /// A topic that was asked for has more partitions than are free beside those of the file.
    #[error("topics: for topic {topic} of --topics {free} partitions are free")]
    Full {
        /// Which of the topics that were asked for, counted from 1.
        topic: usize,
        /// How many partitions are free.
        free: u16,
    },
}

/// Memory ran out.
impl From<AllocError> for GatewayFault {
    fn from(_: AllocError) -> Self {
        GatewayFault::Memory
    }
}
