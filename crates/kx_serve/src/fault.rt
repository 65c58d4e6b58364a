//! Why a server doesn't serve.
ghost use Rattle.std.specs.Prelude.{◌≡◌};
ghost use Rattle.kx_serve.specs.Faults.{about_of, fault_number};

use crate::files::LogFile;
use crate::listing::FolderFile;
use kx_ends::EndFault;
use kx_folder::{FileFault, ListFault};
use kx_kafka_server::GatewayFault;
use kx_log::OpenFault;
use kx_server::{NetFault, ServerFault};
use kx_sums::SumFault;
use kx_trace_files::{TraceFileFault, TraceName};
use std::alloc::AllocError;
use std::io::ErrorKind;
use thiserror::Error;

/// What a fault of a server is about.
#[derive(Clone, Copy, Debug, PartialEq, Eq)]
pub enum About {
    /// The fault is about nothing that is in a folder.
    Neither,
    /// The folder of the logs.
    Logs,
    /// The folder of the traces.
    Traces,
    /// A file in the folder of the logs, with whose name the fault's words begin.
    InLogs,
    /// A file in the folder of the traces, with whose name the fault's words begin.
    InTraces,
}

/// Why a server doesn't serve its connections to the end.
#[derive(Clone, Copy, Debug, PartialEq, Eq, Error)]
pub enum ServeFault {
    /// The port can't be had, or no connection can be taken on it.
    #[error("port {port} {fault}")]
    Net {
        /// The port, 0 if any was asked for and none could be had.
        port: u16,
        /// Why.
        fault: NetFault,
    },
    /// A line can't be written.
    #[error("the output cannot be written")]
    Write,
    /// The log in this file can't be opened. Nothing was served; files of other logs may have lost
    /// a torn tail, and the coordinator's may have its next epoch.
    #[error("{file}: {fault}")]
    Open {
        /// The file.
        file: LogFile,
        /// Why.
        fault: OpenFault,
    },
    /// The log in this file isn't the one that was written, by the checksums beside it. Nothing was
    /// served, and the log stays as it is.
    #[error("{file}: {fault}, by the checksums beside it")]
    Changed {
        /// The file.
        file: LogFile,
        /// How it differs.
        fault: SumFault,
    },
    /// The checksums of the log in this file can't be opened, read or cut. Nothing was served.
    #[error("{file}: its checksums cannot be read")]
    Sums {
        /// The file.
        file: LogFile,
    },
    /// Opening the log in this file would cut off more than an append that was cut short. Nothing was
    /// served, and the folder stays as it is.
    #[error("{file}: {fault}: acknowledged batches would be lost; restore the file from a copy")]
    End {
        /// The file.
        file: LogFile,
        /// What would be cut off.
        fault: EndFault,
    },
    /// The log in this file names producer ids that the coordinator would allocate again, and a start
    /// would have to pass over more than 65,536 of them. Nothing was served, and the folder stays as it is.
    #[error("{file}: its producer ids are {count} above those of co.log; restore the one of the two that was changed from a copy")]
    Ids {
        /// The file.
        file: LogFile,
        /// How many ids would have to be passed over.
        count: u64,
    },
    /// This file isn't the one that is listed for the folder. Nothing was served, and the folder stays
    /// as it is.
    #[error("{file}: {fault}, by the list in folder; restore the file from a copy, or remove its lines from folder, and its .sum file, to go on without it")]
    Listed {
        /// The file.
        file: FolderFile,
        /// How it differs.
        fault: FileFault,
    },
    /// The list of the folder's files, the file `folder`, is damaged. Nothing was served, and the folder
    /// stays as it is.
    #[error("folder: {fault}; restore the file, or remove it to have the list made anew")]
    List {
        /// Where.
        fault: ListFault,
    },
    /// Memory ran out, or a thread can't be started.
    #[error("out of memory")]
    Memory,
    /// The folder of the logs has the empty name or can't be made, or its lock can't be had.
    #[error("the folder cannot be used: {why}")]
    Folder {
        /// What the system says.
        why: ErrorKind,
    },
    /// Another server keeps its logs in the folder.
    #[error("another server has the folder")]
    InUse,
    /// The coordinator's log has a transaction that is owed a marker in the log of this file, and
    /// the file is missing, or the server is to serve fewer partitions. Nothing was served; the
    /// coordinator's log may have its next epoch.
    #[error("{file}: the log is missing, and a transaction of co.log needs it")]
    NotWhole {
        /// The file.
        file: LogFile,
    },
    /// The folder of the traces has the empty name or can't be made, or its lock can't be had.
    #[error("the folder of traces cannot be used: {why}")]
    TraceFolder {
        /// What the system says.
        why: ErrorKind,
    },
    /// Another server keeps its traces in the folder.
    #[error("another server has the folder of traces")]
    TracesInUse,
    /// The trace in this file can't be opened or written. Nothing was served; other files are left
    /// as by `Open`.
    #[error("{file}: {fault}")]
    Trace {
        /// The file.
        file: TraceName,
        /// Why.
        fault: TraceFileFault,
    },
    /// The log in this file is older than its trace, which tells of no step of it, and traces of other
    /// nodes tell of theirs. All traces of a server begin at one start, or with empty logs.
    #[error("{file}: the log is older than its trace")]
    Untold {
        /// The file.
        file: LogFile,
    },
    /// The trace in this file tells of a log that was in memory.
    #[error("{file}: the trace is of a log that was in memory")]
    Gone {
        /// The file.
        file: TraceName,
    },
    /// A server ran on the logs without the traces of which this is one: they don't tell its steps.
    #[error("{file}: a server ran on these logs without it; --new-traces begins the traces anew")]
    Elsewhere {
        /// The file.
        file: TraceName,
    },
    /// Stock clients can't be served.
    #[error("{0}")]
    Gateway(GatewayFault),
}

impl ServeFault {
    /// The number of the fault, by which another program knows it: `Net` 1, `Write` 2, `Open` 3,
    /// `Memory` 4, `Folder` 6, `InUse` 7, `NotWhole` 9, `TraceFolder` 10, `TracesInUse` 11, `Trace`
    /// 12, `Untold` 13, `Gone` 14, `Gateway` 15, `Elsewhere` 16, `Changed` 17, `Sums` 18,
    /// `End` 19, `Ids` 20, `Listed` 21, `List` 22.
    pub fn number(self) -> u8
        ensures { result ≡ fault_number self }
    {
        match self {
            ServeFault::Net { .. } => 1,
            ServeFault::Write => 2,
            ServeFault::Open { .. } => 3,
            ServeFault::Memory => 4,
            ServeFault::Folder { .. } => 6,
            ServeFault::InUse => 7,
            ServeFault::NotWhole { .. } => 9,
            ServeFault::TraceFolder { .. } => 10,
            ServeFault::TracesInUse => 11,
            ServeFault::Trace { .. } => 12,
            ServeFault::Untold { .. } => 13,
            ServeFault::Gone { .. } => 14,
            ServeFault::Gateway(_) => 15,
            ServeFault::Elsewhere { .. } => 16,
            ServeFault::Changed { .. } => 17,
            ServeFault::Sums { .. } => 18,
            ServeFault::End { .. } => 19,
            ServeFault::Ids { .. } => 20,
            ServeFault::Listed { .. } => 21,
            ServeFault::List { .. } => 22,
        }
    }

    /// What the fault is about.
    pub fn about(self) -> About
        ensures { result ≡ about_of self }
    {
        match self {
            ServeFault::Net { .. } | ServeFault::Write | ServeFault::Memory => About::Neither,
            ServeFault::Folder { .. } | ServeFault::InUse => About::Logs,
            ServeFault::TraceFolder { .. } | ServeFault::TracesInUse => About::Traces,
            ServeFault::Open { .. } | ServeFault::NotWhole { .. } => About::InLogs,
            ServeFault::Changed { .. } | ServeFault::Sums { .. } => About::InLogs,
            ServeFault::End { .. } | ServeFault::Ids { .. } => About::InLogs,
            ServeFault::Listed { .. } | ServeFault::List { .. } => About::InLogs,
            ServeFault::Untold { .. } | ServeFault::Gateway(_) => About::InLogs,
            ServeFault::Trace { .. } | ServeFault::Gone { .. } => About::InTraces,
            ServeFault::Elsewhere { .. } => About::InTraces,
        }
    }
}

/// Memory ran out.
impl From<AllocError> for ServeFault {
    ghost use Rattle.kx_serve.specs.declared.fault.ServeFault.TheVariants.{Memory};

    ghost from_gives = { λ refused fault. fault ≡ Memory };

    fn from(_: AllocError) -> Self {
        ServeFault::Memory
    }
}

/// A fault of the server's threads keeps its number.
impl From<ServerFault> for ServeFault {
    fn from(fault: ServerFault) -> Self {
        match fault {
            ServerFault::Net { port, fault } => ServeFault::Net { port, fault },
            ServerFault::Write => ServeFault::Write,
            ServerFault::Memory => ServeFault::Memory,
        }
    }
}

/// A fault of the gateway is [`ServeFault::Gateway`]; out of memory is [`ServeFault::Memory`].
impl From<GatewayFault> for ServeFault {
    fn from(fault: GatewayFault) -> Self {
        match fault {
            GatewayFault::Memory => ServeFault::Memory,
            fault => ServeFault::Gateway(fault),
        }
    }
}
