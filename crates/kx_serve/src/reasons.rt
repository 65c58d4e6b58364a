//! Why the system refuses what a fault of a server is about.
use crate::fault::ServeFault;
use kx_kafka_server::GatewayFault;
use kx_log::OpenFault;
use kx_server::NetFault;
use kx_trace_files::TraceFileFault;
use std::alloc::{AllocError, Global};
use std::fs::{File, Files, OpenOptions};
use std::io;
use std::net::{Net, TcpListener, TcpStream};

/// The folders of a server.
#[derive(Clone, Copy)]
pub struct Folders<'a> {
    /// That of the logs, if there is one.
    pub logs: Option<&'a str>,
    /// That of the traces, if there is one.
    pub traces: Option<&'a str>,
}

// The path of the file that the device fails, if it fails one.
fn failed_path(
    alloc: Global,
    fault: ServeFault,
    folders: Folders<'_>,
) -> Result<Option<String>, AllocError> {
    match (fault, folders.logs, folders.traces) {
        (
            ServeFault::Open {
                file,
                fault: OpenFault::Device,
            },
            Some(dir),
            _,
        ) => { Ok(Some(file.path_in(alloc, dir)?)) }
        (
            ServeFault::Trace {
                file,
                fault: TraceFileFault::Device,
            },
            _,
            Some(dir),
        ) => { Ok(Some(file.path_in(alloc, dir)?)) }
        (ServeFault::Gateway(GatewayFault::Device { file }), Some(dir), _) => {
            Ok(Some(format!(in alloc; "{dir}/{file}")?))
        }
        _ => Ok(None),
    }
}

// Why a file can't be opened to be read and written. None if it can.
fn refused_file<R: Files<File = File>>(rt: &R, path: &str) -> Option<io::Error> {
    OpenOptions::new()
        .read(true)
        .write(true)
        .open(rt, path)
        .err()
}

/// Why the system refuses the port or the file that a fault is about. A fault doesn't keep that, so
/// the system is asked once more. None if it refuses nothing, or not any more.
pub fn refusal<
    R: Net<Listener = TcpListener, Stream = TcpStream> + Files<File = File> + AllocGlobal,
>(rt: &R, fault: ServeFault, folders: Folders<'_>) -> Option<io::Error> {
    if let ServeFault::Net {
        port,
        fault: NetFault::Other,
    } = fault
    {
        return TcpListener::bind(rt, ("127.0.0.1", port)).err();
    }
    match failed_path(rt.alloc(), fault, folders) {
        Ok(Some(path)) => refused_file(rt, path.as_str()),
        Ok(None) | Err(_) => None,
    }
}
