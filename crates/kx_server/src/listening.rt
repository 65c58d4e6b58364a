//! The port on which a server listens.
use crate::fault::{NetFault, ServerFault};
use std::io::ErrorKind;
use std::net::{Net, TcpListener, TcpStream};

/// A fault of a listener, with its port.
pub(crate) fn fault_of(listener: &TcpListener, fault: NetFault) -> ServerFault {
    let port = match listener.local_addr() {
        Ok(address) => address.port(),
        Err(_) => 0,
    };
    ServerFault::Net { port, fault }
}

/// The port of a listener.
pub(crate) fn port_of(listener: &TcpListener) -> Result<u16, ServerFault> {
    match listener.local_addr() {
        Ok(address) => Ok(address.port()),
        Err(_) => Err(fault_of(listener, NetFault::Other)),
    }
}

/// Listens on a port of 127.0.0.1.
pub(crate) fn listen<R: Net<Listener = TcpListener, Stream = TcpStream>>(
    rt: &R,
    port: u16,
) -> Result<TcpListener, ServerFault> {
    match TcpListener::bind(rt, ("127.0.0.1", port)) {
        Ok(listener) => Ok(listener),
        Err(error) => {
            let fault = match error.kind() {
                ErrorKind::AddrInUse => NetFault::InUse,
                _ => NetFault::Other,
            };
            Err(ServerFault::Net { port, fault })
        }
    }
}
