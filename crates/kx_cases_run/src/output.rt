//! A standard stream that the program writes.
use std::io::{ErrorKind, Write};
use std::net::{Net, TcpStream};
use std::{io, str};

/// What was written, with room for n bytes more. Once a server reports its port, clients
/// connect to it, and close their connections.
#[derive(Drop)]
pub(crate) struct Output<R: Drop> {
    rt: R,
    taken: Vec<u8>,
    room: usize,
    clients: usize,
}

// The port that a server tells, once the line is whole.
fn port_in(taken: &[u8]) -> Option<u16> {
    let text = str::from_utf8(taken).ok()?;
    let (word, _) = text.strip_prefix("listening ")?.split_once('\n')?;
    word.parse::<u16>().ok()
}

impl<R: Drop> Output<R> {
    /// An output to which nothing is written yet, with room for `room` bytes. Once a server reports
    /// its port, `clients` clients connect.
    pub(crate) fn new(rt: R, taken: Vec<u8>, room: usize, clients: usize) -> Self {
        Output {
            rt,
            taken,
            room,
            clients,
        }
    }

    /// What was written.
    pub(crate) fn text(&self) -> &str {
        str::from_utf8(self.taken.as_slice()).unwrap_or("?")
    }
}

impl<R: Net<Stream = TcpStream> + Drop> Output<R> {
    // Lets the clients connect.
    fn connect(&mut self, port: u16) -> io::Result<()> {
        for _ in 0..self.clients {
            drop(TcpStream::connect(&self.rt, ("127.0.0.1", port))?);
        }
        self.clients = 0;
        Ok(())
    }
}

impl<R: Net<Stream = TcpStream> + Drop> Write for Output<R> {
    fn write(&mut self, buf: &[u8]) -> io::Result<usize> {
        let count = buf.len().min(self.room);
        if count == 0 {
            return Err(io::Error::from(ErrorKind::StorageFull));
        }
        let taken = self.taken.write(&buf[..count])?;
        self.room = self.room.saturating_sub(taken);
        if let Some(port) = port_in(self.taken.as_slice()) {
            self.connect(port)?;
        }
        Ok(taken)
    }

    fn flush(&mut self) -> io::Result<()> {
        Ok(())
    }
}
