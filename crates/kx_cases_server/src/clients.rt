//! The connections of a session.
use crate::client::Client;
use kx_cases::{StepFault, told_bytes};
use std::alloc::Global;
use std::net::{Net, TcpStream};

// A request as the client of this number sends it, which is after the frame's length and kind.
fn of_client(alloc: Global, request: &[u8], number: u32) -> Result<Vec<u8>, StepFault> {
    let front = request.get(..5).ok_or(StepFault::Unknown)?;
    let back = request.get(9..).ok_or(StepFault::Unknown)?;
    let mut whole = Vec::from_slice(alloc, front)?;
    whole.extend_from_slice(number.to_be_bytes().as_slice())?;
    whole.extend_from_slice(back)?;
    Ok(whole)
}

// A frame with zeros in the place of each port that is after the server's address.
fn without_port(alloc: Global, frame: &[u8], port: u16) -> Result<Vec<u8>, StepFault> {
    let mut named = Vec::from_slice(alloc, b"127.0.0.1".as_slice())?;
    named.extend_from_slice(u32::from(port).to_be_bytes().as_slice())?;
    let mut hidden = Vec::new(alloc);
    let mut rest = frame;
    for _ in 0..frame.len() {
        let Some((first, after)) = rest.split_first() else {
            break;
        };
        match rest.strip_prefix(named.as_slice()) {
            Some(after) => {
                hidden.extend_from_slice(b"127.0.0.1\0\0\0\0".as_slice())?;
                rest = after;
            }
            None => {
                hidden.push(*first)?;
                rest = after;
            }
        }
    }
    Ok(hidden)
}

/// The connections of a session, each under a name.
#[derive(Drop)]
pub(crate) struct Clients {
    alloc: Global,
    clients: Vec<Client>,
}

impl Clients {
    /// A list of no connection.
    pub(crate) fn new(alloc: Global) -> Clients {
        Clients {
            alloc,
            clients: Vec::new(alloc),
        }
    }

    /// Connects, under this name.
    pub(crate) fn open<R: Net<Stream = TcpStream>>(
        &mut self,
        rt: &R,
        port: u16,
        name: &str,
    ) -> Result<(), StepFault> {
        let name = String::from_str(self.alloc, name)?;
        let client = Client::open(rt, port, name)?;
        self.clients.push(client)?;
        Ok(())
    }

    /// Connects so often under this name, and tells how many of the requests are answered of which
    /// each connection sends one.
    pub(crate) fn open_many<R: Net<Stream = TcpStream>>(
        &mut self,
        rt: &R,
        port: u16,
        name: &str,
        count: usize,
        request: &[u8],
    ) -> Result<usize, StepFault> {
        let mut answered = 0usize;
        for _ in 0..count {
            let name = String::from_str(self.alloc, name)?;
            let client = Client::open(rt, port, name)?;
            if client.is_answered(self.alloc, request)? {
                answered = answered.saturating_add(1);
            }
            self.clients.push(client)?;
        }
        Ok(answered)
    }

    /// Sends a request this often over each of two connections in turn, and gives how many are
    /// answered.
    pub(crate) fn take_turns(
        &self,
        first: &str,
        second: &str,
        count: usize,
        request: &[u8],
    ) -> Result<usize, StepFault> {
        let mut answered = 0usize;
        for _ in 0..count {
            for name in [first, second] {
                if self.named(name)?.is_answered(self.alloc, request)? {
                    answered = answered.saturating_add(1);
                }
            }
        }
        Ok(answered)
    }

    /// Sends a request for each of this many clients, from number 0 on, until one isn't answered,
    /// and gives how many are.
    pub(crate) fn speak_for(
        &self,
        name: &str,
        count: u32,
        request: &[u8],
    ) -> Result<usize, StepFault> {
        let client = self.named(name)?;
        let mut answered = 0usize;
        for number in 0..count {
            let request = of_client(self.alloc, request, number)?;
            if !client.is_answered(self.alloc, request.as_slice())? {
                break;
            }
            answered = answered.saturating_add(1);
        }
        Ok(answered)
    }

    /// Reports how many pages come over a connection until the server closes it.
    pub(crate) fn tell_pages(&self, name: &str, told: &mut String) -> Result<(), StepFault> {
        match self.named(name)?.pages(self.alloc)? {
            Some(count) => Ok(writeln!(told, "{name} {count} pages")?),
            None => Ok(writeln!(told, "{name} open")?),
        }
    }

    /// The first connection of a name.
    pub(crate) fn named(&self, name: &str) -> Result<&Client, StepFault> {
        self.clients
            .iter()
            .find(|client| client.is_named(name))
            .ok_or(StepFault::Unknown)
    }

    /// Closes the connections of a name.
    pub(crate) fn close(&mut self, name: &str) {
        self.clients.retain(|client| !client.is_named(name));
    }

    /// Closes all connections.
    pub(crate) fn close_all(&mut self) {
        self.clients.clear();
    }

    /// Reports the next frame that comes over a connection.
    pub(crate) fn tell_next(&self, name: &str, told: &mut String) -> Result<(), StepFault> {
        let frame = match self.named(name)?.receive(self.alloc)? {
            Some(frame) => told_bytes(self.alloc, frame.as_slice())?,
            None => String::from_str(self.alloc, "nothing")?,
        };
        Ok(writeln!(told, "{name} {frame}")?)
    }

    /// Reports the next frame that comes over a connection, with zeros if the server names its own
    /// port after its address.
    pub(crate) fn tell_portless(
        &self,
        name: &str,
        port: u16,
        told: &mut String,
    ) -> Result<(), StepFault> {
        let frame = match self.named(name)?.receive(self.alloc)? {
            Some(frame) => {
                let frame = without_port(self.alloc, frame.as_slice(), port)?;
                told_bytes(self.alloc, frame.as_slice())?
            }
            None => String::from_str(self.alloc, "nothing")?,
        };
        Ok(writeln!(told, "{name} {frame}")?)
    }

    /// Reports whether the server closes a connection.
    pub(crate) fn tell_closed(&self, name: &str, told: &mut String) -> Result<(), StepFault> {
        let word = if self.named(name)?.is_closed() {
            "closed"
        } else {
            "open"
        };
        Ok(writeln!(told, "{name} {word}")?)
    }
}
