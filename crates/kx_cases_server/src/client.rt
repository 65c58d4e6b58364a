//! A client's end of a connection.
use kx_cases::StepFault;
use kx_message::LONGEST_FRAME;
use std::alloc::Global;
use std::io::{ErrorKind, Read, Write};
use std::net::{Net, Shutdown, TcpStream};
use std::thread;
use std::time::{Clock, Duration};

// How long a client waits for bytes. A server that is well answers far sooner.
const PATIENCE_SECONDS: u64 = 20;

// How often a request is sent until its reply is the one that is waited for, and after how long.
const TRIES: usize = 2000;

const PAUSE_MILLIS: u64 = 5;

/// A connection to a server on this machine, by the word that names it.
#[derive(Drop)]
pub(crate) struct Client {
    name: String,
    stream: TcpStream,
}

// The most frames that are read until a connection is closed.
const MOST_FRAMES: usize = 10_000;

// Where the kind of a frame is, and that of a page.
const KIND_PLACE: usize = 4;

const FETCH_REPLY: u8 = 12;

// A number of 32 bits, big-endian.
fn number_in(bytes: [u8; 4]) -> usize {
    u32::from_be_bytes(bytes) as usize
}

impl Client {
    /// Connects.
    pub(crate) fn open<R: Net<Stream = TcpStream>>(
        rt: &R,
        port: u16,
        name: String,
    ) -> Result<Client, StepFault> {
        let Ok(stream) = TcpStream::connect(rt, ("127.0.0.1", port)) else {
            return Err(StepFault::Unknown);
        };
        let patience = Duration::from_secs(PATIENCE_SECONDS);
        if stream.set_read_timeout(Some(patience)).is_err() || stream.set_nodelay(true).is_err() {
            return Err(StepFault::Unknown);
        }
        Ok(Client { name, stream })
    }

    /// Whether this is its name.
    pub(crate) fn is_named(&self, name: &str) -> bool {
        self.name.as_str() == name
    }

    /// Writes bytes, and says whether they were taken.
    pub(crate) fn send(&self, bytes: &[u8]) -> bool {
        (&mut &self.stream).write_all(bytes).is_ok()
    }

    /// Writes bytes in pieces of one byte, as far as they are taken.
    pub(crate) fn send_bytewise(&self, bytes: &[u8]) {
        for byte in bytes {
            if !self.send(&[*byte]) {
                break;
            }
        }
    }

    /// Sends nothing more.
    pub(crate) fn finish(&self) {
        let _is_finished = self.stream.shutdown(Shutdown::Write);
    }

    /// The next frame, its length in front. None if no whole frame comes in time.
    pub(crate) fn receive(&self, alloc: Global) -> Result<Option<Vec<u8>>, StepFault> {
        let mut front = [0u8; 4];
        if (&mut &self.stream).read_exact(&mut front).is_err() {
            return Ok(None);
        }
        let len = number_in(front);
        if len > LONGEST_FRAME {
            return Ok(None);
        }
        let mut rest = vec![in alloc; 0u8; len]?;
        if (&mut &self.stream).read_exact(rest.as_mut_slice()).is_err() {
            return Ok(None);
        }
        let mut frame = Vec::from_slice(alloc, front.as_slice())?;
        frame.extend_from_slice(rest.as_slice())?;
        Ok(Some(frame))
    }

    /// Sends a request, and says whether a frame comes back.
    pub(crate) fn is_answered(&self, alloc: Global, request: &[u8]) -> Result<bool, StepFault> {
        Ok(self.send(request) && self.receive(alloc)?.is_some())
    }

    /// Reads frames until the other end closes the connection, and gives how many of them are
    /// pages. Answers None if the connection doesn't close in time.
    pub(crate) fn pages(&self, alloc: Global) -> Result<Option<usize>, StepFault> {
        let mut pages = 0usize;
        for _ in 0..MOST_FRAMES {
            let Some(frame) = self.receive(alloc)? else {
                return Ok(if self.is_closed() { Some(pages) } else { None });
            };
            if frame.as_slice().get(KIND_PLACE) == Some(&FETCH_REPLY) {
                pages = pages.saturating_add(1);
            }
        }
        Ok(None)
    }

    /// Sends a request until this reply comes, and says whether it did. Other replies are passed
    /// over.
    pub(crate) fn ask_until<R: Clock>(
        &self,
        rt: &R,
        alloc: Global,
        request: &[u8],
        reply: &[u8],
    ) -> Result<bool, StepFault> {
        for _ in 0..TRIES {
            if !self.send(request) {
                return Ok(false);
            }
            let Some(frame) = self.receive(alloc)? else {
                return Ok(false);
            };
            if frame.as_slice() == reply {
                return Ok(true);
            }
            thread::sleep(rt, Duration::from_millis(PAUSE_MILLIS));
        }
        Ok(false)
    }

    /// Whether the server closes the connection without another byte.
    pub(crate) fn is_closed(&self) -> bool {
        let mut byte = [0u8; 1];
        match (&mut &self.stream).read(&mut byte) {
            Ok(count) => count == 0,
            Err(error) => error.kind() == ErrorKind::ConnectionReset,
        }
    }
}
