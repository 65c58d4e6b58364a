//! The other end of a connection.
use crate::outbox::{Outbox, Put};
use kx_message::Message;
use kx_notices::Closing;
use kx_stream::{FrameReader, StreamFault, send};
use libc::net::{SO_KEEPALIVE, SOL_SOCKET, setsockopt};
use std::alloc::{AllocError, Global};
use std::io;
use std::io::{Read, Write};
use std::net::{Shutdown, TcpStream};
use std::os::fd::AsRawFd;
use std::sync::{Mutex, Wait};
use std::time::{Clock, Duration};

// How long a connection that the server closes is read on without a byte, and in how many pieces.
const LINGER_MILLIS: u64 = 1000;

const LINGER_PIECES: usize = 512;

const LINGER_PIECE: usize = 8192;

// Has the system ask now and then whether the other end is still there: one that vanished is found.
// If this can't be had, it is found by what is written to it.
fn keep_alive(stream: &TcpStream) {
    let mut on = [0u8; 16];
    on[0] = 1;
    // SAFETY: the option's value is an int, of which `on` has the bytes, and the stream is open.
    let _ = unsafe { setsockopt(stream.as_raw_fd(), SOL_SOCKET, SO_KEEPALIVE, &on, 4) };
}

/// A connection, as the threads see it that answer over it.
#[derive(Drop)]
pub struct Peer {
    number: usize,
    stream: TcpStream,
    outbox: Outbox,
    // why it closes, if that is known
    why: Mutex<Option<Closing>>,
}

impl Peer {
    /// A connection of this number.
    pub(crate) fn new(alloc: Global, number: usize, stream: TcpStream) -> Peer {
        // Replies are small and are waited for. If this can't be had they come later.
        let _ = stream.set_nodelay(true);
        keep_alive(&stream);
        Peer {
            number,
            stream,
            outbox: Outbox::new(alloc),
            why: Mutex::new(None),
        }
    }

    /// The connection closes for this reason, unless it closes for another already.
    pub fn closes<R: Wait>(&self, rt: &R, why: Closing) {
        let mut first = self.why.lock(rt);
        if first.is_none() {
            *first = Some(why);
        }
    }

    /// Why the connection closes: by the client, if nothing else is known.
    pub(crate) fn why<R: Wait>(&self, rt: &R) -> Closing {
        (*self.why.lock(rt)).unwrap_or(Closing::Client)
    }

    /// The address of the other end, `?` if the system can't tell.
    ///
    /// # Errors
    ///
    /// Only if memory runs out.
    pub(crate) fn address(&self, alloc: Global) -> Result<String, AllocError> {
        match self.stream.peer_addr() {
            Ok(address) => format!(in alloc; "{address}"),
            Err(_) => format!(in alloc; "?"),
        }
    }

    /// The number of the connection.
    pub fn number(&self) -> usize {
        self.number
    }

    /// Waits for bytes, and returns the requests whose frames are whole then, in order. None where
    /// the other end has closed.
    pub(crate) fn next(
        &self,
        frames: &mut FrameReader,
    ) -> Result<Option<Vec<Message>>, StreamFault> {
        frames.next(&mut &self.stream)
    }

    /// Waits for bytes, and puts as many as arrived at the front of a piece. Returns how many, 0
    /// where the other end has closed.
    ///
    /// # Errors
    ///
    /// If the connection can't be read.
    pub fn read(&self, piece: &mut [u8]) -> io::Result<usize> {
        (&mut &self.stream).read(piece)
    }

    /// From now on a read waits at most this long, and then fails; with None it waits for ever. If the
    /// system can't do so, nothing changes.
    pub fn read_within(&self, patience: Option<Duration>) {
        let _ = self.stream.set_read_timeout(patience);
    }

    /// Writes bytes to the connection, and says whether all were written.
    pub fn write(&self, bytes: &[u8]) -> bool {
        (&mut &self.stream).write_all(bytes).is_ok()
    }

    /// Tells the other end that no more comes.
    pub fn end_writing(&self) {
        let _ = self.stream.shutdown(Shutdown::Write);
    }

    /// Waits for a reply of a node to the clients of this connection, at most this long, and takes
    /// the first. None if none waits by then.
    pub fn take_reply<R: Wait + Clock>(&self, rt: &R, patience: Duration) -> Option<Message> {
        self.outbox.next_within(rt, patience)
    }

    /// The port of the server, 0 if the system can't tell.
    pub fn port(&self) -> u16 {
        match self.stream.local_addr() {
            Ok(address) => address.port(),
            Err(_) => 0,
        }
    }

    /// Waits until few bytes wait to be written, and says whether the connection is open.
    pub(crate) fn is_ready<R: Wait>(&self, rt: &R) -> bool {
        self.outbox.is_ready(rt)
    }

    /// Answers over the connection, without waiting for it. A connection for which too much waits
    /// is closed at once; if it was closed before, the answer is dropped.
    pub(crate) fn answer<R: Wait>(&self, rt: &R, message: Message) {
        match self.outbox.put(rt, message) {
            Put::Taken | Put::Closed => {}
            Put::Refused => {
                self.closes(rt, Closing::Slow);
                self.hang_up(rt);
            }
        }
    }

    // Writes the answers that wait until the outbox is closed, and says whether all were written.
    fn write_all<R: Wait>(&self, rt: &R, alloc: Global) -> bool {
        for _ in rt.forever() {
            let Some(message) = self.outbox.next(rt) else {
                return true;
            };
            if send(alloc, &mut &self.stream, &message).is_err() {
                return false;
            }
        }
        unreachable!()
    }

    /// Writes what is answered, until the connection is closed, and then tells the other end that
    /// no more comes.
    pub(crate) fn write_answers<R: Wait>(&self, rt: &R, alloc: Global) {
        if self.write_all(rt, alloc) {
            self.end_writing();
        } else {
            self.closes(rt, Closing::Unwritten);
            self.hang_up(rt);
        }
    }

    /// Takes no more answers; what was answered is still written.
    pub fn finish<R: Wait>(&self, rt: &R) {
        self.outbox.close(rt);
    }

    /// Reads on for a while, and drops what comes. A connection that is given up while bytes wait
    /// to be read is reset, and the other end may lose answers that are on their way.
    // Closing a socket with bytes unread resets it, and answers on their way are lost at the other
    // end; so what arrives is read for a while and dropped.
    pub fn linger(&self) {
        let patience = Duration::from_millis(LINGER_MILLIS);
        if self.stream.set_read_timeout(Some(patience)).is_err() {
            return;
        }
        let mut piece = [0u8; LINGER_PIECE];
        for _ in 0..LINGER_PIECES {
            match (&mut &self.stream).read(&mut piece) {
                Ok(0) | Err(_) => break,
                Ok(_) => {}
            }
        }
    }

    /// Closes the connection: nothing more is read or written.
    pub fn hang_up<R: Wait>(&self, rt: &R) {
        self.outbox.close(rt);
        let _ = self.stream.shutdown(Shutdown::Both);
    }
}
