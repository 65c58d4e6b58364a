//! Frames as they are read from a socket.
use kx_message::Message;
use kx_stream::FrameReader;
use std::alloc::{AllocError, Global};
use std::net::TcpStream;

/// The frames that the other end of a connection sends.
#[derive(Drop)]
pub struct FrameStream {
    stream: TcpStream,
    frames: FrameReader,
}

impl FrameStream {
    /// The frames of a connection of which nothing was read.
    ///
    /// # Errors
    ///
    /// Only if memory runs out.
    pub fn new(alloc: Global, stream: TcpStream) -> Result<FrameStream, AllocError> {
        Ok(FrameStream {
            stream,
            frames: FrameReader::new(alloc)?,
        })
    }

    /// Waits for bytes, and returns the messages whose frames are whole then, in order. None where
    /// the other end has closed, the connection fails, bytes are no frame, or memory runs out.
    pub fn next(&mut self) -> Option<Vec<Message>> {
        self.frames.next(&mut self.stream).ok()?
    }
}
