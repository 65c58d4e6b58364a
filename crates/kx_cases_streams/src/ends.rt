//! A reader that gives little at once and a writer that takes little, both of which fail in time.
use std::io;
use std::io::{ErrorKind, Read, Write};

/// Gives at most this many bytes at once, and fails after this many reads.
#[derive(Drop)]
pub(crate) struct Giving<'a> {
    pub(crate) rest: &'a [u8],
    pub(crate) most: usize,
    pub(crate) reads: usize,
}

impl<'a> Read for Giving<'a> {
    fn read(&mut self, buf: &mut [u8]) -> io::Result<usize> {
        if self.reads == 0 {
            return Err(io::Error::from(ErrorKind::ConnectionReset));
        }
        self.reads -= 1;
        let room = self.most.min(buf.len());
        self.rest.read(&mut buf[..room])
    }
}

/// Takes at most this many bytes at once, and fails after this many writes.
#[derive(Drop)]
pub(crate) struct Taking {
    pub(crate) taken: Vec<u8>,
    pub(crate) most: usize,
    pub(crate) writes: usize,
}

impl Write for Taking {
    fn write(&mut self, buf: &[u8]) -> io::Result<usize> {
        if self.writes == 0 {
            return Err(io::Error::from(ErrorKind::StorageFull));
        }
        self.writes -= 1;
        let len = self.most.min(buf.len());
        self.taken.write(&buf[..len])
    }

    fn flush(&mut self) -> io::Result<()> {
        Ok(())
    }
}
