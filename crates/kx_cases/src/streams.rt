//! Streams that fail in time.
use std::io;
use std::io::{BufRead, ErrorKind, Read, Write};

/// A reader that gives at most this many bytes at once, and fails after this many reads. It reads
/// if what the last read gave is used up.
#[derive(Drop)]
pub struct Giving<'a> {
    rest: &'a [u8],
    most: usize,
    reads: usize,
    // how many bytes of the last read are left
    left: usize,
}

impl<'a> Giving<'a> {
    /// Of these bytes; nothing is read yet.
    pub fn new(bytes: &'a [u8], most: usize, reads: usize) -> Self {
        Giving {
            rest: bytes,
            most,
            reads,
            left: 0,
        }
    }
}

impl<'a> Read for Giving<'a> {
    fn read(&mut self, buf: &mut [u8]) -> io::Result<usize> {
        let mut given = self.fill_buf()?;
        let count = given.read(buf)?;
        self.consume(count);
        Ok(count)
    }
}

impl<'a> BufRead for Giving<'a> {
    fn fill_buf(&mut self) -> io::Result<&[u8]> {
        if self.left == 0 {
            if self.reads == 0 {
                return Err(io::Error::from(ErrorKind::ConnectionReset));
            }
            self.reads -= 1;
            self.left = self.most.min(self.rest.len());
        }
        match self.rest.get(..self.left) {
            Some(given) => Ok(given),
            None => Ok(&[]),
        }
    }

    fn consume(&mut self, amount: usize) {
        self.left = self.left.saturating_sub(amount);
        self.rest.consume(amount);
    }
}

/// A writer that takes one byte at once, and has room for this many.
#[derive(Drop)]
pub struct Taking {
    /// What it took.
    pub taken: Vec<u8>,
    /// How many more it takes.
    pub room: usize,
}

impl Write for Taking {
    fn write(&mut self, buf: &[u8]) -> io::Result<usize> {
        if self.room == 0 {
            return Err(io::Error::from(ErrorKind::StorageFull));
        }
        self.room -= 1;
        self.taken.write(&buf[..buf.len().min(1)])
    }

    fn flush(&mut self) -> io::Result<()> {
        Ok(())
    }
}
