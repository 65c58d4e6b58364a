//! What a server prints, as another thread reads it.
use crossbeam_channel::{Receiver, Sender};
use std::alloc::{AllocError, Global};
use std::io;
use std::io::{ErrorKind, Write};
use std::sync::Wait;

/// A writer whose lines another thread takes.
#[derive(Drop)]
pub(crate) struct Lines<R: Wait + Drop> {
    rt: R,
    alloc: Global,
    line: Vec<u8>,
    to: Sender<Vec<u8>>,
}

impl<R: Wait + Drop> Lines<R> {
    /// A writer, and where its lines come.
    pub(crate) fn new(rt: R, alloc: Global) -> Result<(Self, Receiver<Vec<u8>>), AllocError> {
        let (to, from) = crossbeam_channel::unbounded(alloc)?;
        let line = Vec::new(alloc);
        Ok((
            Lines {
                rt,
                alloc,
                line,
                to,
            },
            from,
        ))
    }

    // Takes a byte.
    fn put(&mut self, byte: u8) -> io::Result<()> {
        if byte != b'\n' {
            self.line.push(byte)?;
            return Ok(());
        }
        let line = Vec::from_slice(self.alloc, self.line.as_slice())?;
        self.line.clear();
        match self.to.send(&self.rt, line) {
            Ok(()) => Ok(()),
            Err(_) => Err(io::Error::from(ErrorKind::BrokenPipe)),
        }
    }
}

impl<R: Wait + Drop> Write for Lines<R> {
    fn write(&mut self, buf: &[u8]) -> io::Result<usize> {
        for byte in buf {
            self.put(*byte)?;
        }
        Ok(buf.len())
    }

    fn flush(&mut self) -> io::Result<()> {
        Ok(())
    }
}

/// The next line. None if no more comes.
pub(crate) fn next_line<R: Wait>(
    rt: &R,
    alloc: Global,
    from: &Receiver<Vec<u8>>,
) -> Result<Option<String>, AllocError> {
    let Ok(line) = from.recv(rt) else {
        return Ok(None);
    };
    match str::from_utf8(line.as_slice()) {
        Ok(line) => Ok(Some(String::from_str(alloc, line)?)),
        Err(_) => Ok(None),
    }
}
