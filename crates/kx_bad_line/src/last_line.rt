//! A reader that keeps the line that was read last.
ghost use Rattle.std.specs.Prelude.{◌≡◌};
ghost use Rattle.std.specs.Io.KnownBytes.{Keeps};

use std::alloc::Global;
use std::io;
use std::io::{BufRead, Read};

// How many bytes of a line are kept at most.
const LONGEST: usize = 65_536;

/// A reader that keeps the line that was read last, while that has at most 65,536 bytes and there is
/// memory for them. It reads as the reader that it has.
#[derive(Drop)]
pub struct LastLine<R> {
    reader: R,
    line: Vec<u8>,
    // what of the bytes that are shown is of the same line
    shown: Vec<u8>,
    // whether its newline was taken, so that the next bytes begin another
    is_ended: bool,
    // whether it wasn't kept whole
    is_cut: bool,
}

// Puts bytes into a line, if there is room.
fn keep(line: &mut Vec<u8>, bytes: &[u8]) -> bool {
    line.len().saturating_add(bytes.len()) <= LONGEST && line.extend_from_slice(bytes).is_ok()
}

// The bytes up to the first newline, with it.
fn front_of(bytes: &[u8]) -> &[u8] {
    match bytes.iter().position(|byte| *byte == b'\n') {
        Some(place) => bytes.get(..=place).unwrap_or(bytes),
        None => bytes,
    }
}

impl<R> LastLine<R> {
    /// A reader of which nothing was read yet. Takes no memory.
    pub fn new(alloc: Global, reader: R) -> LastLine<R>
        ensures { result.reader ≡ reader }
    {
        LastLine {
            reader,
            line: Vec::new(alloc),
            shown: Vec::new(alloc),
            is_ended: false,
            is_cut: false,
        }
    }

    /// The line that was read last, with its newline. None if it wasn't kept whole.
    pub fn line(&self) -> Option<&[u8]> {
        if self.is_cut {
            None
        } else {
            Some(self.line.as_slice())
        }
    }

    // Begins another line, if the newline of the last one was taken.
    fn begin(&mut self)
        ensures { self.new.reader ≡ self.old.reader }
    {
        if self.is_ended {
            self.line.clear();
            self.is_ended = false;
            self.is_cut = false;
        }
    }

    // Notes that n of the bytes that were shown were taken.
    fn pass(&mut self, amount: usize)
        ensures { self.new.reader ≡ self.old.reader }
    {
        self.begin();
        let is_kept = match self.shown.get(..amount) {
            Some(taken) => keep(&mut self.line, taken),
            None => false,
        };
        self.is_cut = self.is_cut || !is_kept;
        self.is_ended = amount >= self.shown.len() && self.shown.ends_with(b"\n".as_slice());
        self.shown.clear();
    }
}

impl<R: BufRead> LastLine<R> {
    // Notes which bytes are shown.
    fn show(&mut self) -> io::Result<()>
        ensures { Keeps (R.remaining self.old.reader) (R.remaining self.new.reader) }
    {
        let shown = self.reader.fill_buf()?;
        self.shown.clear();
        let _is_kept = keep(&mut self.shown, front_of(shown));
        Ok(())
    }
}

impl<R: Read> Read for LastLine<R> {
    ghost remaining = { λ r. R.remaining r.reader };

    fn read(&mut self, buf: &mut [u8]) -> io::Result<usize> {
        self.is_cut = true;
        self.reader.read(buf)
    }
}

impl<R: BufRead> BufRead for LastLine<R> {
    ghost consumable_len = { λ r. R.consumable_len r.reader };

    fn fill_buf(&mut self) -> io::Result<&[u8]> {
        self.show()?;
        self.reader.fill_buf()
    }

    fn consume(&mut self, amount: usize) {
        self.pass(amount);
        self.reader.consume(amount);
    }
}
