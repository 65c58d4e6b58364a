//! A reader that counts its reads, and what a failed one is to a script.
ghost use Rattle.std.specs.Prelude.{◌≡◌, ◌≤◌, ◌↔◌, ◌+◌, ◌<◌, ◌^◌, IsTrue, MatchResult, OnErr, OnOk};
ghost use Rattle.std.specs.Prelude.{false};
ghost use Rattle.std.specs.Io.KnownBytes.{IsAtEnd, Keeps};
ghost use Rattle.std.specs.IoError.{error_kind};
ghost use Rattle.kx_text.specs.Reads.{fault_of_kind};

use crate::fault::ScriptFault;
use std::io;
use std::io::{BufRead, ErrorKind, Read};

// How many reads a call over a reader makes at most.
const MOST_READS: u64 = 1 << 32;

/// What a failed read is to a script: `Memory` if its buffer can't be had, else `Read`.
pub fn read_fault(failed: &io::Error) -> ScriptFault
    ensures { result ≡ fault_of_kind (error_kind failed.now) }
{
    match failed.kind() {
        ErrorKind::OutOfMemory => ScriptFault::Memory,
        _ => ScriptFault::Read,
    }
}

/// Whether a call that has made n reads may make one more: it makes 2^32 at most.
pub fn may_read(made: u64) -> bool
    ensures { IsTrue result ↔ made < 2 ^ 32 }
{
    made < MOST_READS
}

/// A reader that counts the reads it makes of another one, and fails in place of the read after
/// 2^32 of them. Looking at bytes that an earlier read gave is no read. It keeps whether the last
/// read failed.
#[derive(Drop)]
pub struct CountedReads<R> {
    reader: R,
    made: u64,
    // how many bytes of the last read are left
    left: usize,
    // whether the last read or look failed
    failed: bool,
}

impl<R> CountedReads<R> {
    ghost use Rattle.kx_text.specs.Reads.{IsOver};

    /// A reader that has made no read yet.
    pub fn new(reader: R) -> CountedReads<R>
        ensures reader { result.reader ≡ reader }
        ensures made { result.made ≡ 0 }
        ensures failed { result.failed ≡ false }
    {
        CountedReads {
            reader,
            made: 0,
            left: 0,
            failed: false,
        }
    }

    /// Whether no more is read: the last read failed, or 2^32 reads were made.
    pub fn is_over(&self) -> bool
        ensures { IsTrue result ↔ IsOver self.now }
    {
        self.failed || !may_read(self.made)
    }

    // Counts a read, which fails if no more may be made.
    fn count(&mut self) -> io::Result<()>
        ensures reader { self.new.reader ≡ self.old.reader }
        ensures made { MatchResult result (λ _. self.new.made ≡ self.old.made + 1)
            (λ _. 2 ^ 32 ≤ self.new.made) }
    {
        if !may_read(self.made) {
            return Err(io::Error::from(ErrorKind::FileTooLarge));
        }
        self.made += 1;
        Ok(())
    }

    // Counts a read if the bytes of the last one are used up: to look at them again is no read.
    fn count_if_used_up(&mut self) -> io::Result<()>
        ensures reader { self.new.reader ≡ self.old.reader }
        ensures over { OnErr result (2 ^ 32 ≤ self.new.made) }
    {
        if self.left == 0 {
            self.count()?;
        }
        Ok(())
    }
}

impl<R: BufRead> CountedReads<R> {
    ghost use Rattle.kx_text.specs.Reads.{IsOver};

    // Looks at the bytes that are there next, by a read if those of the last one are used up.
    fn look(&mut self) -> io::Result<()>
        ensures kept { Keeps (R.remaining self.old.reader) (R.remaining self.new.reader) }
        ensures end { OnOk result (self.new.left ≡ 0 → IsAtEnd (R.remaining self.old.reader)) }
        ensures works { OnOk result (self.new.failed ≡ false) }
        ensures over { OnErr result (IsOver self.new) }
    {
        self.count_if_used_up()?;
        self.failed = true;
        self.left = self.reader.fill_buf()?.len();
        self.failed = false;
        Ok(())
    }
}

impl<R: Read> Read for CountedReads<R> {
    ghost remaining = { λ r. R.remaining r.reader };

    fn read(&mut self, buf: &mut [u8]) -> io::Result<usize> {
        self.count()?;
        self.failed = true;
        let count = self.reader.read(buf)?;
        self.failed = false;
        self.left = self.left.saturating_sub(count);
        Ok(count)
    }
}

impl<R: BufRead> BufRead for CountedReads<R> {
    ghost consumable_len = { λ r. R.consumable_len r.reader };

    fn fill_buf(&mut self) -> io::Result<&[u8]> {
        self.look()?;
        if self.left == 0 {
            return Ok(&[]);
        }
        self.reader.fill_buf()
    }

    fn consume(&mut self, amount: usize) {
        self.left = self.left.saturating_sub(amount);
        self.reader.consume(amount);
    }
}
