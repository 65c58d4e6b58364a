//! The sources of traces, which are read in pieces.
ghost use Rattle.std.specs.Prelude.{◌≡◌, ◌≤◌, ◌<◌, ◌++◌, ℕ, IfOk, List, OnErr, OnOk, length, take};
ghost use Rattle.std.specs.Prelude.{false, true};
ghost use Rattle.std.specs.Io.KnownBytes.{Consumes, IsAtEnd, Keeps};

use std::alloc::AllocError;
use std::io::Read;

// How many bytes a source is asked for at once, if no more are needed.
const PIECE: usize = 16_384;

// A source that was asked for this many bytes isn't asked for more.
const LARGEST: usize = 1 << 40;

/// A trace that is read after its head, and how far.
#[derive(Drop)]
pub(crate) struct Source<I: Read + Drop> {
    pub(crate) reader: I,
    /// Whether it was read to its end.
    pub(crate) is_ended: bool,
    /// How many bytes it is asked for next, if that is more than a piece.
    pub(crate) ask: usize,
}

/// Why no more of a source is read.
#[derive(Clone, Copy)]
pub(crate) enum SourceFault {
    /// Reading failed.
    Read,
    /// Memory ran out.
    Memory,
}

/// Out of memory is [`SourceFault::Memory`].
impl From<AllocError> for SourceFault {
    ghost use Rattle.kx_server_audit.specs.declared.sources.SourceFault.TheVariants.{Memory};

    ghost from_gives = { λ refused fault. fault ≡ Memory };

    fn from(_: AllocError) -> Self {
        SourceFault::Memory
    }
}

// Makes a piece this long.
fn set_len(piece: &mut Vec<u8>, len: usize) -> Result<(), AllocError>
    ensures { OnOk result (length piece.new.items ≡ len) }
{
    piece.resize(len, 0)?;
    Ok(())
}

// Reads once, into the piece, and answers how many bytes.
fn read_once<I: Read>(reader: &mut I, piece: &mut Vec<u8>) -> Result<usize, SourceFault>
    requires { 0 < length piece.old.items }
    ensures within { IfOk result (λ count. count ≤ length piece.new.items) }
    ensures read { IfOk result (λ count. Consumes (I.remaining reader.old) (I.remaining reader.new)
        (take count piece.new.items)) }
    ensures end { IfOk result (λ count. count ≡ 0 → IsAtEnd (I.remaining reader.new)) }
    ensures err { OnErr result (Keeps (I.remaining reader.old) (I.remaining reader.new)) }
{
    match reader.read(piece.as_mut_slice()) {
        Ok(count) => Ok(count),
        Err(_) => Err(SourceFault::Read),
    }
}

impl<I: Read + Drop> Source<I> {
    /// A trace of which its head was read.
    pub(crate) fn new(reader: I) -> Source<I>
        ensures reader { result.reader ≡ reader }
        ensures unread { result.is_ended ≡ false }
    {
        Source {
            reader,
            is_ended: false,
            ask: 0,
        }
    }

    /// Notes that one more item was gone through, so that it asks for a piece again.
    pub(crate) fn pass(&mut self)
        ensures reader { self.new.reader ≡ self.old.reader }
        ensures ended { self.new.is_ended ≡ self.old.is_ended }
    {
        self.ask = 0;
    }

    /// Reads once, into the first bytes of the piece, and answers how many; none at the end. It then
    /// asks for twice as many, until an item is gone through: so an item that needs much more, and is
    /// tried again after each read, costs no more than twice what it has.
    ///
    /// # Errors
    ///
    /// `Read` if reading failed, and `Memory`; then nothing was read.
    pub(crate) fn read(&mut self, piece: &mut Vec<u8>) -> Result<usize, SourceFault>
        ensures within { IfOk result (λ count. count ≤ length piece.new.items) }
        ensures read { IfOk result (λ count. Consumes (I.remaining self.old.reader)
            (I.remaining self.new.reader) (take count piece.new.items)) }
        ensures end { OnOk result (self.new.is_ended ≡ true
            → IsAtEnd (I.remaining self.new.reader)) }
        ensures none { IfOk result (λ count. self.new.is_ended ≡ true → count ≡ 0) }
        ensures kept { OnErr result
            (Keeps (I.remaining self.old.reader) (I.remaining self.new.reader)) }
        ensures not_ended { OnErr result (self.new.is_ended ≡ self.old.is_ended) }
    {
        let ask = self.ask.max(PIECE);
        set_len(piece, ask)?;
        let count = read_once(&mut self.reader, piece)?;
        self.is_ended = count == 0;
        if ask < LARGEST {
            self.ask = 2 * ask;
        }
        Ok(count)
    }
}
