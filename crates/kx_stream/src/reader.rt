//! A stream of frames, read in whatever pieces its bytes arrive.
ghost use Rattle.std.specs.Prelude.{◌≡◌, ℕ, List, [], Ok, Err, IfOk};
ghost use Rattle.std.specs.Io.KnownBytes.{Consumes};
ghost use Rattle.kx_stream.specs.Reader.{Gives, given_by};
ghost use Rattle.kx_wire.specs.Frames.{Faulty, Over, Reads};
ghost use Rattle.kx_wire.specs.declared.fault.FrameFault.{FrameFault};
ghost use Rattle.kx_wire.specs.declared.fault.FrameFault.TheVariants.{Failed};

use crate::fault::StreamFault;
use kx_message::Message;
use kx_wire::{FrameFault, Frames};
use std::alloc::{AllocError, Global};
use std::io::Read;
use std::marker::Model;

// How many bytes a reader is asked for at once.
const PIECE: usize = 65_536;

/// Reads the messages of a stream of frames. It is seen as the stream of [`Frames`] that it has
/// read.
#[derive(Drop)]
pub struct FrameReader {
    frames: Frames,
    piece: Vec<u8>,
}

impl Model for FrameReader {
    ghost use Rattle.kx_wire.specs.Frames.{Stream};

    ghost Value = { Stream };

    ghost use Rattle.std.specs.Prelude.{◌≡◌, length};

    ghost view = { λ reader. reader.frames };

    ghost invariant = { λ reader. length reader.piece.items ≡ 65536 };
}

impl FrameReader {
    /// Reads a stream of which nothing was read. Takes 64 KiB of memory.
    ///
    /// # Errors
    ///
    /// Only if memory runs out.
    pub fn new(alloc: Global) -> Result<FrameReader, AllocError>
        ensures { IfOk result (λ reader. reader ≡ Reads []) }
    {
        Ok(FrameReader {
            frames: Frames::new(alloc),
            piece: vec![in alloc; 0; PIECE]?,
        })
    }

    /// Whether a frame of a message may be after the messages that were returned. Reads nothing.
    ///
    /// # Errors
    ///
    /// The fault of the frame that is there, once, and `Failed` from then on.
    pub fn check(&mut self) -> Result<(), FrameFault>
        ensures fine { (partial : List ℕ) → self.old ≡ Reads partial
            → (result ≡ Ok tt) × (self.new ≡ self.old) }
        ensures fault { (fault : FrameFault) → self.old ≡ Faulty fault
            → (result ≡ Err fault) × (self.new ≡ Over) }
        ensures failed { self.old ≡ Over → (result ≡ Err Failed) × (self.new ≡ Over) }
    {
        self.frames.feed(&[])?;
        Ok(())
    }

    /// Reads once, at most 65,536 bytes, and returns the messages whose frames are whole then, in
    /// order; None at the end of the stream, if a part of a frame may be left.
    ///
    /// # Errors
    ///
    /// `Read` if the read failed; then nothing was read, and it can be tried again. `Frame`
    /// if no frame of a message is after the messages that were returned, before anything
    /// more is read; or if memory ran out, and then what was read is lost. Never `Write`.
    pub fn next<R: Read>(&mut self, reader: &mut R) -> Result<Option<Vec<Message>>, StreamFault>
        ensures { (read : List ℕ) × Consumes (R.remaining reader.old) (R.remaining reader.new) read
            × Gives self.old read (R.remaining reader.new) (given_by result) self.new }
    {
        self.check()?;
        let Ok(count) = reader.read(self.piece.as_mut_slice()) else {
            return Err(StreamFault::Read);
        };
        if count == 0 {
            return Ok(None);
        }
        let messages = self.frames.feed(&self.piece[..count])?;
        Ok(Some(messages))
    }
}
