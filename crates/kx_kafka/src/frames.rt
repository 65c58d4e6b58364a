//! Frames: a request or a response after its length, in a stream that comes in pieces.
ghost use Rattle.std.specs.Prelude.{◌≡◌, ◌≤◌, ◌++◌, [], List, ℕ, length, take, drop, IfOk, OnOk};
ghost use Rattle.std.specs.Prelude.{OnErr, MatchResult, MatchOption};
ghost use Rattle.kx_message.specs.Sizes.{longest_frame};
ghost use Rattle.kx_kafka.specs.Frames.{Whole, More, Beyond, frame_at, frame_text, response_text};
ghost use Rattle.kx_kafka.specs.Frames.{Passed};
ghost use Rattle.kx_kafka_types.specs.Writing.{Fits};

use kx_kafka_types::{KafkaFault, Version, Writes, put_end};
use kx_message::LONGEST_FRAME;
use kx_varint::{put_i32, put_u32, read_u32};
use std::alloc::Global;
use std::marker::Model;

// The text of the frame at the front, and the bytes after it; None if more is needed.
#[tactic(auto, unfolding(crate::specs::Frames::frame_at))]
fn front_of(bytes: &[u8]) -> Result<Option<(&[u8], &[u8])>, KafkaFault>
    ensures { MatchResult result
        (λ o. MatchOption o (frame_at bytes.now ≡ More)
        (λ x. frame_at bytes.now ≡ Whole x.0.now x.1.now))
        (λ fault. (frame_at bytes.now ≡ Beyond) × (fault ≡ KafkaFault.TooLong)) }
{
    let Ok((len, rest)) = read_u32(bytes) else {
        return Ok(None);
    };
    let len = len as usize;
    if len > LONGEST_FRAME {
        return Err(KafkaFault::TooLong);
    }
    if rest.len() < len {
        return Ok(None);
    }
    Ok(Some(rest.split_at(len)))
}

/// The frames of a stream that comes in pieces: what came and wasn't passed yet is held.
#[derive(Drop)]
pub struct Frames {
    held: Vec<u8>,
    passed: usize,
}

impl Model for Frames {
    ghost use Rattle.std.specs.Prelude.{ℕ, List, length, drop, ◌≤◌};

    ghost Value = { List ℕ };

    ghost view = { λ frames. drop frames.passed frames.held.items };

    ghost invariant = { λ frames. frames.passed ≤ length frames.held.items };
}

impl Frames {
    /// A stream of which nothing has come yet. Takes no memory.
    pub fn new(alloc: Global) -> Self
        ensures { result ≡ [] }
    {
        Frames {
            held: Vec::new(alloc),
            passed: 0,
        }
    }

    // What came and wasn't passed yet.
    fn bytes(&self) -> &[u8]
        ensures { result.now ≡ self.now }
    {
        &self.held[self.passed..]
    }

    // Takes out what was passed, once no more than that is left: so no more bytes are moved than
    // were passed.
    fn shift(&mut self)
        ensures { self.new ≡ self.old }
    {
        let left = self.held.len() - self.passed;
        if left > self.passed {
            return;
        }
        self.held.copy_within(self.passed.., 0);
        self.held.truncate(left);
        self.passed = 0;
    }

    /// Takes the next piece of the stream.
    ///
    /// # Errors
    ///
    /// Only [`KafkaFault::Memory`]; then nothing of the piece was taken.
    pub fn feed(&mut self, piece: &[u8]) -> Result<(), KafkaFault>
        ensures ok { OnOk result (self.new ≡ self.old ++ piece.now) }
        ensures err { OnErr result (self.new ≡ self.old) }
    {
        self.shift();
        self.held.extend_from_slice(piece)?;
        Ok(())
    }

    /// The text of the frame at the front, without its length, or `None` if more has to come.
    ///
    /// # Errors
    ///
    /// [`KafkaFault::TooLong`] if its length is beyond 2097152; it stays so.
    pub fn front(&self) -> Result<Option<&[u8]>, KafkaFault>
        ensures { MatchResult result
            (λ o. MatchOption o (frame_at self.now ≡ More)
            (λ text. (rest : List ℕ) × (frame_at self.now ≡ Whole text.now rest)))
            (λ fault. (frame_at self.now ≡ Beyond) × (fault ≡ KafkaFault.TooLong)) }
    {
        match front_of(self.bytes())? {
            None => Ok(None),
            Some((text, _)) => Ok(Some(text)),
        }
    }

    /// Passes the frame at the front, if it is whole: the next one is then at the front.
    pub fn pass(&mut self)
        ensures { Passed (frame_at self.old) self.old self.new }
    {
        if let Ok(Some((text, _))) = front_of(self.bytes()) {
            let len = text.len();
            self.passed += 4 + len;
        }
    }
}

// Room for most responses without records, so that their texts don't grow byte by byte.
const SHORT: usize = 256;

// A text after its length.
#[tactic(auto, unfolding(crate::specs::Frames::frame_text))]
fn framed(alloc: Global, text: &[u8]) -> Result<Vec<u8>, KafkaFault>
    ensures text { IfOk result (λ frame. frame.items ≡ frame_text text.now) }
    ensures within { OnOk result (length text.now ≤ longest_frame) }
{
    if text.len() > LONGEST_FRAME {
        return Err(KafkaFault::TooLong);
    }
    let mut frame = Vec::with_capacity(alloc, 4 + text.len())?;
    put_u32(&mut frame, text.len() as u32)?;
    frame.extend_from_slice(text)?;
    Ok(frame)
}

/// The frame of a response to the request of this correlation id, in the request's version.
///
/// # Errors
///
/// [`KafkaFault::TooLong`] if the frame would have more than 2097152 bytes after its length, or
/// a field more than its length can say; [`KafkaFault::Field`] for null in a version that has none;
/// [`KafkaFault::Memory`].
#[tactic(auto, using(kx_kafka_types::proofs::Onto::onto_is), unfolding(crate::specs::Frames::response_text))]
pub fn response_frame<T: Writes>(
    alloc: Global,
    version: Version,
    correlation_id: i32,
    response: &T,
) -> Result<Vec<u8>, KafkaFault>
    ensures text { IfOk result (λ frame. frame.items
        ≡ frame_text (response_text version correlation_id T.fields (T.values response.now))) }
    ensures fits { OnOk result (Fits version T.fields (T.values response.now)) }
    ensures within { OnOk result (length
        (response_text version correlation_id T.fields (T.values response.now)) ≤ longest_frame) }
{
    let mut text = Vec::with_capacity(alloc, SHORT)?;
    put_i32(&mut text, correlation_id)?;
    put_end(&mut text, version)?;
    response.put(&mut text, version)?;
    framed(alloc, &text)
}
