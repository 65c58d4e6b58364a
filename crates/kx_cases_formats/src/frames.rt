//! Messages and the frames in which they go. `feed BYTES` gives a piece to the case's stream and
//! reports the frames of the messages that come of it, or the fault; `singly BYTES` gives each byte
//! by itself. `message FRAME` reports the one message of a frame, `fields FRAME` its fields,
//! `receiver FRAME` where it goes. `random SEED COUNT BYTES` feeds random pieces of the bytes.
ghost use Rattle.std.specs.Prelude.{◌∷◌, [], IfOk, Ok};
ghost use Rattle.kx_wire.specs.Frames.{Fed, Reads, Stream};

use kx_cases::{Runs, StepFault, Subject, Texts, told_bytes, told_name, told_value, value};
use kx_message::{Caller, EndReply, Join, Message};
use kx_wire::{FrameFault, Frames, put_frame};
use std::alloc::Global;

/// The stream of a case.
#[derive(Drop)]
pub(crate) struct FrameCases {
    alloc: Global,
    frames: Frames,
}

// The frame of a message, if it fits.
fn frame(alloc: Global, message: &Message) -> Result<Vec<u8>, StepFault> {
    let mut out = Vec::new(alloc);
    if message.fits() {
        put_frame(&mut out, message)?;
    }
    Ok(out)
}

// The frames of the messages, `-` if none came.
fn told_frames(alloc: Global, messages: &[Message]) -> Result<String, StepFault> {
    let mut frames = Vec::new(alloc);
    for message in messages {
        let frame = frame(alloc, message)?;
        frames.extend_from_slice(frame.as_slice())?;
    }
    Ok(told_bytes(alloc, frames.as_slice())?)
}

/// The message of these bytes, which are one frame.
pub fn message_of(alloc: Global, bytes: &[u8]) -> Result<Message, StepFault>
    ensures { IfOk result (λ message.
        (behind : Stream) × Fed (Reads []) bytes.now (Ok (message ∷ [])) behind) }
{
    let Ok(mut messages) = Frames::new(alloc).feed(bytes) else {
        return Err(StepFault::Unknown);
    };
    let last = messages.pop().ok_or(StepFault::Unknown)?;
    if messages.is_empty() {
        Ok(last)
    } else {
        Err(StepFault::Unknown)
    }
}

// Whether the message is written as these bytes.
fn is_written(alloc: Global, message: &Message, bytes: &[u8]) -> Result<bool, StepFault> {
    Ok(frame(alloc, message)?.as_slice() == bytes)
}

// Whether its copy is, and is equal to it.
fn is_copied(alloc: Global, message: &Message, bytes: &[u8]) -> Result<bool, StepFault> {
    let copy = message.clone()?;
    Ok(copy == *message && is_written(alloc, &copy, bytes)?)
}

// A message as it is printed, if it is written, and its copy, as it was read.
fn printed(alloc: Global, message: &Message, bytes: &[u8]) -> Result<String, StepFault> {
    if !is_written(alloc, message, bytes)? {
        return told_value(alloc, "written otherwise");
    }
    if !is_copied(alloc, message, bytes)? {
        return told_value(alloc, "copied otherwise");
    }
    Ok(format!(in alloc; "{message}")?)
}

// The fields of a Join or of an EndReply, by name.
fn fields(alloc: Global, message: &Message) -> Result<String, StepFault> {
    match message {
        Message::Join(Join { caller, group }) => {
            let Caller {
                client,
                correlation,
            } = caller;
            Ok(format!(in alloc; "Join client {client} correlation {correlation} group {group}")?)
        }
        Message::EndReply(
            EndReply {
                caller,
                code,
                held: Some(held),
            },
        ) => {
            let Caller {
                client,
                correlation,
            } = caller;
            let by = format!(in alloc; "EndReply client {client} correlation {correlation}")?;
            Ok(format!(in alloc; "{by} code {code} id {} epoch {}", held.id, held.epoch)?)
        }
        _ => Err(StepFault::Unknown),
    }
}

// What steps tell of the message that these bytes are.
fn told_message(
    alloc: Global,
    name: &str,
    message: &Message,
    bytes: &[u8],
) -> Result<String, StepFault> {
    match name {
        "message" => printed(alloc, message, bytes),
        "fields" => fields(alloc, message),
        "receiver" => told_value(alloc, message.receiver()),
        _ => Err(StepFault::Unknown),
    }
}

fn message_step(alloc: Global, name: &str, bytes: &[u8]) -> Result<String, StepFault> {
    let message = message_of(alloc, bytes)?;
    told_message(alloc, name, &message, bytes)
}

// The next number of a linear congruential generator, by its high bits.
fn next_random(state: &mut u64) -> usize {
    *state = state
        .wrapping_mul(6_364_136_223_846_793_005)
        .wrapping_add(1_442_695_040_888_963_407);
    (*state >> 33) as usize
}

// A piece of a stream of frames, up to 19 bytes from where the state says, at times with a byte
// that isn't the stream's.
fn random_piece(alloc: Global, stream: &[u8], state: &mut u64) -> Result<Vec<u8>, StepFault> {
    let from = next_random(state) % 40;
    let len = next_random(state) % 20;
    let mut piece = Vec::from_slice(alloc, stream.get(from..from + len).unwrap_or(&[]))?;
    if next_random(state) % 4 == 0 {
        piece.push((next_random(state) % 256) as u8)?;
    }
    Ok(piece)
}

// Whether the fault is one of the bytes.
fn is_of_bytes(fault: FrameFault) -> bool {
    matches!(
        fault,
        FrameFault::TooLong | FrameFault::Kind | FrameFault::Field
    )
}

// Whether a stream takes nothing more.
fn has_failed(frames: &mut Frames, piece: &[u8]) -> bool {
    matches!(frames.feed(piece), Err(FrameFault::Failed))
}

// Feeds a piece: whether the stream goes on after it, or what is wrong with what it brings.
fn fed(frames: &mut Frames, piece: &[u8]) -> Result<bool, &'static str> {
    match frames.feed(piece) {
        Ok(messages) if messages.iter().all(|message| message.fits()) => Ok(true),
        Ok(_) => Err("a message that doesn't fit"),
        Err(fault) if is_of_bytes(fault) => Ok(false),
        Err(_) => Err("a fault that isn't of the bytes"),
    }
}

// Random pieces bring messages that fit, or faults of the bytes, after which the stream failed and
// another begins.
fn random(alloc: Global, seed: u64, count: u32, stream: &[u8]) -> Result<&'static str, StepFault> {
    let mut state = seed;
    let mut frames = Frames::new(alloc);
    for _ in 0..count {
        let piece = random_piece(alloc, stream, &mut state)?;
        match fed(&mut frames, piece.as_slice()) {
            Ok(true) => {}
            Ok(false) => {
                if !has_failed(&mut frames, piece.as_slice()) {
                    return Ok("a stream that goes on behind a fault");
                }
                frames = Frames::new(alloc);
            }
            Err(wrong) => return Ok(wrong),
        }
    }
    Ok("ok")
}

fn random_step(alloc: Global, seed: &str, count: &str, stream: &[u8]) -> Result<String, StepFault> {
    told_value(alloc, random(alloc, value(seed)?, value(count)?, stream)?)
}

impl FrameCases {
    fn feed(&mut self, piece: &[u8]) -> Result<String, StepFault> {
        match self.frames.feed(piece) {
            Ok(messages) => told_frames(self.alloc, messages.as_slice()),
            Err(fault) => told_name(self.alloc, fault),
        }
    }

    // What comes of each byte, numbered from 1.
    fn feed_singly(&mut self, bytes: &[u8]) -> Result<String, StepFault> {
        let mut runs = Runs::new(self.alloc);
        for (place, byte) in bytes.iter().enumerate() {
            let answer = self.feed(&[*byte])?;
            runs.push(place, answer)?;
        }
        Ok(runs.finish()?)
    }

    // What a step tells of its bytes.
    fn bytes_step(
        &mut self,
        name: &str,
        given: &[&str],
        bytes: &[u8],
    ) -> Result<String, StepFault> {
        match (name, given) {
            ("feed", []) => self.feed(bytes),
            ("singly", []) => self.feed_singly(bytes),
            ("random", [seed, count]) => random_step(self.alloc, seed, count, bytes),
            (_, []) => message_step(self.alloc, name, bytes),
            _ => Err(StepFault::Unknown),
        }
    }
}

impl Subject for FrameCases {
    fn new(alloc: Global) -> Self {
        FrameCases {
            alloc,
            frames: Frames::new(alloc),
        }
    }

    fn answer(&mut self, texts: &Texts, words: &[&str]) -> Result<String, StepFault> {
        let [name, given @ .., last] = words else {
            return Err(StepFault::Unknown);
        };
        let bytes = texts.bytes(last)?;
        self.bytes_step(name, given, bytes.as_slice())
    }
}
