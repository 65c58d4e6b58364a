//! Streams of frames: `feed BYTES` gives a piece to the case's stream and reports the texts of the
//! frames that come of it, `-` for none, and after them the fault if one comes; `sizes BYTES`
//! the same by the lengths of the texts; `singly BYTES` gives each byte by itself.
use kx_cases::{Runs, StepFault, known, told_bytes};
use kx_kafka::{Frames, KafkaFault};
use std::alloc::{AllocError, Global};
use std::fmt::Write;

/// How a frame is told.
#[derive(Clone, Copy)]
pub(crate) enum By {
    /// Its text.
    Text,
    /// The length of its text.
    Size,
}

fn told_frame(alloc: Global, frame: &[u8], by: By) -> Result<String, AllocError> {
    match by {
        By::Text => told_bytes(alloc, frame),
        By::Size => format!(in alloc; "{}", frame.len()),
    }
}

// Puts a word after others.
fn push_word(words: &mut String, word: &str) -> Result<(), AllocError> {
    let parted = if words.is_empty() { "" } else { " " };
    write!(words, "{parted}{word}")
}

// Passes the frame at the front and tells it; whether there was one.
fn passed(
    alloc: Global,
    frames: &mut Frames,
    words: &mut String,
    by: By,
) -> Result<bool, StepFault> {
    let word = match frames.front() {
        Ok(None) => return Ok(false),
        Ok(Some(frame)) => told_frame(alloc, frame, by)?,
        Err(fault) => {
            push_word(words, format!(in alloc; "{fault:?}")?.as_str())?;
            return Ok(false);
        }
    };
    push_word(words, word.as_str())?;
    frames.pass();
    Ok(true)
}

/// What comes of a piece of the stream. A piece completes one frame, and each other frame that
/// comes of it takes four bytes of it and more.
pub(crate) fn told_feed(
    alloc: Global,
    frames: &mut Frames,
    piece: &[u8],
    by: By,
) -> Result<String, StepFault> {
    known(frames.feed(piece))?;
    let mut words = String::new(alloc);
    for _ in 0..=piece.len() {
        if !passed(alloc, frames, &mut words, by)? {
            break;
        }
    }
    if words.is_empty() {
        words.push_str("-")?;
    }
    Ok(words)
}

/// What comes of each byte, numbered from 0.
pub(crate) fn told_singly(
    alloc: Global,
    frames: &mut Frames,
    bytes: &[u8],
) -> Result<String, StepFault> {
    let mut runs = Runs::new(alloc);
    for (place, byte) in bytes.iter().enumerate() {
        let answer = told_feed(alloc, frames, &[*byte], By::Text)?;
        runs.push(place, answer)?;
    }
    Ok(runs.finish()?)
}
