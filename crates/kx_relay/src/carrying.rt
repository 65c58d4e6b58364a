//! Carrying frames over.
use crate::chance::Chance;
use crate::line::{Line, Passed};
use crate::share::{Holding, Losses};
use crate::stream::FrameStream;
use kx_message::Message;
use kx_stream::send;
use std::alloc::Global;
use std::net::{Shutdown, TcpStream};
use std::sync::{Mutex, Wait};

/// Draws for the frames of all lines of a relay, one after the other.
#[derive(Drop)]
pub struct Draw {
    losses: Losses,
    chance: Mutex<Chance>,
}

impl Draw {
    /// Loses this many of a hundred, drawn from a seed.
    pub fn new(losses: Losses, seed: u64) -> Draw {
        Draw {
            losses,
            chance: Mutex::new(Chance::new(seed)),
        }
    }

    // Whether the next frame is lost.
    fn loses<R: Wait>(&self, rt: &R) -> bool {
        self.chance.lock(rt).loses(self.losses)
    }
}

// Sends a frame, if there is one, and says whether the line goes on.
fn put(alloc: Global, to: &TcpStream, message: Option<&Message>) -> bool {
    match message {
        Some(message) => send(alloc, &mut &*to, message).is_ok(),
        None => true,
    }
}

// Carries these frames over, and says whether the line goes on.
fn carry<R: Wait>(
    rt: &R,
    alloc: Global,
    draw: &Draw,
    line: &mut Line,
    messages: Vec<Message>,
    to: &TcpStream,
) -> bool {
    for message in messages {
        let is_lost = draw.loses(rt);
        let Ok(Passed { now, again }) = line.pass(message, is_lost) else {
            return false;
        };
        if !put(alloc, to, now.as_ref()) || !put(alloc, to, again.as_ref()) {
            return false;
        }
    }
    true
}

// Sends what is left when a line is closed.
fn put_rest(alloc: Global, line: Line, to: &TcpStream) {
    for copy in line.into_rest() {
        if !put(alloc, to, copy.as_ref()) {
            return;
        }
    }
}

/// Carries the frames of one end of a connection over to the other until the first end closes;
/// then what is held back goes out, and the other end is told that no more comes.
pub fn relay<R: Wait>(
    rt: &R,
    alloc: Global,
    draw: &Draw,
    holding: Holding,
    mut frames: FrameStream,
    to: &TcpStream,
) {
    let mut line = Line::new(alloc, holding);
    for _ in rt.forever() {
        let Some(messages) = frames.next() else {
            break;
        };
        if !carry(rt, alloc, draw, &mut line, messages, to) {
            break;
        }
    }
    put_rest(alloc, line, to);
    let _ = to.shutdown(Shutdown::Write);
}
