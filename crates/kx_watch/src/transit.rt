//! Messages that were sent and haven't arrived, by their frames.
use kx_message::Message;
use kx_wire::frame_of;
use std::alloc::{AllocError, Global};
use std::collections::HashMap;

/// The messages of one frame, by their numbers: those that haven't arrived, and the last one that has.
#[derive(Drop)]
struct Copies {
    waiting: Vec<usize>,
    // how many of these have arrived
    arrived: usize,
}

/// What a server's nodes sent to each other, as far as it is on the way.
#[derive(Drop)]
pub(crate) struct Transit {
    alloc: Global,
    frames: HashMap<Vec<u8>, Copies>,
}

// The number of the first of these that hasn't arrived, or else of the last one.
fn next_in(copies: &mut Copies) -> Option<usize> {
    let place = copies.arrived.min(copies.waiting.len().saturating_sub(1));
    let number = copies.waiting.get(place).copied();
    copies.arrived = place.saturating_add(1);
    number
}

impl Transit {
    /// The messages on the way before any was sent: none.
    pub(crate) fn new(alloc: Global) -> Transit {
        Transit {
            alloc,
            frames: HashMap::new(alloc),
        }
    }

    // Adds the number of a message with this frame.
    fn add_frame(&mut self, frame: Vec<u8>, number: usize) -> Result<(), AllocError> {
        if let Some(copies) = self.frames.get_mut(&frame) {
            copies.waiting.push(number)?;
            return Ok(());
        }
        let mut waiting = Vec::new(self.alloc);
        waiting.push(number)?;
        let copies = Copies {
            waiting,
            arrived: 0,
        };
        match self.frames.insert(frame, copies) {
            Ok(_) => Ok(()),
            Err(_) => Err(AllocError),
        }
    }

    /// Adds messages that were sent, the first of which has this number.
    ///
    /// # Errors
    ///
    /// Only if memory runs out.
    pub(crate) fn add(&mut self, first: usize, sent: &[Message]) -> Result<(), AllocError> {
        for (place, message) in sent.iter().enumerate() {
            if message.fits() {
                let frame = frame_of(self.alloc, message)?;
                self.add_frame(frame, first.saturating_add(place))?;
            }
        }
        Ok(())
    }

    /// The number of the message that arrives now: of those that are the same, the first that hasn't
    /// arrived, or else the last one; None if none was sent.
    ///
    /// # Errors
    ///
    /// Only if memory runs out.
    pub(crate) fn arrive(&mut self, message: &Message) -> Result<Option<usize>, AllocError> {
        if !message.fits() {
            return Ok(None);
        }
        let frame = frame_of(self.alloc, message)?;
        match self.frames.get_mut(&frame) {
            Some(copies) => Ok(next_in(copies)),
            None => Ok(None),
        }
    }
}
