//! Which messages came to their nodes.
use crate::counting::Found;
use kx_machine::Input;
use kx_message::Message;
use kx_wire::frame_of;
use std::alloc::{AllocError, Global};
use std::collections::HashSet;

/// Messages that came to their nodes, by their frames. One that fits no frame never goes over a
/// connection, and isn't noted.
#[derive(Drop)]
pub(crate) struct Arrivals {
    alloc: Global,
    frames: HashSet<Vec<u8>>,
}

impl Arrivals {
    /// A table of no message.
    pub(crate) fn new(alloc: Global) -> Arrivals {
        Arrivals {
            alloc,
            frames: HashSet::new(alloc),
        }
    }

    /// Adds a message, unless it arrived before, and says whether it did.
    pub(crate) fn add(&mut self, message: &Message) -> Result<bool, AllocError> {
        if !message.fits() {
            return Ok(false);
        }
        let frame = frame_of(self.alloc, message)?;
        Ok(!self.frames.insert(frame)?)
    }

    /// Whether it came.
    pub(crate) fn has(&self, message: &Message) -> Result<bool, AllocError> {
        if !message.fits() {
            return Ok(false);
        }
        let frame = frame_of(self.alloc, message)?;
        Ok(self.frames.contains(&frame))
    }

    /// All that came in a run.
    pub(crate) fn all_of(alloc: Global, run: &Found) -> Result<Arrivals, AllocError> {
        let mut arrivals = Arrivals::new(alloc);
        for turn in run.turns() {
            let Some(step) = run.step(*turn) else {
                continue;
            };
            if let Input::Deliver(message) = &step.input {
                arrivals.add(message)?;
            }
        }
        Ok(arrivals)
    }
}
