//! Why a stream isn't served further.
ghost use Rattle.std.specs.Prelude.{◌≡◌};
ghost use Rattle.kx_stream.specs.Faults.{number_of};
ghost use Rattle.kx_stream.specs.declared.fault.StreamFault.TheVariants.{Frame};
ghost use Rattle.kx_wire.specs.declared.fault.FrameFault.TheVariants.{Memory};

use kx_wire::FrameFault;
use std::alloc::AllocError;
use thiserror::Error;

/// Why a stream isn't served to its end. The machine keeps the steps that it made.
#[derive(Clone, Copy, Debug, PartialEq, Eq, Error)]
pub enum StreamFault {
    /// A read failed, or each of 2^32 reads gave something. The messages that were read whole are
    /// served, and what the machine sent is written.
    #[error("the stream cannot be read")]
    Read,
    /// A write failed. A front of the frames of what the machine sent is written, and not all of
    /// them.
    #[error("the replies cannot be written")]
    Write,
    /// What comes next in the stream is no frame of a message, after the messages before it were
    /// served; or memory ran out for reading or for a frame; or a message that was sent is longer
    /// than a frame, and then [`FrameFault::TooLong`]. The frames of what was sent before are
    /// written.
    #[error("{0}")]
    Frame(FrameFault),
}

impl StreamFault {
    /// The number of the fault, by which another program knows it: `Read` 1, `Write` 2, `Frame` 3,
    /// whatever is wrong with the frame.
    pub fn number(self) -> u8
        ensures { result ≡ number_of self }
    {
        match self {
            StreamFault::Read => 1,
            StreamFault::Write => 2,
            StreamFault::Frame(_) => 3,
        }
    }
}

/// A fault of a frame.
impl From<FrameFault> for StreamFault {
    ghost from_gives = { λ frame fault. fault ≡ Frame frame };

    fn from(fault: FrameFault) -> Self {
        StreamFault::Frame(fault)
    }
}

/// Out of memory, as a frame has it.
impl From<AllocError> for StreamFault {
    ghost from_gives = { λ refused fault. fault ≡ Frame Memory };

    fn from(_: AllocError) -> Self {
        StreamFault::Frame(FrameFault::Memory)
    }
}
