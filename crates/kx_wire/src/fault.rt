//! What the reader of frames refuses.
ghost use Rattle.std.specs.Prelude.{◌≡◌};
ghost use Rattle.kx_wire.specs.Faults.{number_of};
ghost use Rattle.kx_wire.specs.declared.fault.FrameFault.{FrameFault};

use std::alloc::AllocError;
use thiserror::Error;

/// Why no message comes out of a stream of frames.
#[derive(Clone, Copy, Debug, PartialEq, Eq, Error)]
pub enum FrameFault {
    /// A frame's length says more than 2097152 bytes.
    #[error("the frame is too long")]
    TooLong = 1,
    /// No kind of message has this number, or the frame's length is 0.
    #[error("no kind of message has this number")]
    Kind = 2,
    /// The fields of a message hold a value out of its range, or end too early or too late.
    #[error("the fields of the message are damaged")]
    Field = 3,
    /// The stream failed before.
    #[error("the stream failed before")]
    Failed = 4,
    /// Memory ran out.
    #[error("out of memory")]
    Memory = 5,
}

impl FrameFault {
    /// The number of the fault, 1 to 5.
    pub fn number(self) -> u8
        ensures { result ≡ number_of self }
    {
        self as u8
    }
}

/// Out of memory is [`FrameFault::Memory`].
impl From<AllocError> for FrameFault {
    ghost from_gives = { λ refused fault. fault ≡ FrameFault.Memory };

    fn from(_: AllocError) -> Self {
        FrameFault::Memory
    }
}
