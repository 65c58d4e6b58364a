//! What a client said, of which a notice keeps the front.
ghost use Rattle.std.specs.Prelude.{◌≡◌, IfOk, length, nat_lt, take};
ghost use Rattle.kx_notices.specs.Texts.{longest_said};

use std::alloc::{AllocError, Global};

/// How many bytes of what a client said are kept at most.
pub const LONGEST_SAID: usize = 256;

/// What a client said, as a name that it gave: its first 256 bytes, and whether there were more.
#[derive(Drop)]
pub struct Said {
    pub(crate) bytes: Vec<u8>,
    pub(crate) is_cut: bool,
}

// The bytes of this that are kept.
fn front_of(bytes: &[u8]) -> &[u8]
    ensures { result.now ≡ take longest_said bytes.now }
{
    if bytes.len() > LONGEST_SAID {
        let (front, _) = bytes.split_at(LONGEST_SAID);
        front
    } else {
        bytes
    }
}

impl Said {
    /// These bytes, or the front of them.
    ///
    /// # Errors
    ///
    /// Only if memory runs out.
    pub fn of(alloc: Global, bytes: &[u8]) -> Result<Said, AllocError>
        ensures front { IfOk result (λ said. said.bytes.items ≡ take longest_said bytes.now) }
        ensures cut { IfOk result (λ said. said.is_cut ≡ nat_lt longest_said (length bytes.now)) }
    {
        Ok(Said {
            bytes: Vec::from_slice(alloc, front_of(bytes))?,
            is_cut: bytes.len() > LONGEST_SAID,
        })
    }
}
