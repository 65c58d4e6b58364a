//! Writing all of some bytes, by as many writes as it takes.
ghost use Rattle.std.specs.Prelude.{◌≤◌, length, IfOk};
ghost use Rattle.std.specs.Io.KnownBytes.{WriteAppends};
ghost use Rattle.kx_text.specs.Writing.{Writes};

use std::io;
use std::io::{ErrorKind, Write};

// How often a write that was interrupted is tried again.
const TRIES: u32 = u32::MAX;

// Writes a front of some bytes by one write, and says how many of them. A write that was
// interrupted writes none.
fn write_front<W: Write>(writer: &mut W, bytes: &[u8]) -> io::Result<usize>
    ensures within { IfOk result (λ count. count ≤ length bytes.now) }
    ensures bytes { WriteAppends (W.contents writer.old) (W.contents writer.new) result bytes.now }
{
    match writer.write(bytes) {
        Ok(0) => Err(io::Error::from(ErrorKind::WriteZero)),
        Ok(count) => Ok(count),
        Err(error) => {
            if error.kind() == ErrorKind::Interrupted {
                Ok(0)
            } else {
                Err(error)
            }
        }
    }
}

/// Writes all of some bytes. std's `write_all` doesn't say what was written if a write fails.
///
/// # Errors
///
/// The writer's, or `WriteZero` if a write takes nothing; a front of the bytes is written then, and
/// not all of them.
pub fn write_whole<W: Write>(writer: &mut W, bytes: &[u8]) -> io::Result<()>
    ensures { Writes bytes.now (W.contents writer.old) (W.contents writer.new) result }
{
    let mut written = 0;
    let mut tries = TRIES;
    while written < bytes.len() {
        let count = write_front(writer, &bytes[written..])?;
        if count == 0 {
            if tries == 0 {
                return Err(io::Error::from(ErrorKind::Interrupted));
            }
            tries -= 1;
        }
        written += count;
    }
    Ok(())
}
