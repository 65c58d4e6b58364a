//! The lines that a server prints.
ghost use Rattle.std.specs.Prelude.{OnOk};
ghost use Rattle.std.specs.Io.KnownBytes.{Appends};
ghost use Rattle.kx_server.specs.Lines.{line_of};

use crate::fault::ServerFault;
use std::io::Write;

/// Writes a line, a word and a number, at once.
///
/// # Errors
///
/// `Write` if it can't be written or flushed; a part of the line may have been written.
pub fn tell<W: Write>(out: &mut W, word: &str, number: usize) -> Result<(), ServerFault>
    ensures { OnOk result (Appends (W.contents out.old) (W.contents out.new)
        (line_of word.now number)) }
{
    if writeln!(out, "{word} {number}").is_err() || out.flush().is_err() {
        return Err(ServerFault::Write);
    }
    Ok(())
}
