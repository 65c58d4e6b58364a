//! Reading a script line by line, and what a write is to it.
ghost use Rattle.std.specs.Prelude.{◌≡◌, ◌⊎◌, Err, IfSome, IsOk, MatchResult};
ghost use Rattle.kx_text.specs.Lines.{ReadsLine};
ghost use Rattle.kx_text.specs.Reads.{IsOver};
ghost use Rattle.kx_text.specs.declared.fault.ScriptFault.TheVariants as fault;

use crate::fault::ScriptFault;
use crate::reads::{CountedReads, read_fault};
use std::io;
use std::io::BufRead;

/// What a write is to a script.
///
/// # Errors
///
/// [`ScriptFault::Write`] if it failed.
pub fn written(done: io::Result<()>) -> Result<(), ScriptFault>
    ensures { MatchResult result (λ _. IsOk done) (λ f. f ≡ fault.Write) }
{
    match done {
        Ok(()) => Ok(()),
        Err(_) => Err(ScriptFault::Write),
    }
}

// Why a line can't be read: what a failed read is, or else there is no memory for the line.
fn line_fault<R>(reader: &CountedReads<R>, failed: &io::Error) -> ScriptFault
    ensures { (result ≡ fault.Memory) ⊎ ((result ≡ fault.Read) × IsOver reader.now) }
{
    if reader.is_over() {
        read_fault(failed)
    } else {
        ScriptFault::Memory
    }
}

/// Reads the next line, with its newline; false if there is none.
///
/// # Errors
///
/// [`ScriptFault::Read`] if a read failed, or 2^32 reads were made, and [`ScriptFault::Memory`].
pub fn next_line<R: BufRead>(
    reader: &mut CountedReads<R>,
    line: &mut Vec<u8>,
) -> Result<bool, ScriptFault>
    ensures line { IfSome (R.remaining reader.old.reader)
        (λ bytes. ReadsLine bytes (R.remaining reader.new.reader) line.new.items result) }
    ensures over { result ≡ Err fault.Read → IsOver reader.new }
{
    line.clear();
    match reader.read_until(b'\n', line) {
        Ok(count) => Ok(count != 0),
        Err(error) => Err(line_fault(reader, &error)),
    }
}
