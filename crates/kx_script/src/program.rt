//! What the program does with a script, over any reader and any writer: it runs it over a world in
//! memory.
ghost use Rattle.std.specs.Prelude.{◌≡◌, ◌⊎◌, [], Err, IfSome};
ghost use Rattle.std.specs.Io.Buffered.{writer_buffer, writer_contents};
ghost use Rattle.kx_script.specs.Script.{Ends, EndsFlushed};
ghost use Rattle.kx_text.specs.declared.fault.ScriptFault.TheVariants as fault;

use crate::script::run_lines;
use kx_text::{CountedReads, ScriptFault};
use std::alloc::Global;
use std::io::{BufRead, BufWriter, Write};

/// Runs a script over a world of its own, in memory: reads its lines one by one, carries each out
/// and writes its answer, up to the end or the first bad line, of which it writes `bad line N`. An
/// answer is made whole in memory, and then written at once. The writer isn't flushed. It makes at
/// most 2^32 reads, and ends with `Read` if it would need more; taking lines of what a read gave is
/// no read.
///
/// # Errors
///
/// Those of [`ScriptFault`], which says what was written by then.
pub fn run_script<R: BufRead, W: Write>(
    alloc: Global,
    reader: &mut R,
    writer: &mut W,
) -> Result<(), ScriptFault>
    ensures { IfSome (R.remaining reader.old)
        (λ input. Ends input (W.contents writer.old) (W.contents writer.new) result) }
{
    let mut counted = CountedReads::new(reader);
    let mut running = None;
    let ran = run_lines::<&mut R, W>(alloc, &mut running, &mut counted, writer);
    drop(running);
    ran
}

/// Runs a script as [`run_script`] does, and flushes what it wrote, also before a fault.
///
/// # Errors
///
/// Those of [`ScriptFault`]; `Write` also if the writer can't be flushed, and then what the script
/// wrote is in the buffer or behind it. Of any other nothing is left in the buffer.
pub fn run_sim<R: BufRead, W: Write + Drop>(
    alloc: Global,
    reader: &mut R,
    writer: &mut BufWriter<W>,
) -> Result<(), ScriptFault>
    ensures ends { IfSome (R.remaining reader.old) (λ input. EndsFlushed input
        (writer_contents W.contents writer.old) (writer_contents W.contents writer.new) result) }
    ensures flushed { (result ≡ Err fault.Write) ⊎ (writer_buffer writer.new ≡ []) }
{
    let ran = run_script::<R, BufWriter<W>>(alloc, reader, writer);
    if writer.flush().is_err() {
        return Err(ScriptFault::Write);
    }
    ran
}
