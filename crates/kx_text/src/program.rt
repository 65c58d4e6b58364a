//! A dump as the program writes it, over any writer, and the status that the program ends with.
ghost use Rattle.std.specs.Prelude.{◌≡◌, ◌⊎◌, [], Err};
ghost use Rattle.std.specs.Io.Buffered.{writer_buffer, writer_contents};
ghost use Rattle.kx_text.specs.Dump.{DumpsFlushed};
ghost use Rattle.kx_text.specs.Statuses.{ending_of, exit_status};
ghost use Rattle.kx_text.specs.declared.dump.DumpFault.TheVariants as dump_fault;

use crate::dump::{DumpFault, dump_batches};
use std::io::{BufWriter, Write};

/// How the program ends.
#[derive(Clone, Copy, Debug, PartialEq, Eq)]
pub enum Ending {
    /// All that was asked for was done, or help was asked for and shown.
    Done,
    /// Something that was asked for could not be done.
    Failed,
    /// The arguments ask for nothing that the program does. Standard error has words on it, if
    /// it can be written.
    WrongArguments,
}

impl Ending {
    /// How the program ends that did what it was asked for, or met a fault: `Done` or `Failed`.
    pub fn of<E>(done: &Result<(), E>) -> Ending
        ensures { result ≡ ending_of done.now }
    {
        match done {
            Ok(()) => Ending::Done,
            Err(_) => Ending::Failed,
        }
    }

    /// The exit status: `Done` 0, `Failed` 1, `WrongArguments` 2.
    pub fn status(self) -> u8
        ensures { result ≡ exit_status self }
    {
        match self {
            Ending::Done => 0,
            Ending::Failed => 1,
            Ending::WrongArguments => 2,
        }
    }
}

/// Writes a dump as [`dump_batches`] does, and flushes what it wrote, also before a fault.
///
/// # Errors
///
/// Those of [`DumpFault`] but for `Memory`; `Write` also if the writer can't be flushed, and then
/// what the dump wrote is in the buffer or behind it. Of any other nothing is left in the buffer.
pub fn run_dump<W: Write + Drop>(bytes: &[u8], writer: &mut BufWriter<W>) -> Result<(), DumpFault>
    ensures written { DumpsFlushed bytes.now
        (writer_contents W.contents writer.old) (writer_contents W.contents writer.new) result }
    ensures flushed { (result ≡ Err dump_fault.Write) ⊎ (writer_buffer writer.new ≡ []) }
{
    let dumped = dump_batches(bytes, writer);
    writer.flush()?;
    dumped
}
