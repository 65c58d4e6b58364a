//! What the logs of partitions come to, before one of them is opened.
ghost use Rattle.std.specs.Prelude.{◌≡◌, ◌≤◌, MatchResult};
ghost use Rattle.kx_ends.specs.Asking.{missing};
ghost use Rattle.kx_serve.specs.Skipping.{WhyNotSkipped, skipped_limit};

use crate::fault::ServeFault;
use crate::files::LogFile;
use crate::folder::{Folder, InFiles};
use kx_ends::{EndFault, Ends, judge, still_missing};
use kx_message::PartitionId;
use kx_server::Partitions;
use std::alloc::Global;
use std::fs::{File, Files};

// How many producer ids a start passes over at most.
const MOST_SKIPPED: u64 = 65_536;

/// The producer ids that are named in the logs of partitions.
#[derive(Clone, Copy)]
pub(crate) struct NamedIds {
    /// One above the greatest, 0 if none is named.
    pub(crate) above: u64,
    /// The log that names the greatest.
    pub(crate) file: LogFile,
}

impl NamedIds {
    // In logs without batches.
    fn none() -> NamedIds {
        NamedIds {
            above: 0,
            file: LogFile::Offsets,
        }
    }

    // With those that one more log names.
    fn or(self, above: u64, file: LogFile) -> NamedIds {
        if self.above < above {
            NamedIds { above, file }
        } else {
            self
        }
    }

    /// How many producer ids a coordinator has to pass over whose next one is `next`, so that it
    /// allocates none that a log names.
    ///
    /// # Errors
    ///
    /// [`ServeFault::Ids`] if there are more than 65,536 of them.
    pub(crate) fn skipped(self, next: u64) -> Result<u32, ServeFault>
        ensures { MatchResult result
            (λ count. (count ≡ missing next self.above) × (count ≤ skipped_limit))
            (WhyNotSkipped self.file (missing next self.above)) }
    {
        let count = still_missing(next, self.above);
        if MOST_SKIPPED < count {
            return Err(ServeFault::Ids {
                file: self.file,
                count,
            });
        }
        Ok(count as u32)
    }
}

// Judges a log in a folder.
fn judge_log<F: Folder>(alloc: Global, folder: &F, file: LogFile) -> Result<Ends, ServeFault> {
    let bytes = folder.bytes(alloc, file)?;
    match judge(alloc, bytes.as_slice()) {
        Ok(ends) => Ok(ends),
        Err(EndFault::Memory) => Err(ServeFault::Memory),
        Err(fault) => Err(ServeFault::End { file, fault }),
    }
}

// Judges the logs in a folder, one after the other.
fn judge_all<F: Folder>(
    alloc: Global,
    folder: &F,
    partitions: Partitions,
) -> Result<NamedIds, ServeFault> {
    let mut named = NamedIds::none();
    for number in 0..partitions.get() {
        let file = LogFile::Partition(number);
        let ends = judge_log(alloc, folder, file)?;
        named = named.or(ends.above_ids, file);
    }
    let ends = judge_log(alloc, folder, LogFile::Offsets)?;
    Ok(named.or(ends.above_ids, LogFile::Offsets))
}

/// Judges the logs of the partitions that are served, if they are in a folder, which has this number,
/// before one of them is opened. The folder stays as it is.
///
/// # Errors
///
/// [`ServeFault::End`] at the first log of which opening would cut off more than an append that was
/// cut short, [`ServeFault::Open`] if one can't be read, [`ServeFault::Memory`].
pub(crate) fn judge_logs<R: Files<File = File> + AllocGlobal + Eprint + Copy + Drop>(
    rt: &R,
    dir: Option<&str>,
    number: u64,
    partitions: Partitions,
) -> Result<NamedIds, ServeFault> {
    match dir {
        None => Ok(NamedIds::none()),
        Some(dir) => {
            let folder = InFiles {
                rt: *rt,
                dir,
                number,
                tells_progress: false,
            };
            judge_all(rt.alloc(), &folder, partitions)
        }
    }
}
