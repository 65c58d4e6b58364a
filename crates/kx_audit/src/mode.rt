//! What the store of a machine that runs a trace again is to do in each step.
ghost use Rattle.std.specs.Prelude.{◌≡◌, MatchOption, Option, Some};
ghost use Rattle.kx_nodes.specs.Again.{leaves_whole, mode_for, next_read, read_by};
ghost use Rattle.kx_nodes.specs.declared.mark.Mark.{Mark};

use kx_batch::BATCH_LIMIT;
use kx_machine::{Input, StoreMode};
use kx_nodes::{Mark, Step};

// The mark of a restart that read the log.
fn read_mark(step: &Step) -> Option<Mark>
    ensures { (later : Option Mark) → MatchOption result
        (read_by step.now.input step.now.mark later ≡ later)
        (λ mark. read_by step.now.input step.now.mark later ≡ Some mark) }
{
    match (&step.input, step.mark) {
        (Input::Restart(_), Mark::Unread) => None,
        (Input::Restart(_), mark) => Some(mark),
        _ => None,
    }
}

// The mark of the next one.
fn next_read(behind: &[Step]) -> Option<Mark>
    ensures { result ≡ next_read behind.now }
{
    for step in behind {
        if let Some(mark) = read_mark(step) {
            return Some(mark);
        }
    }
    None
}

// Whether an append that fails in front of these steps leaves its whole entry after.
fn leaves_whole(behind: &[Step]) -> bool
    ensures { result ≡ leaves_whole behind.now }
{
    match next_read(behind) {
        Some(Mark::Found | Mark::UsedUp) => true,
        Some(Mark::Unwritten { found }) => found,
        _ => false,
    }
}

/// What the store is to do in a step, by its mark and by the steps after it.
pub(crate) fn mode_for(step: &Step, behind: &[Step]) -> StoreMode
    ensures { result ≡ mode_for step.now behind.now }
{
    match step.mark {
        Mark::Unread => StoreMode::CannotLoad,
        Mark::Failed | Mark::Unwritten { .. } => {
            let keep = if leaves_whole(behind) { BATCH_LIMIT } else { 0 };
            StoreMode::Fails { keep: keep as u64 }
        }
        _ => StoreMode::Works,
    }
}
