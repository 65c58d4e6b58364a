//! What the words of a command line ask for, or why they ask for nothing.
ghost use Rattle.std.specs.Prelude.{MatchResult, map, string_bytes};
ghost use Rattle.kx_program.specs.Asking.{IsRefusedFor};
ghost use Rattle.kx_program.specs.Tasks.{WordsAskFor};

use crate::task::{Task, task_in};
use crate::usage::command_line;
use std::alloc::Global;

/// Why words ask for nothing that the program does.
#[derive(Drop)]
pub enum Refusal {
    /// clap refuses them, shows help that they ask for, or has no memory.
    Usage(clap::Error),
    /// clap takes them, and they name no task.
    Nothing,
    /// There is no memory for the command line.
    Memory,
}

/// What these words ask for, of which the first is the program's name. `is_watched` says whether
/// somebody watches standard error.
///
/// # Errors
///
/// As [`Refusal`] has them.
pub fn asked<'a>(alloc: Global, words: &'a [String], is_watched: bool) -> Result<Task<'a>, Refusal>
    ensures { MatchResult result
        (WordsAskFor (map string_bytes words.entry.now) is_watched)
        (IsRefusedFor (map string_bytes words.entry.now) is_watched) }
{
    let Ok(command) = command_line(alloc) else {
        return Err(Refusal::Memory);
    };
    let found = match command.try_get_matches_from(words) {
        Ok(found) => found,
        Err(error) => return Err(Refusal::Usage(error)),
    };
    match task_in(&found, is_watched) {
        Some(task) => Ok(task),
        None => Err(Refusal::Nothing),
    }
}
