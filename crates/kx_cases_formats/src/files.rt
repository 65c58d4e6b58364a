//! Which of these cases a file has, by the front of its name.
ghost use Rattle.std.specs.Prelude.{◌≤◌, IfOk, IfSome};

use crate::batches::BatchCases;
use crate::frames::FrameCases;
use crate::numbers::NumberCases;
use crate::values::ValueCases;
use kx_cases::{Tally, try_cases};
use std::alloc::Global;
use std::io;

/// Tries the cases of a file whose name begins so, up to its first `_`: `numbers`, `values`,
/// `frames`, `messages` or `batches`. None if they are of anything else.
///
/// # Errors
///
/// If what came can't be printed, or where memory runs out.
pub fn try_formats(
    rt: &(impl Print + AllocGlobal),
    front: &str,
    text: &str,
) -> io::Result<Option<Tally>>
    ensures { IfOk result (λ found. IfSome found (λ tally. tally.failed ≤ tally.tried)) }
{
    let tally = match front {
        "numbers" => try_cases::<NumberCases>(rt, text)?,
        "values" => try_cases::<ValueCases>(rt, text)?,
        "frames" | "messages" => try_cases::<FrameCases>(rt, text)?,
        "batches" => try_cases::<BatchCases>(rt, text)?,
        _ => return Ok(None),
    };
    Ok(Some(tally))
}
