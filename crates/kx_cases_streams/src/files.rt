//! Which of these cases a file has, by the front of its name.
ghost use Rattle.std.specs.Prelude.{◌≤◌, IfOk, IfSome};

use crate::streams::StreamCases;
use kx_cases::{Tally, try_cases};
use std::alloc::Global;
use std::io;

/// Tries the cases of a file whose name begins so, up to its first `_`: `streams`. None if they
/// are of anything else.
///
/// # Errors
///
/// If what came can't be printed, or where memory runs out.
pub fn try_streams(
    rt: &(impl Print + AllocGlobal),
    front: &str,
    text: &str,
) -> io::Result<Option<Tally>>
    ensures { IfOk result (λ found. IfSome found (λ tally. tally.failed ≤ tally.tried)) }
{
    let tally = match front {
        "streams" => try_cases::<StreamCases>(rt, text)?,
        _ => return Ok(None),
    };
    Ok(Some(tally))
}
