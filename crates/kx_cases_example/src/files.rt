//! Which of these cases a file has, by the front of its name.
ghost use Rattle.std.specs.Prelude.{◌≤◌, IfOk, IfSome};

use crate::example::ExampleCases;
use kx_cases::{Tally, try_cases};
use std::alloc::Global;
use std::io;

/// Tries the cases of a file whose name begins with this, up to its first `_`: `example`. None if
/// they are of anything else.
///
/// # Errors
///
/// Only if what was tried can't be printed, or when out of memory.
pub fn try_example(
    rt: &(impl Print + AllocGlobal),
    front: &str,
    text: &str,
) -> io::Result<Option<Tally>>
    ensures { IfOk result (λ found. IfSome found (λ tally. tally.failed ≤ tally.tried)) }
{
    let tally = match front {
        "example" => try_cases::<ExampleCases>(rt, text)?,
        _ => return Ok(None),
    };
    Ok(Some(tally))
}
