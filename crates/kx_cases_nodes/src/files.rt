//! Which of these cases a file has, by the front of its name.
ghost use Rattle.std.specs.Prelude.{◌≤◌, IfOk, IfSome};

use crate::coordinator::CoordinatorNode;
use crate::dump::Dumps;
use crate::events::WorldEvents;
use crate::images::ImageCases;
use crate::partition::PartitionNode;
use crate::replies::Replies;
use crate::scripts::Scripts;
use kx_cases::{Tally, try_cases};
use std::alloc::Global;
use std::io;

/// Tries the cases of a file whose name begins so, up to its first `_`: `coordinator`, `partition`,
/// `reply`, `events`, `images`, `script` or `dump`. None if they are of anything else.
///
/// # Errors
///
/// If what came can't be printed, or where memory runs out.
pub fn try_nodes(
    rt: &(impl Print + AllocGlobal),
    front: &str,
    text: &str,
) -> io::Result<Option<Tally>>
    ensures { IfOk result (λ found. IfSome found (λ tally. tally.failed ≤ tally.tried)) }
{
    let tally = match front {
        "coordinator" => try_cases::<CoordinatorNode>(rt, text)?,
        "partition" => try_cases::<PartitionNode>(rt, text)?,
        "reply" => try_cases::<Replies>(rt, text)?,
        "events" => try_cases::<WorldEvents>(rt, text)?,
        "images" => try_cases::<ImageCases>(rt, text)?,
        "script" => try_cases::<Scripts>(rt, text)?,
        "dump" => try_cases::<Dumps>(rt, text)?,
        _ => return Ok(None),
    };
    Ok(Some(tally))
}
