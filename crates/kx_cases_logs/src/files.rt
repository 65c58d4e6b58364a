//! Which of these cases a file has, by the front of its name.
ghost use Rattle.std.specs.Prelude.{◌≤◌, IfOk, IfSome};

use crate::aborted::AbortedCases;
use crate::entries::EntryCases;
use crate::logs::LogCases;
use crate::open::OpenCases;
use crate::producers::ProducerCases;
use crate::txnlogs::TxnLogCases;
use kx_cases::{Tally, try_cases};
use std::alloc::Global;
use std::io;

/// Tries the cases of a file whose name begins so, up to its first `_`: `open`, `aborted`,
/// `producers`, `logs`, `entries` or `txnlogs`. None if they are of anything else.
///
/// # Errors
///
/// If what came can't be printed, or where memory runs out.
pub fn try_logs(
    rt: &(impl Print + AllocGlobal),
    front: &str,
    text: &str,
) -> io::Result<Option<Tally>>
    ensures { IfOk result (λ found. IfSome found (λ tally. tally.failed ≤ tally.tried)) }
{
    let tally = match front {
        "open" => try_cases::<OpenCases>(rt, text)?,
        "aborted" => try_cases::<AbortedCases>(rt, text)?,
        "producers" => try_cases::<ProducerCases>(rt, text)?,
        "logs" => try_cases::<LogCases>(rt, text)?,
        "entries" => try_cases::<EntryCases>(rt, text)?,
        "txnlogs" => try_cases::<TxnLogCases>(rt, text)?,
        _ => return Ok(None),
    };
    Ok(Some(tally))
}
