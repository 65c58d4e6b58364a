//! A script, and what it has to write.
ghost use Rattle.std.specs.Prelude.{◌≡◌, ◌≤◌, IfOk};

use kx_cases::{Script, Tally, tell};
use kx_script::run_script;
use kx_text::ScriptFault;
use std::alloc::{AllocError, Global};
use std::io;
use std::rt::Files;

// Whether what has to be written ends in the bad line of this number.
fn ends_badly(alloc: Global, wanted: &str, number: u64) -> Result<bool, AllocError> {
    let line = format!(in alloc; "bad line {number}\n")?;
    Ok(wanted.strip_suffix(line.as_str()).is_some())
}

// Whether the script writes what it has to, and ends there: at its end, or at a bad line if that
// is the last that it has to write.
fn is_right(alloc: Global, script: &str, wanted: &str) -> Result<bool, AllocError> {
    let mut reader = script.as_bytes();
    let mut written = Vec::new(alloc);
    let ended = run_script(alloc, &mut reader, &mut written);
    if written.as_slice() != wanted.as_bytes() {
        return Ok(false);
    }
    match ended {
        Ok(()) => Ok(!wanted.contains("bad line ")),
        Err(ScriptFault::BadLine(number)) => ends_badly(alloc, wanted, number),
        Err(_) => Ok(false),
    }
}

/// Runs the script NAME.kx, which has to write NAME.out, and prints `ok NAME` or `FAILED NAME`.
pub fn try_pair(rt: &(impl Files + Print + AllocGlobal), name: &str) -> io::Result<Tally>
    ensures { IfOk result (λ tally. (tally.tried ≡ 1) × (tally.failed ≤ 1)) }
{
    let script = Script::read(rt, name, "kx")?;
    let (text, wanted) = (script.text.as_str(), script.wanted.as_str());
    tell(rt, name, is_right(rt.alloc(), text, wanted)?)
}
