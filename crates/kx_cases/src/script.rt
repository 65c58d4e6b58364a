//! A script with a whole text that it has to tell.
ghost use Rattle.std.specs.Prelude.{◌≡◌, ◌≤◌, ◌↔◌, IfOk, Some, if◌then◌else◌};
ghost use Rattle.kx_cases.specs.Tally.{answer_of};

use crate::fault::StepFault;
use crate::tally::Tally;
use std::alloc::Global;
use std::rt::Files;
use std::{fs, io};

/// A script, and what it has to tell.
#[derive(Drop)]
pub struct Script {
    /// The script.
    pub text: String,
    /// What it has to tell, to the last byte.
    pub wanted: String,
}

impl Script {
    /// Reads the script NAME.KIND, and NAME.out, which it has to tell.
    ///
    /// # Errors
    ///
    /// If one of the files can't be read, or where memory runs out.
    pub fn read(rt: &(impl Files + AllocGlobal), name: &str, kind: &str) -> io::Result<Script> {
        let alloc = rt.alloc();
        let text = fs::read_to_string(rt, format!(in alloc; "{name}.{kind}")?)?;
        let wanted = fs::read_to_string(rt, format!(in alloc; "{name}.out")?)?;
        Ok(Script { text, wanted })
    }
}

/// Prints `ok NAME` or `FAILED NAME` of one that was tried.
///
/// # Errors
///
/// If it can't be printed.
pub fn tell(rt: &impl Print, name: &str, is_right: bool) -> io::Result<Tally>
    ensures tried { IfOk result (λ tally. tally.tried ≡ 1) }
    ensures failed { IfOk result (λ tally. tally.failed ≡ if is_right then 0 else 1) }
{
    let told = if is_right { "ok" } else { "FAILED" };
    println!(rt; "{told} {name}")?;
    Ok(Tally {
        tried: 1,
        failed: u64::from(!is_right),
    })
}

/// Prints `ok NAME` if a script told what it had to, else `FAILED NAME` and what it told, or why
/// it has nothing to tell.
///
/// # Errors
///
/// If it can't be printed.
pub fn judge_script(
    rt: &impl Print,
    name: &str,
    wanted: &str,
    told: Result<String, StepFault>,
) -> io::Result<Tally>
    ensures tried { IfOk result (λ tally. tally.tried ≡ 1) }
    ensures most { IfOk result (λ tally. tally.failed ≤ 1) }
    ensures passed { IfOk result (λ tally.
        (tally.failed ≡ 0) ↔ (answer_of told ≡ Some wanted.now)) }
{
    match told {
        Ok(text) => {
            let is_right = text.as_str() == wanted;
            let tally = tell(rt, name, is_right)?;
            if !is_right {
                print!(rt; "{text}")?;
            }
            Ok(tally)
        }
        Err(fault) => {
            let tally = tell(rt, name, false)?;
            println!(rt; "{fault}")?;
            Ok(tally)
        }
    }
}
