//! A file of runs of the program, and what they have to tell.
ghost use Rattle.std.specs.Prelude.{◌≡◌, ◌≤◌, IfOk};

use crate::runs::ProgramRuns;
use kx_cases::{Script, Tally, judge_script};
use std::alloc::Global;
use std::fs::{File, Files};
use std::io;
use std::net::{Net, TcpListener, TcpStream};
use std::random::RandomSource;
use std::sync::Wait;
use std::thread::Threads;
use std::time::Clock;

/// Carries out the runs in NAME.program, which have to tell NAME.out, and prints `ok NAME` or
/// `FAILED NAME`.
pub fn try_program<
    R: Net<Listener = TcpListener, Stream = TcpStream>
        + Files<File = File>
        + Print
        + AllocGlobal
        + Eprint
        + Threads
        + Wait
        + Clock
        + RandomSource
        + Copy
        + Send
        + Sync
        + Drop
        + 'static,
>(rt: &R, name: &str) -> io::Result<Tally>
    ensures { IfOk result (λ tally. (tally.tried ≡ 1) × (tally.failed ≤ 1)) }
{
    let script = Script::read(rt, name, "program")?;
    let told = ProgramRuns::new(*rt).tell(script.text.as_str());
    judge_script(rt, name, script.wanted.as_str(), told)
}
