//! How many connections a process may have beside its files.
ghost use Rattle.std.specs.Prelude.{◌≡◌};
ghost use Rattle.kx_serve.specs.Limits.{fitting};

use kx_server::Connections;
use libc::types::rlimit;
use libc::{RLIMIT_NOFILE, getrlimit};
use std::fs;
use std::fs::{File, Files};

// How many files a server opens for a while beside those that it has.
const SPARE: u64 = 8;

// The folder in which Linux lists the files that a process has open.
const OPEN_FILES: &str = "/proc/self/fd";

// How many files the process may have open. None if the system doesn't say.
fn limit_of_files() -> Option<u64> {
    let mut limit = rlimit {
        rlim_cur: 0,
        rlim_max: 0,
    };
    if getrlimit(RLIMIT_NOFILE, &mut limit) == 0 {
        Some(limit.rlim_cur)
    } else {
        None
    }
}

// How many files the process has open, one more while they are counted. None if the system doesn't
// list them.
fn open_files<R: Files<File = File> + AllocGlobal + Copy + Drop>(rt: &R) -> Option<u64> {
    let mut count = 0u64;
    for file in fs::read_dir(rt, OPEN_FILES).ok()? {
        if file.is_err() {
            return None;
        }
        count = count.saturating_add(1);
    }
    Some(count)
}

// How many of these connections there may be beside files that are open, of as many as may be
// open: one at least.
fn fitting(asked: Connections, held: u64, limit: u64) -> Connections
    ensures { result ≡ fitting asked held limit }
{
    let room = limit.saturating_sub(held).saturating_sub(SPARE);
    match u16::try_from(room) {
        Ok(room) if room < asked.get() => Connections::new(room.max(1)).unwrap_or(asked),
        _ => asked,
    }
}

/// As many of these connections as the process may have at a time beside the files that it has
/// open. If these are fewer, a line on standard error says so.
pub(crate) fn connections_beside_files<R: Files<File = File> + AllocGlobal + Eprint + Copy + Drop>(
    rt: &R,
    asked: Connections,
) -> Connections {
    let (Some(limit), Some(held)) = (limit_of_files(), open_files(rt)) else {
        return asked;
    };
    let most = fitting(asked, held, limit);
    if most.get() < asked.get() {
        let most = most.get();
        // Nobody may watch.
        let _ = eprintln!(rt; "at most {most} connections at a time: {limit} files may be open");
    }
    most
}
