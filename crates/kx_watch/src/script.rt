//! A script whose events happen in a world of its own, and are watched.
ghost use Rattle.std.specs.Prelude.{◌≡◌, IfOk};

use crate::world::Watched;
use kx_core::Happened;
use kx_page::Run;
use kx_script::{answer_in, event_in, world_in};
use kx_view::Recorder;
use std::alloc::{AllocError, Global};

// Carries a line out in a world, and watches its event if it is one; false if it is bad. Of a line
// that is no event nothing is shown.
fn take_line(alloc: Global, watched: &mut Watched, line: &[u8]) -> Result<bool, AllocError> {
    match event_in(alloc, &watched.running, line) {
        Some(Ok(read)) => {
            let happened = watched.happen(&read.event);
            if matches!(happened, Ok(Happened { failed: true, .. })) {
                watched.running.marks.set(&read.place, None);
            }
            read.end();
            happened?;
            Ok(true)
        }
        Some(Err(error)) => Err(error),
        None => {
            let mut unseen: Vec<u8> = Vec::new(alloc);
            match answer_in(alloc, &mut watched.running, line, &mut unseen) {
                Ok(is_good) => Ok(is_good),
                Err(_) => Err(AllocError),
            }
        }
    }
}

// Carries lines out, up to the end or the first bad one.
fn take_lines(alloc: Global, watched: &mut Watched, script: &[u8]) -> Result<(), AllocError> {
    for line in script.split(|byte| *byte == b'\n') {
        if !line.is_empty() && !take_line(alloc, watched, line)? {
            return Ok(());
        }
    }
    Ok(())
}

// The first line of these bytes that isn't empty, and all after it.
fn cut(script: &[u8]) -> (&[u8], &[u8]) {
    let mut rest = script;
    while let Some((b'\n', after)) = rest.split_first() {
        rest = after;
    }
    match rest.iter().position(|byte| *byte == b'\n') {
        Some(end) => rest.split_at(end),
        None => (rest, &[]),
    }
}

/// The run that a script is, up to its end or its first bad line, of this title.
///
/// # Errors
///
/// Only if memory runs out.
pub fn run_of_script(alloc: Global, title: &'static str, script: &[u8]) -> Result<Run, AllocError>
    ensures { IfOk result (λ run. run.title.now ≡ title.now) }
{
    let (line, rest) = cut(script);
    let Some(partitions) = world_in(line) else {
        return Recorder::new(alloc).into_run(title);
    };
    let mut watched = Watched::new(alloc, partitions)?;
    let taken = take_lines(alloc, &mut watched, rest);
    watched.into_run(title, taken)
}
