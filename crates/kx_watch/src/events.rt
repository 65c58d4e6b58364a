//! A list of events that happen in a world of their own, and are watched.
ghost use Rattle.std.specs.Prelude.{◌≡◌, ◌+◌, IfOk, OnOk, length};

use crate::world::{Watched, all_partitions};
use kx_core::Event;
use kx_page::Run;
use kx_processor::Prefixed;
use std::alloc::{AllocError, Global};

// Events happen in a world, one after the other, and each is recorded.
fn watch_all(watched: &mut Watched, events: &[Event<Prefixed>]) -> Result<(), AllocError>
    ensures { OnOk result (length watched.new ≡ length watched.old + length events.now) }
{
    for event in events {
        watched.happen(event)?;
    }
    Ok(())
}

/// The run of this title that the events are, which happen one after the other in a world of all
/// data partitions, with empty logs at first: each event is a step of it.
///
/// # Errors
///
/// Only if memory runs out.
pub fn run_of_events(
    alloc: Global,
    title: &'static str,
    events: &[Event<Prefixed>],
) -> Result<Run, AllocError>
    ensures steps { IfOk result (λ run. length run.steps.items ≡ length events.now) }
    ensures title { IfOk result (λ run. run.title.now ≡ title.now) }
{
    let mut watched = Watched::new(alloc, all_partitions())?;
    let happened = watch_all(&mut watched, events);
    watched.into_run(title, happened)
}
