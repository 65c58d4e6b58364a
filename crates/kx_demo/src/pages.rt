//! What happened in a demonstration, as a page to look at.
ghost use Rattle.std.specs.Prelude.{◌≡◌, ◌⊎◌, IfErr, OnOk};
ghost use Rattle.kx_demo.specs.Pages.{WritesPage};
ghost use Rattle.kx_demo.specs.declared.fault.DemoFault.TheVariants.{Memory, Page};
ghost use Rattle.kx_page.specs.declared.run.Run.{Run};

use crate::counting::Found;
use crate::fault::DemoFault;
use kx_page::{Run, page};
use kx_rerun::events_of;
use kx_watch::run_of_events;
use std::alloc::{AllocError, Global};
use std::io::Write;

// The audited run as it is drawn: its clients and steps happen again, as events of a world.
fn drawn(alloc: Global, run: &Found) -> Result<Run, AllocError> {
    let events = events_of(alloc, run)?;
    let drawn = run_of_events(alloc, "A demonstration", events.as_slice());
    drop(events);
    drawn
}

// Writes the page of a run that is drawn.
fn write_drawn<W: Write>(alloc: Global, run: &Run, out: &mut W) -> Result<(), DemoFault>
    ensures written { OnOk result (WritesPage run.now (W.contents out.old) (W.contents out.new)) }
    ensures fault { IfErr result (λ fault. (fault ≡ Memory) ⊎ (fault ≡ Page)) }
{
    let text = page(alloc, run)?;
    match out.write_all(text.as_slice()) {
        Ok(()) => Ok(()),
        Err(_) => Err(DemoFault::Page),
    }
}

/// Writes the audited run as a page in HTML (kx_page): the making of each client and then each step,
/// in the audit's order, has its row.
///
/// # Errors
///
/// `Page` if the output can't be written, `Memory` if memory runs out; part of it may be
/// written then.
pub fn write_page<W: Write>(alloc: Global, run: &Found, out: &mut W) -> Result<(), DemoFault>
    ensures written { OnOk result
        ((drawn : Run) × WritesPage drawn (W.contents out.old) (W.contents out.new)) }
    ensures fault { IfErr result (λ fault. (fault ≡ Memory) ⊎ (fault ≡ Page)) }
{
    let drawn = drawn(alloc, run)?;
    let wrote = write_drawn(alloc, &drawn, out);
    drawn.end();
    wrote
}
