//! Events hold numbers, names and bytes within their ranges, as their types see to. What is
//! here changes nothing when it runs.
//!
//! Each value of an event is read once before the step: a list of texts says of no byte that it is
//! one, and schedules are of bytes.
ghost use Rattle.kx_core.specs.World.{IsEvent};
ghost use Rattle.kx_pipeline.specs.OpenSystems.{IsOpenSystemEvent, OpenSystemEvent};
ghost use Rattle.kx_system.specs.System.{System};

use crate::event::Event;
use kx_machine::{client_making_fits, input_fits};
use kx_processor::Process;

/// An event of the definitions that happens is one of an open schedule.
pub(crate) fn fits<F: Process>(event: &Event<F>)
    ensures { (s : System) (happened : OpenSystemEvent) → IsEvent F.image_of s event.now happened
        → IsOpenSystemEvent happened }
{
    match event {
        Event::Make {
            client,
            txn,
            timeout,
        } => client_making_fits(*client, *txn, *timeout),
        Event::MakeProcessor {
            client,
            txn,
            timeout,
            group,
            inputs,
            process: _,
        } => {
            client_making_fits(*client, *txn, *timeout);
            let _group = group.as_bytes();
            let _inputs = inputs.get();
        }
        Event::Deliver { .. } => {}
        Event::Hand { input, .. } => input_fits(input),
        Event::Arrive { request } => request.fits(),
    }
}
