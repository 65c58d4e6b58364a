//! The steps of a server's nodes, whose clients are outside, watched as they are made again.
ghost use Rattle.std.specs.Prelude.{◌≡◌, IfOk, OnOk, is_some};
ghost use Rattle.kx_watch.specs.Steps.{AddsSteps, is_outside, steps_of};

use crate::transit::Transit;
use crate::world::Watched;
use kx_core::Event;
use kx_machine::{Input, StoreMode};
use kx_message::NodeId;
use kx_outside::{OutsideRequest, can_arrive};
use kx_processor::Prefixed;
use kx_script::end_event;
use std::alloc::AllocError;

// The client's request that an input is, if it arrives from outside.
fn request_in(input: &Input) -> Result<Option<OutsideRequest>, AllocError>
    ensures { IfOk result (λ request. is_some request ≡ is_outside input.now) }
{
    match input {
        Input::Deliver(message) if can_arrive(message) => {
            Ok(OutsideRequest::new(message.clone()?))
        }
        _ => Ok(None),
    }
}

// The event that a node takes an input that no client sent.
fn event_of(
    transit: &mut Transit,
    to: NodeId,
    input: &Input,
    store: StoreMode,
) -> Result<Event<Prefixed>, AllocError> {
    match input {
        Input::Deliver(message) => {
            let number = transit.arrive(message)?.unwrap_or(usize::MAX);
            Ok(Event::Deliver { number, to, store })
        }
        other => Ok(Event::Hand {
            to,
            input: other.clone()?,
            store,
        }),
    }
}

impl Watched {
    // An event of a server happens, and what is sent in it is on its way.
    fn happen_at_server(&mut self, event: Event<Prefixed>) -> Result<(), AllocError>
        ensures { OnOk result (AddsSteps 1 self.old self.new) }
    {
        let happened = self.happen(&event);
        end_event(event);
        happened?;
        let sent = self.running.sent();
        let last = sent.last();
        let first = sent.len().saturating_sub(last.len());
        self.transit.add(first, last)
    }

    /// A node of a server takes an input, while its store does this. A client's request is sent by a
    /// client outside, which is a step of its own; any other message is the first that is the same of
    /// those that the nodes sent and that haven't arrived.
    ///
    /// # Errors
    ///
    /// Only if memory runs out; then the server can't be watched any further.
    pub fn take(&mut self, to: NodeId, input: &Input, store: StoreMode) -> Result<(), AllocError>
        ensures { OnOk result (AddsSteps (steps_of input.now) self.old self.new) }
    {
        match request_in(input)? {
            Some(request) => {
                let number = self.running.sent().len();
                self.happen_at_server(Event::Arrive { request })?;
                self.happen_at_server(Event::Deliver { number, to, store })
            }
            None => {
                let event = event_of(&mut self.transit, to, input, store)?;
                self.happen_at_server(event)
            }
        }
    }
}
