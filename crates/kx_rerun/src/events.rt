//! The events of a run.
ghost use Rattle.std.specs.Prelude.{◌≡◌, ℕ, IfOk, List, OnOk, Some, slice_get};
ghost use Rattle.kx_audit.specs.Making.{NodeMaking};
ghost use Rattle.kx_audit.specs.Replayed.{trails_of};
ghost use Rattle.kx_audit.specs.Rerun.{behind_at};
ghost use Rattle.kx_audit.specs.Run.{IsTurn, IsYes};
ghost use Rattle.kx_audit.specs.Told.{Told};
ghost use Rattle.kx_cluster.specs.Any.{any_making};
ghost use Rattle.kx_machines.specs.Any.{any_stands};
ghost use Rattle.kx_nodes.specs.declared.receipt.Receipt.{Receipt};
ghost use Rattle.kx_rerun.specs.Events.{LeadTo};
ghost use Rattle.kx_rerun.specs.Stepping.{AddsEvent, IsStepOf};
ghost use Rattle.kx_system.specs.System.{System};

use crate::makings::makings_of;
use crate::numbers::Numbers;
use kx_audit::{Run, Turn};
use kx_cluster::AnyMaking;
use kx_core::Event;
use kx_machine::{Input, StoreMode};
use kx_message::NodeId;
use kx_processor::Process;
use std::alloc::{AllocError, Global};

// The event that a step is, after these messages were sent.
fn event_of<F: Process>(
    sent: &Numbers,
    to: NodeId,
    input: &Input,
    store: StoreMode,
) -> Result<Event<F>, AllocError>
    ensures { IfOk result (IsStepOf sent.now to input.now store) }
{
    match input {
        Input::Deliver(message) => {
            let number = sent.number(message)?.unwrap_or(usize::MAX);
            Ok(Event::Deliver { number, to, store })
        }
        other => Ok(Event::Hand {
            to,
            input: other.clone()?,
            store,
        }),
    }
}

// Adds the event of a step, and the messages that the step sent.
fn add_step<F: Process + Copy>(
    run: &Run<AnyMaking<F>>,
    turn: Turn,
    sent: &mut Numbers,
    events: &mut Vec<Event<F>>,
) -> Result<(), AllocError>
    ensures { OnOk result ((j : ℕ) (x : Told) → slice_get run.now.turns j ≡ Some turn
        → slice_get run.now.told j ≡ Some x
        → IsTurn (trails_of (any_making F.image_of) run.now.traces) turn x
        → AddsEvent (behind_at run.now.traces turn) x sent.old sent.new events.old.items
        events.new.items) }
{
    let (Some(trace), Some(step)) = (run.trace(turn.trace), run.step(turn)) else {
        return Ok(());
    };
    let (Some(store), Some(taken)) = (run.mode(turn), run.taken(turn)) else {
        return Ok(());
    };
    events.push(event_of(sent, trace.node(), &step.input, store)?)?;
    sent.add_all(taken.messages.as_slice())
}

/// The run as events of a world: the making of each client of the traces, in the order of their
/// numbers, and then each step, in the audit's order. A step that took a message in is the delivery
/// of one that is the same and was sent before it, by its number; in each step the store does what
/// it did as the trace was run again. In a world of all data partitions the events lead to the
/// system to which the audit's schedule led.
///
/// It takes the time of copying each input and of hashing each message once or twice.
///
/// # Errors
///
/// Only if memory runs out.
pub fn events_of<F: Process + Copy>(
    alloc: Global,
    run: &Run<AnyMaking<F>>,
) -> Result<Vec<Event<F>>, AllocError>
    ensures { IfOk result (λ events. (given : List Receipt) (s : System)
        → IsYes (any_making F.image_of) (any_stands F.image_of) run.now given s
        → LeadTo F.image_of events.items s) }
{
    let mut events = makings_of(alloc, run)?;
    let mut sent = Numbers::new(alloc);
    let turns = run.turns();
    for turn in turns {
        add_step(run, *turn, &mut sent, &mut events)?;
    }
    Ok(events)
}
