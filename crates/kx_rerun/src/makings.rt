//! The making of the clients, in the order of their numbers.
ghost use Rattle.std.specs.Prelude.{◌≡◌, ◌+◌, ◌<◌, ◌∷◌, [], All, IfOk, MatchOption, OnOk, drop};
ghost use Rattle.std.specs.Prelude.{length, map};
ghost use Rattle.kx_audit.specs.Making.{client_in, placed};
ghost use Rattle.kx_cluster.specs.Any.{any_making};
ghost use Rattle.kx_rerun.specs.Making.{AreClients, IsMaking, client_made, number_in, place_in};

use kx_audit::Run;
use kx_cluster::AnyMaking;
use kx_core::Event;
use kx_machine::Making;
use kx_message::ClientId;
use kx_processor::Process;
use std::alloc::{AllocError, Global};

// The number of the client that is made.
fn number_of<F: Process>(event: &Event<F>) -> ClientId
    ensures { result ≡ number_in event.now }
{
    match event {
        Event::Make { client, .. } | Event::MakeProcessor { client, .. } => *client,
        _ => ClientId::from(0),
    }
}

// The event in which the node of a trace is made, if it is a client.
fn making_event<F: Process + Copy>(making: &AnyMaking<F>) -> Option<Event<F>>
    ensures { MatchOption result
        (client_in (any_making F.image_of making.now) ≡ [])
        (λ event. IsMaking event × (client_in (any_making F.image_of making.now)
        ≡ client_made F.image_of event ∷ [])) }
{
    match making {
        AnyMaking::Plain(
            Making::Client {
                number,
                txn,
                timeout,
            },
        ) => Some(Event::Make {
            client: *number,
            txn: *txn,
            timeout: *timeout,
        }),
        AnyMaking::Plain(_) => None,
        AnyMaking::Processor(making) => Some(Event::MakeProcessor {
            client: making.number,
            txn: making.txn,
            timeout: making.timeout,
            group: making.group,
            inputs: making.inputs,
            process: making.process,
        }),
    }
}

// The place of a number among these.
fn place_of<F: Process>(made: &[Event<F>], number: ClientId) -> usize
    ensures { result ≡ place_in number (map number_in made.now) }
{
    for at in 0..made.len() {
        if number < number_of(&made[at]) {
            return at;
        }
    }
    made.len()
}

// Puts one more among these.
fn place<F: Process>(made: &mut Vec<Event<F>>, event: Event<F>) -> Result<(), AllocError>
    requires making { IsMaking event }
    requires makings { All IsMaking made.old.items }
    ensures makings { OnOk result (All IsMaking made.new.items) }
    ensures placed { OnOk result (map (client_made F.image_of) made.new.items
        ≡ placed (client_made F.image_of event) (map (client_made F.image_of) made.old.items)) }
{
    let at = place_of(made.as_slice(), number_of(&event));
    if let Err(_) = made.insert(at, event) {
        return Err(AllocError);
    }
    Ok(())
}

// Puts the client of a trace among those of the traces behind it, if the trace has one.
fn place_client<F: Process + Copy>(
    run: &Run<AnyMaking<F>>,
    number: usize,
    made: &mut Vec<Event<F>>,
) -> Result<(), AllocError>
    requires there { number < length run.now.traces }
    requires makings { All IsMaking made.old.items }
    ensures makings { OnOk result (All IsMaking made.new.items) }
    ensures ordered { OnOk result
        (AreClients F.image_of (drop (number + 1) run.now.traces) made.old.items
        → AreClients F.image_of (drop number run.now.traces) made.new.items) }
{
    let Some(trace) = run.trace(number) else {
        return Ok(());
    };
    match making_event(trace.made()) {
        Some(event) => place(made, event),
        None => Ok(()),
    }
}

/// The making of each client of the traces, in the order of their numbers.
///
/// # Errors
///
/// Only if memory runs out.
pub(crate) fn makings_of<F: Process + Copy>(
    alloc: Global,
    run: &Run<AnyMaking<F>>,
) -> Result<Vec<Event<F>>, AllocError>
    ensures makings { IfOk result (λ made. All IsMaking made.items) }
    ensures ordered { IfOk result (λ made. AreClients F.image_of run.now.traces made.items) }
{
    let mut made = Vec::new(alloc);
    for number in (0..run.len()).rev() {
        place_client(run, number, &mut made)?;
    }
    Ok(made)
}
