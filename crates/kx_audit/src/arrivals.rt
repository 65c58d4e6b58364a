//! The requests of clients outside that traces take in.
ghost use Rattle.std.specs.Prelude.{◌≡◌, ◌++◌, All, IfOk, OnOk};
ghost use Rattle.kx_audit.specs.Arrivals.{arrivals, requested, requests_in};
ghost use Rattle.kx_audit.specs.Merged.{arrived_at};
ghost use Rattle.kx_outside.specs.Requests.{IsRequest};

use crate::clients::Clients;
use crate::remade::Remade;
use crate::replayer::Replayer;
use crate::sent::Sent;
use kx_machine::Input;
use kx_nodes::Step;
use kx_outside::{can_arrive, request_fits};
use std::alloc::{AllocError, Global};

// Adds the request that is taken in, if it can arrive from outside.
fn add_request(all: &mut Sent, input: &Input) -> Result<(), AllocError>
    ensures value { OnOk result (all.new ≡ all.old ++ requested input.now) }
    ensures fit { All IsRequest (requested input.now) }
{
    let Input::Deliver(message) = input else {
        return Ok(());
    };
    if !can_arrive(message) {
        return Ok(());
    }
    request_fits(message);
    all.add(message.clone()?)
}

// Adds those that the steps take in.
fn add_requests(all: &mut Sent, steps: &[Step]) -> Result<(), AllocError>
    ensures value { OnOk result (all.new ≡ all.old ++ requests_in steps.now) }
    ensures fit { OnOk result (All IsRequest (requests_in steps.now)) }
{
    for step in steps {
        add_request(all, &step.input)?;
    }
    Ok(())
}

/// What has arrived from outside: nothing if the clients are inside, and else each request that
/// a trace takes in.
///
/// # Errors
///
/// Only if memory runs out.
pub(crate) fn arrived<B: Remade>(
    alloc: Global,
    clients: Clients,
    nodes: &[Replayer<B>],
) -> Result<Sent, AllocError>
    ensures value { IfOk result (λ all. all ≡ arrived_at B.making clients nodes.now) }
    ensures fit { OnOk result (All IsRequest (arrived_at B.making clients nodes.now)) }
{
    let mut all = Sent::new(alloc);
    match clients {
        Clients::Inside => Ok(all),
        Clients::Outside => {
            for node in nodes {
                add_requests(&mut all, node.steps())?;
            }
            Ok(all)
        }
    }
}
