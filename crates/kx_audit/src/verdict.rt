//! The audit of traces and receipts.
ghost use Rattle.std.specs.Prelude.{◌≡◌, All, IfErr, IfOk, List, OnOk, length};
ghost use Rattle.std.specs.Bool.{Decides};
ghost use Rattle.kx_audit.specs.Arrivals.{arrivals};
ghost use Rattle.kx_audit.specs.Joined.{AreApart};
ghost use Rattle.kx_audit.specs.Merged.{AreDone, AreFresh, arrived_at};
ghost use Rattle.kx_audit.specs.Receipts.{AreDistinct, AreNamed};
ghost use Rattle.kx_audit.specs.Refused.{AreServersRefused, HaveOrder, HaveStranger, IsRefused};
ghost use Rattle.kx_audit.specs.Refused.{IsRefusedWith};
ghost use Rattle.kx_audit.specs.Replayed.{AreReplayed, steps_of, traces_of, trails_of};
ghost use Rattle.kx_audit.specs.Run.{AreServersYes, IsFound, IsYes};
ghost use Rattle.kx_nodes.specs.declared.receipt.Receipt.{Receipt};
ghost use Rattle.kx_outside.specs.Requests.{IsRequest};
ghost use Rattle.kx_system.specs.System.{System};

use crate::arrivals::arrived;
use crate::auditor::Auditor;
use crate::clients::Clients;
use crate::fault::AuditFault;
use crate::fits::traces_fit;
use crate::origins::{have_stranger, have_twins};
use crate::receipts::{are_distinct, are_named};
use crate::remade::Remade;
use crate::replayer::{Replayer, replay_all};
use crate::run::Run;
use kx_nodes::{Receipt, Trace, traces_tell_answers_and_logs};
use kx_pipeline::{open_systems_keep_promises, systems_keep_promises};
use std::alloc::Global;

// Sees that no two traces are of one node, and that each message arrived from outside, or was sent
// by some step.
fn check_origins<B: Remade>(
    alloc: Global,
    clients: Clients,
    nodes: &[Replayer<B>],
) -> Result<(), AuditFault>
    requires { AreReplayed B.making B.Machine.stands nodes.now }
    ensures apart { OnOk result (AreApart (trails_of B.making (traces_of nodes.now))) }
    ensures origins { OnOk result (HaveStranger (arrived_at B.making clients nodes.now)
        (trails_of B.making (traces_of nodes.now)) → ⊥) }
    ensures refused { IfErr result (λ fault. (receipts : List Receipt)
        → IsRefusedWith (arrived_at B.making clients nodes.now)
        (trails_of B.making (traces_of nodes.now)) receipts fault) }
{
    if have_twins(nodes) {
        return Err(AuditFault::Origin);
    }
    traces_tell_answers_and_logs();
    let arrived = arrived(alloc, clients, nodes)?;
    if have_stranger(arrived, nodes)? {
        return Err(AuditFault::Origin);
    }
    Ok(())
}

// Puts all steps into one order.
fn merge<B: Remade>(
    alloc: Global,
    clients: Clients,
    nodes: Vec<Replayer<B>>,
) -> Result<Auditor<B>, AuditFault>
    requires fresh { AreFresh nodes.items }
    requires replayed { AreReplayed B.making B.Machine.stands nodes.items }
    requires apart { AreApart (trails_of B.making (traces_of nodes.items)) }
    requires origins { HaveStranger (arrived_at B.making clients nodes.items)
        (trails_of B.making (traces_of nodes.items)) → ⊥ }
    ensures clients { IfOk result (λ merged. merged.clients ≡ clients) }
    ensures traces { IfOk result (λ merged. traces_of merged.nodes ≡ traces_of nodes.items) }
    ensures done { IfOk result (λ merged. AreDone merged.nodes) }
    ensures ordered { OnOk result (HaveOrder (arrived_at B.making clients nodes.items)
        (trails_of B.making (traces_of nodes.items))) }
    ensures fit { OnOk result (All IsRequest (arrived_at B.making clients nodes.items)) }
    ensures refused { IfErr result (λ fault. (receipts : List Receipt)
        → IsRefusedWith (arrived_at B.making clients nodes.items)
        (trails_of B.making (traces_of nodes.items)) receipts fault) }
{
    let arrived = arrived(alloc, clients, nodes.as_slice())?;
    let merged = Auditor::start(alloc, clients, nodes, arrived).run()?;
    if !merged.is_done() {
        return Err(AuditFault::Order);
    }
    Ok(merged)
}

// Whether the traces have this many steps.
fn have_steps<B: Remade>(nodes: &[Replayer<B>], count: usize) -> bool
    ensures { Decides result (count ≡ steps_of (traces_of nodes.now)) }
{
    let mut left = count;
    for node in nodes {
        if left < node.len() {
            return false;
        }
        left -= node.len();
    }
    left == 0
}

// Sees that the receipts are one for each step.
fn check_receipts<B: Remade>(
    alloc: Global,
    clients: Clients,
    nodes: &[Replayer<B>],
    receipts: &[Receipt],
) -> Result<(), AuditFault>
    requires replayed { AreReplayed B.making B.Machine.stands nodes.now }
    requires ordered { HaveOrder (arrived_at B.making clients nodes.now)
        (trails_of B.making (traces_of nodes.now)) }
    ensures named { OnOk result (AreNamed B.making nodes.now receipts.now) }
    ensures count { OnOk result (length receipts.now ≡ steps_of (traces_of nodes.now)) }
    ensures distinct { OnOk result (AreDistinct receipts.now) }
    ensures refused { IfErr result (IsRefusedWith (arrived_at B.making clients nodes.now)
        (trails_of B.making (traces_of nodes.now)) receipts.now) }
{
    traces_tell_answers_and_logs();
    if !are_named(alloc, nodes, receipts)? {
        return Err(AuditFault::Receipt);
    }
    if !have_steps(nodes, receipts.len()) {
        return Err(AuditFault::Count);
    }
    if !are_distinct(alloc, receipts)? {
        return Err(AuditFault::Count);
    }
    Ok(())
}

// Audits the traces of nodes and the receipts of their steps, by whose the clients are.
fn find<B: Remade>(
    alloc: Global,
    clients: Clients,
    traces: Vec<Trace<B>>,
    receipts: &[Receipt],
) -> Result<Run<B>, AuditFault>
    ensures traces { IfOk result (λ run. run.traces ≡ traces.items) }
    ensures run { IfOk result (λ run. (s : System)
        × IsFound (arrivals clients (trails_of B.making traces.items)) B.making B.Machine.stands
        run receipts.now s) }
    ensures fit { OnOk result (All IsRequest
        (arrivals clients (trails_of B.making traces.items))) }
    ensures refused { IfErr result
        (IsRefusedWith (arrivals clients (trails_of B.making traces.items))
        (trails_of B.making traces.items) receipts.now) }
{
    traces_fit(traces.as_slice());
    let nodes = replay_all(alloc, traces)?;
    check_origins(alloc, clients, nodes.as_slice())?;
    let (nodes, turns) = merge(alloc, clients, nodes)?.into_parts();
    check_receipts(alloc, clients, nodes.as_slice(), receipts)?;
    Ok(Run::of(nodes, turns))
}

/// Audits the traces of nodes and the receipts of their steps.
///
/// Each trace is run again, on a machine that is made anew. Then all steps are put into one order,
/// in which each message is sent before it is taken in, and compared with the receipts. A yes is a
/// run of the whole system: the steps, in this order, are a schedule of the definitions, which
/// leads to the nodes for which the machines stand, and so keeps the promises of exactly-once
/// semantics; and the receipts, one for each step, are what that schedule answers.
///
/// It takes the time of running each trace again, and of hashing each message and each receipt; for
/// each two traces, that of comparing their names; and for each step, at most that of looking up
/// one message for each trace.
///
/// # Errors
///
/// The first of these that fits: `Origin` if two traces are of one node, or a step takes in a
/// message that no step of any trace sent; `Order` if the steps can't be put into one order;
/// `Receipt` if a receipt is of no step; `Count` if there are not as many receipts as steps, or two
/// are of one step. `Memory` if memory is refused, which may come in place of any of them.
pub fn audit<B: Remade>(
    alloc: Global,
    traces: Vec<Trace<B>>,
    receipts: &[Receipt],
) -> Result<Run<B>, AuditFault>
    ensures traces { IfOk result (λ run. run.traces ≡ traces.items) }
    ensures run { IfOk result (λ run. (s : System)
        × IsYes B.making B.Machine.stands run receipts.now s) }
    ensures refused { IfErr result (IsRefused (trails_of B.making traces.items) receipts.now) }
{
    systems_keep_promises();
    find(alloc, Clients::Inside, traces, receipts)
}

/// Audits the traces of servers (the coordinator, partitions, the offsets partition) and the
/// receipts of their steps, if the clients are outside: a client's request needs no step that
/// sent it, so long as a frame can bring it, and any other message does.
///
/// The traces are run again and put into one order, as by [`audit`]; each request that a trace
/// takes in has arrived before all steps. A yes is an open schedule of the definitions, which leads
/// to the nodes for which the machines stand, and so keeps the promises that need no trust in
/// clients; and the receipts, one for each step, are what that schedule answers.
///
/// # Errors
///
/// As [`audit`], in the same order: `Origin` if two traces are of one node, or a step takes in a
/// message that is no client's request and that no step of any trace sent; `Order`, `Receipt`,
/// `Count` and `Memory`.
pub fn audit_servers<B: Remade>(
    alloc: Global,
    traces: Vec<Trace<B>>,
    receipts: &[Receipt],
) -> Result<Run<B>, AuditFault>
    ensures traces { IfOk result (λ run. run.traces ≡ traces.items) }
    ensures run { IfOk result (λ run. (s : System)
        × AreServersYes B.making B.Machine.stands run receipts.now s) }
    ensures refused { IfErr result
        (AreServersRefused (trails_of B.making traces.items) receipts.now) }
{
    open_systems_keep_promises();
    find(alloc, Clients::Outside, traces, receipts)
}
