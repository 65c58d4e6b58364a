//! Where the messages come from that traces take in.
ghost use Rattle.std.specs.Prelude.{◌≡◌, ◌++◌, IfOk, IsFalse, IsTrue, OnOk};
ghost use Rattle.kx_audit.specs.Joined.{AreApart};
ghost use Rattle.kx_audit.specs.Origins.{HasName, HasStranger, sent_by};
ghost use Rattle.kx_audit.specs.Refused.{HaveTwins, TakesStranger};
ghost use Rattle.kx_audit.specs.Replayed.{messages_in, traces_of, trails_of};

use crate::remade::Remade;
use crate::replayer::Replayer;
use crate::sent::Sent;
use kx_message::NodeId;
use std::alloc::AllocError;

// Whether one of these is the node of this name.
fn has_name<B: Remade>(nodes: &[Replayer<B>], name: NodeId) -> bool
    ensures some { IsTrue result → HasName B.making nodes.now name }
    ensures none { IsFalse result → HasName B.making nodes.now name → ⊥ }
{
    for node in nodes {
        if node.node() == name {
            return true;
        }
    }
    false
}

/// Whether two traces are of one node.
pub(crate) fn have_twins<B: Remade>(nodes: &[Replayer<B>]) -> bool
    ensures twins { IsTrue result → HaveTwins (trails_of B.making (traces_of nodes.now)) }
    ensures apart { IsFalse result → AreApart (trails_of B.making (traces_of nodes.now)) }
{
    for k in 0..nodes.len() {
        if has_name(&nodes[..k], nodes[k].node()) {
            return true;
        }
    }
    false
}

// Adds all that the steps of a trace send.
fn add_sent<B: Remade>(all: &mut Sent, node: &Replayer<B>) -> Result<(), AllocError>
    ensures { OnOk result (all.new ≡ all.old ++ messages_in node.now.takens) }
{
    for taken in node.takens() {
        all.add_all(taken.messages.as_slice())?;
    }
    Ok(())
}

// Adds all that the steps of these traces send.
fn gather<B: Remade>(all: &mut Sent, nodes: &[Replayer<B>]) -> Result<(), AllocError>
    ensures { OnOk result (all.new ≡ all.old ++ sent_by nodes.now) }
{
    for node in nodes {
        add_sent(all, node)?;
    }
    Ok(())
}

// Whether a trace takes in a message that isn't among these.
fn takes_stranger<B: Remade>(all: &Sent, node: &Replayer<B>) -> Result<bool, AllocError>
    ensures some { IfOk result (λ b. IsTrue b → TakesStranger all.now node.now.trace.steps) }
    ensures none { IfOk result (λ b. IsFalse b → TakesStranger all.now node.now.trace.steps → ⊥) }
{
    for step in node.steps() {
        if !all.may_take(&step.input)? {
            return Ok(true);
        }
    }
    Ok(false)
}

/// Whether a trace takes in a message that no step of any trace sends, and that isn't among those
/// that arrived from outside.
///
/// # Errors
///
/// Only if memory runs out.
pub(crate) fn have_stranger<B: Remade>(
    arrived: Sent,
    nodes: &[Replayer<B>],
) -> Result<bool, AllocError>
    ensures some { IfOk result (λ b. IsTrue b → HasStranger arrived nodes.now) }
    ensures none { IfOk result (λ b. IsFalse b → HasStranger arrived nodes.now → ⊥) }
{
    let mut all = arrived;
    gather(&mut all, nodes)?;
    for node in nodes {
        if takes_stranger(&all, node)? {
            return Ok(true);
        }
    }
    Ok(false)
}
