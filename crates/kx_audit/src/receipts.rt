//! Receipts, compared with the steps of traces that were run again.
ghost use Rattle.std.specs.Prelude.{◌≡◌, IfOk, IsFalse, IsTrue};
ghost use Rattle.std.specs.Bool.{Decides};
ghost use Rattle.kx_audit.specs.Joined.{AreApart};
ghost use Rattle.kx_audit.specs.Keys.{AreIndexed};
ghost use Rattle.kx_audit.specs.Receipts.{AreDistinct, AreNamed, HaveUnnamed, IsNamed};
ghost use Rattle.kx_audit.specs.Refused.{HaveAlike};
ghost use Rattle.kx_audit.specs.Replayed.{IsOfLine, traces_of, trails_of};
ghost use Rattle.kx_audit.specs.Told.{Told};

use crate::key::NodeKey;
use crate::remade::Remade;
use crate::replayer::Replayer;
use kx_machine::{Input, Taken};
use kx_message::NodeId;
use kx_nodes::Receipt;
use std::alloc::{AllocError, Global};
use std::collections::{HashMap, HashSet};

// Whether the receipt holds this name, this input and this answer.
fn holds(receipt: &Receipt, name: NodeId, input: &Input, taken: &Taken) -> bool
    ensures { Decides result ((receipt.now.node ≡ name) × (receipt.now.input ≡ input.now)
        × (receipt.now.taken ≡ taken.now)) }
{
    receipt.node == name && receipt.input.same(input) && receipt.taken.same(taken)
}

// Whether the receipt is of a step of this trace.
fn agrees<B: Remade>(node: &Replayer<B>, receipt: &Receipt) -> bool
    ensures of_line { IsTrue result → (x : Told) × IsOfLine B.making node.now receipt.now x }
    ensures not { IsFalse result → (x : Told) → IsOfLine B.making node.now receipt.now x → ⊥ }
{
    match node.step(receipt.place) {
        Some(step) => holds(receipt, node.node(), &step.input, node.taken(receipt.place)),
        None => false,
    }
}

// The places of the traces, by the names of their nodes.
fn places_of<B: Remade>(
    alloc: Global,
    nodes: &[Replayer<B>],
) -> Result<HashMap<NodeKey, usize>, AllocError>
    requires { AreApart (trails_of B.making (traces_of nodes.now)) }
    ensures { IfOk result (λ places. AreIndexed B.making places.entries nodes.now) }
{
    let mut places = HashMap::new(alloc);
    for k in 0..nodes.len() {
        places.insert(NodeKey::from(nodes[k].node()), k)?;
    }
    Ok(places)
}

// Whether the receipt is of a step of one of these traces.
fn is_named<B: Remade>(
    places: &HashMap<NodeKey, usize>,
    nodes: &[Replayer<B>],
    receipt: &Receipt,
) -> bool
    requires { AreIndexed B.making places.now.entries nodes.now }
    ensures named { IsTrue result → IsNamed B.making nodes.now receipt.now }
    ensures unnamed { IsFalse result → IsNamed B.making nodes.now receipt.now → ⊥ }
{
    let Some(place) = places.get(&NodeKey::from(receipt.node)) else {
        return false;
    };
    match nodes.get(*place) {
        Some(node) => agrees(node, receipt),
        None => false,
    }
}

/// Whether each receipt is of a step of one of these traces. A trace is found by its node's name.
///
/// # Errors
///
/// Only if memory runs out.
pub(crate) fn are_named<B: Remade>(
    alloc: Global,
    nodes: &[Replayer<B>],
    receipts: &[Receipt],
) -> Result<bool, AllocError>
    requires apart { AreApart (trails_of B.making (traces_of nodes.now)) }
    ensures named { IfOk result (λ b. IsTrue b → AreNamed B.making nodes.now receipts.now) }
    ensures unnamed { IfOk result (λ b. IsFalse b
        → HaveUnnamed B.making nodes.now receipts.now) }
{
    let places = places_of(alloc, nodes)?;
    for receipt in receipts {
        if !is_named(&places, nodes, receipt) {
            return Ok(false);
        }
    }
    Ok(true)
}

/// Whether no two receipts are of one step.
///
/// # Errors
///
/// Only if memory runs out.
pub(crate) fn are_distinct(alloc: Global, receipts: &[Receipt]) -> Result<bool, AllocError>
    ensures distinct { IfOk result (λ b. IsTrue b → AreDistinct receipts.now) }
    ensures alike { IfOk result (λ b. IsFalse b → HaveAlike receipts.now) }
{
    let mut seen = HashSet::new(alloc);
    for receipt in receipts {
        if !seen.insert((NodeKey::from(receipt.node), receipt.place))? {
            return Ok(false);
        }
    }
    Ok(true)
}
