//! Merges the steps of traces into one order.
ghost use Rattle.std.specs.Prelude.{◌≡◌, ◌<◌, ℕ, [], length, slice_get, sum_by, Some, IfOk, IfSome};
ghost use Rattle.std.specs.Prelude.{IfNone, IsFalse, IsTrue};
ghost use Rattle.kx_audit.specs.Joined.{AreApart};
ghost use Rattle.kx_audit.specs.Merged.{AreDone, AreFresh, HasUndone, IsMerging, MayGo, NoneMayGo};
ghost use Rattle.kx_audit.specs.Merged.{arrived_at};
ghost use Rattle.kx_audit.specs.Replayed.{AreReplayed, Progress, left, traces_of, trails_of};

use crate::clients::Clients;
use crate::remade::Remade;
use crate::replayer::Replayer;
use crate::sent::Sent;
use crate::turn::Turn;
use std::alloc::{AllocError, Global};
use std::marker::Model;

/// Whose the clients are, the traces, the steps that are merged, and what had arrived and what
/// these sent.
#[derive(Drop)]
pub(crate) struct Auditor<B: Remade> {
    clients: Clients,
    nodes: Vec<Replayer<B>>,
    turns: Vec<Turn>,
    sent: Sent,
}

impl<B: Remade> Model for Auditor<B> {
    ghost use Rattle.kx_audit.specs.Merged.{Merged};

    ghost Value = { Merged B B.Machine };

    ghost use Rattle.kx_audit.specs.Merged.{IsMerging};

    ghost view = { λ a. record {
      clients = a.clients;
      nodes = a.nodes.items;
      turns = a.turns.items;
      sent = a.sent;
    } };

    ghost invariant = { λ a. IsMerging B.making B.Machine.stands (record {
      clients = a.clients;
      nodes = a.nodes.items;
      turns = a.turns.items;
      sent = a.sent;
    }) };
}

// Whether a step of the trace is left that may come after these messages.
fn may_go<B: Remade>(sent: &Sent, node: &Replayer<B>) -> Result<bool, AllocError>
    ensures yes { IfOk result (λ b. IsTrue b → MayGo sent.now node.now) }
    ensures no { IfOk result (λ b. IsFalse b → MayGo sent.now node.now → ⊥) }
{
    match node.step(node.done()) {
        Some(step) => sent.may_take(&step.input),
        None => Ok(false),
    }
}

impl<B: Remade> Auditor<B> {
    /// An auditor that has merged nothing, if these messages had arrived from outside.
    pub(crate) fn start(
        alloc: Global,
        clients: Clients,
        nodes: Vec<Replayer<B>>,
        arrived: Sent,
    ) -> Auditor<B>
        requires arrived { arrived ≡ arrived_at B.making clients nodes.items }
        requires fresh { AreFresh nodes.items }
        requires replayed { AreReplayed B.making B.Machine.stands nodes.items }
        requires apart { AreApart (trails_of B.making (traces_of nodes.items)) }
        ensures { result ≡ record {
          clients = clients;
          nodes = nodes.items;
          turns = [];
          sent = arrived;
        } }
    {
        Auditor {
            clients,
            nodes,
            turns: Vec::new(alloc),
            sent: arrived,
        }
    }

    // Takes the next step of a trace.
    fn go(self, k: usize) -> Result<Auditor<B>, AllocError>
        requires within { k < length self.nodes }
        requires may { (p : Progress B B.Machine) → slice_get self.nodes k ≡ Some p
            → MayGo self.sent p }
        ensures clients { IfOk result (λ a. a.clients ≡ self.clients) }
        ensures traces { IfOk result (λ a. traces_of a.nodes ≡ traces_of self.nodes) }
        ensures fewer { IfOk result (λ a. sum_by left a.nodes < sum_by left self.nodes) }
    {
        let Auditor {
            clients,
            mut nodes,
            mut turns,
            mut sent,
        } = self;
        let replayer = &mut nodes[k];
        let step = replayer.done();
        sent.add_all(replayer.taken(step).messages.as_slice())?;
        turns.push(Turn { trace: k, step })?;
        replayer.advance();
        Ok(Auditor {
            clients,
            nodes,
            turns,
            sent,
        })
    }

    // A trace whose next step may come now: the one that went last, if it can go on.
    fn pick(&self, last: usize) -> Result<Option<usize>, AllocError>
        ensures within { IfOk result (λ o. IfSome o (λ k. k < length self.now.nodes)) }
        ensures may { IfOk result (λ o. IfSome o (λ k. (p : Progress B B.Machine)
            → slice_get self.now.nodes k ≡ Some p → MayGo self.now.sent p)) }
        ensures none { IfOk result (λ o. IfNone o (NoneMayGo self.now.sent self.now.nodes)) }
    {
        if last < self.nodes.len() && may_go(&self.sent, &self.nodes[last])? {
            return Ok(Some(last));
        }
        for k in 0..self.nodes.len() {
            if may_go(&self.sent, &self.nodes[k])? {
                return Ok(Some(k));
            }
        }
        Ok(None)
    }

    /// Takes steps until no node can go on.
    ///
    /// # Errors
    ///
    /// Only if memory runs out.
    pub(crate) fn run(self) -> Result<Auditor<B>, AllocError>
        ensures clients { IfOk result (λ a. a.clients ≡ self.clients) }
        ensures traces { IfOk result (λ a. traces_of a.nodes ≡ traces_of self.nodes) }
        ensures none { IfOk result (λ a. NoneMayGo a.sent a.nodes) }
    {
        let mut auditor = self;
        let mut last = 0;
        loop {
            let Some(k) = auditor.pick(last)? else {
                return Ok(auditor);
            };
            auditor = auditor.go(k)?;
            last = k;
        }
    }

    /// Whether each trace is done.
    pub(crate) fn is_done(&self) -> bool
        ensures done { IsTrue result → AreDone self.now.nodes }
        ensures undone { IsFalse result → HasUndone self.now.nodes }
        ensures merging { IsMerging B.making B.Machine.stands self.now }
    {
        for node in &self.nodes {
            if !node.is_done() {
                return false;
            }
        }
        true
    }

    /// The traces, and the order of their steps.
    pub(crate) fn into_parts(self) -> (Vec<Replayer<B>>, Vec<Turn>)
        ensures nodes { result.0.items ≡ self.nodes }
        ensures turns { result.1.items ≡ self.turns }
        ensures merging { IsMerging B.making B.Machine.stands self }
    {
        let Auditor {
            clients: _,
            nodes,
            turns,
            sent: _,
        } = self;
        (nodes, turns)
    }
}
