//! A run of the whole system that an audit found.
ghost use Rattle.std.specs.Prelude.{◌≡◌, ◌≤◌, ℕ, length, slice_get, IfNone, IfSome, MatchOption};
ghost use Rattle.std.specs.Prelude.{IsSomeAnd, None, Some};
ghost use Rattle.kx_audit.specs.Merged.{AreThere, lines_of, told_along};
ghost use Rattle.kx_audit.specs.Replayed.{machines_of, traces_of};
ghost use Rattle.kx_audit.specs.Rerun.{behind_at};
ghost use Rattle.kx_audit.specs.Run.{step_at};
ghost use Rattle.kx_audit.specs.Told.{Told};
ghost use Rattle.kx_nodes.specs.Again.{mode_for};
ghost use Rattle.kx_nodes.specs.declared.trace.Step.{Step};

use crate::remade::Remade;
use crate::replayer::Replayer;
use crate::turn::Turn;
use kx_machine::{StoreMode, Taken};
use kx_nodes::{Step, Trace};
use std::marker::Model;

/// What an audit found: the traces, their steps in one order, what each step answered, and the
/// machines to which the traces led.
#[derive(Drop)]
pub struct Run<B: Remade> {
    nodes: Vec<Replayer<B>>,
    turns: Vec<Turn>,
}

impl<B: Remade> Model for Run<B> {
    ghost use Rattle.kx_audit.specs.Run.{Ran};

    ghost Value = { Ran B B.Machine };

    ghost use Rattle.kx_audit.specs.Merged.{AreThere, lines_of, told_along};
    ghost use Rattle.kx_audit.specs.Replayed.{machines_of, traces_of};

    ghost view = { λ r. record {
      traces = traces_of r.nodes.items;
      turns = r.turns.items;
      told = told_along (lines_of B.making r.nodes.items) r.turns.items;
      machines = machines_of r.nodes.items;
    } };

    ghost invariant = { λ r. AreThere (lines_of B.making r.nodes.items) r.turns.items };
}

impl<B: Remade> Run<B> {
    /// Of traces that were run again, in this order.
    pub(crate) fn of(nodes: Vec<Replayer<B>>, turns: Vec<Turn>) -> Run<B>
        requires { AreThere (lines_of B.making nodes.items) turns.items }
        ensures { result ≡ record {
          traces = traces_of nodes.items;
          turns = turns.items;
          told = told_along (lines_of B.making nodes.items) turns.items;
          machines = machines_of nodes.items;
        } }
    {
        Run { nodes, turns }
    }

    /// How many traces there are.
    pub fn len(&self) -> usize
        ensures traces { result ≡ length self.now.traces }
        ensures machines { result ≡ length self.now.machines }
    {
        self.nodes.len()
    }

    /// A trace by its number, from 0.
    pub fn trace(&self, number: usize) -> Option<&Trace<B>>
        ensures some { IfSome result (λ trace. slice_get self.now.traces number ≡ Some trace.now) }
        ensures none { IfNone result (length self.now.traces ≤ number) }
    {
        Some(self.nodes.get(number)?.trace())
    }

    /// The machine to which the trace of this number led.
    pub fn machine(&self, number: usize) -> Option<&B::Machine>
        ensures some { IfSome result (λ machine. slice_get self.now.machines number
            ≡ Some machine.now) }
        ensures none { IfNone result (length self.now.machines ≤ number) }
    {
        Some(self.nodes.get(number)?.machine())
    }

    /// The order of all steps.
    pub fn turns(&self) -> &[Turn]
        ensures { result.now ≡ self.now.turns }
    {
        self.turns.as_slice()
    }

    /// The step at a place of a trace.
    pub fn step(&self, turn: Turn) -> Option<&Step>
        ensures { MatchOption result
            (step_at self.now.traces turn ≡ None)
            (λ step. step_at self.now.traces turn ≡ Some step.now) }
    {
        self.nodes.get(turn.trace)?.step(turn.step)
    }

    /// What the store was told to do in the step at a place of a trace, when the trace was run
    /// again.
    pub fn mode(&self, turn: Turn) -> Option<StoreMode>
        ensures { (step : Step) → step_at self.now.traces turn ≡ Some step
            → IsSomeAnd result (λ mode. mode ≡ mode_for step (behind_at self.now.traces turn)) }
    {
        self.nodes.get(turn.trace)?.mode(turn.step)
    }

    /// What the step at a place of a trace answered, as the order tells it.
    pub fn taken(&self, turn: Turn) -> Option<&Taken>
        ensures { (j : ℕ) (x : Told) → slice_get self.now.turns j ≡ Some turn
            → slice_get self.now.told j ≡ Some x
            → IsSomeAnd result (λ taken. taken.now ≡ x.taken) }
    {
        self.nodes.get(turn.trace)?.takens().get(turn.step)
    }
}
