//! One trace that is run again, and how much of it is merged.
ghost use Rattle.std.specs.Prelude.{◌≡◌, ◌<◌, ◌≤◌, length, slice_get, Some, IfSome, IfNone, IsTrue};
ghost use Rattle.std.specs.Prelude.{◌↔◌, ◌+◌, IfOk, IsSomeAnd, MatchOption, None, drop};
ghost use Rattle.kx_audit.specs.Making.{named};
ghost use Rattle.kx_audit.specs.Merged.{AreBegun};
ghost use Rattle.kx_audit.specs.Replayed.{IsBegun, IsReplayed, progressed};
ghost use Rattle.kx_machine.specs.Meaning.{IsTaken, NodeState, input_of};
ghost use Rattle.kx_nodes.specs.Again.{MayMeet, mode_for};

use crate::mode::mode_for;
use crate::remade::Remade;
use kx_machine::{Machine, StoreMode, Taken};
use kx_message::NodeId;
use kx_nodes::{Step, Trace, traces_run_again};
use std::alloc::{AllocError, Global};
use std::marker::Model;

/// A trace that was run again, what each of its steps answered, and the machine after all of them.
#[derive(Drop)]
pub(crate) struct Replayer<B: Remade> {
    trace: Trace<B>,
    takens: Vec<Taken>,
    machine: B::Machine,
    done: usize,
}

impl<B: Remade> Model for Replayer<B> {
    ghost use Rattle.kx_audit.specs.Replayed.{Progress};

    ghost Value = { Progress B B.Machine };

    ghost use Rattle.kx_audit.specs.Replayed.{IsReplayed};

    ghost view = { λ r. record {
      trace = r.trace;
      takens = r.takens.items;
      done = r.done;
      machine = r.machine;
    } };

    ghost invariant = { λ r. IsReplayed B.making B.Machine.stands (record {
      trace = r.trace;
      takens = r.takens.items;
      done = r.done;
      machine = r.machine;
    }) };
}

// The steps after a place.
fn behind(steps: &[Step], place: usize) -> &[Step]
    requires { place < length steps.now }
    ensures { result.now ≡ drop (place + 1) steps.now }
{
    &steps[place + 1..]
}

// Takes a step again, on a store that does what its mark and the steps after tell.
fn take_again<B: Remade>(
    machine: &mut B::Machine,
    step: &Step,
    behind: &[Step],
) -> Result<Taken, AllocError>
    ensures { IfOk result (λ taken. (node : NodeState) → B.Machine.stands node machine.old
        → IsTaken node (input_of step.now.input)
        (λ size. MayMeet node (mode_for step.now behind.now))
        (λ after. B.Machine.stands after machine.new) taken) }
{
    B::prepare(machine, mode_for(step, behind));
    machine.take(&step.input)
}

impl<B: Remade> Replayer<B> {
    /// Runs a trace again, all of it, on a machine that is made anew.
    ///
    /// # Errors
    ///
    /// Only if memory runs out.
    pub(crate) fn new(alloc: Global, trace: Trace<B>) -> Result<Replayer<B>, AllocError>
        ensures { IfOk result (IsBegun B.making B.Machine.stands trace) }
    {
        trace.made().tells();
        traces_run_again();
        let mut machine = trace.made().make(alloc)?;
        let mut takens = Vec::new(alloc);
        let steps = trace.steps();
        for place in 0..steps.len() {
            let taken = take_again::<B>(&mut machine, &steps[place], behind(steps, place))?;
            takens.push(taken)?;
        }
        Ok(Replayer {
            trace,
            takens,
            machine,
            done: 0,
        })
    }

    /// The node's name.
    pub(crate) fn node(&self) -> NodeId
        ensures { result ≡ named (B.making self.now.trace.made) }
    {
        self.trace.made().tells();
        self.trace.node()
    }

    /// The steps, borrowed.
    pub(crate) fn steps(&self) -> &[Step]
        ensures { result.now ≡ self.now.trace.steps }
    {
        self.trace.steps()
    }

    /// What each of them answered.
    pub(crate) fn takens(&self) -> &[Taken]
        ensures { result.now ≡ self.now.takens }
    {
        self.takens.as_slice()
    }

    /// How many steps there are.
    pub(crate) fn len(&self) -> usize
        ensures { result ≡ length self.now.trace.steps }
    {
        self.trace.steps().len()
    }

    /// How many are done.
    pub(crate) fn done(&self) -> usize
        ensures value { result ≡ self.now.done }
        ensures within { result ≤ length self.now.trace.steps }
    {
        self.done
    }

    /// Whether all are.
    pub(crate) fn is_done(&self) -> bool
        ensures done { IsTrue result ↔ (self.now.done ≡ length self.now.trace.steps) }
        ensures within { self.now.done ≤ length self.now.trace.steps }
    {
        self.done == self.trace.steps().len()
    }

    /// The step at a place, if there is one.
    pub(crate) fn step(&self, place: usize) -> Option<&Step>
        ensures some { IfSome result (λ s. slice_get self.now.trace.steps place ≡ Some s.now) }
        ensures none { IfNone result (length self.now.trace.steps ≤ place) }
    {
        self.trace.steps().get(place)
    }

    /// What the store did in the step at a place, if there is one.
    pub(crate) fn mode(&self, place: usize) -> Option<StoreMode>
        ensures { MatchOption result
            (slice_get self.now.trace.steps place ≡ None)
            (λ mode. IsSomeAnd (slice_get self.now.trace.steps place)
            (λ step. mode ≡ mode_for step (drop (place + 1) self.now.trace.steps))) }
    {
        let steps = self.trace.steps();
        let step = steps.get(place)?;
        Some(mode_for(step, behind(steps, place)))
    }

    /// What the step at a place answered.
    pub(crate) fn taken(&self, place: usize) -> &Taken
        requires { place < length self.now.trace.steps }
        ensures { slice_get self.now.takens place ≡ Some result.now }
    {
        &self.takens[place]
    }

    /// Counts one more step that is done.
    pub(crate) fn advance(&mut self)
        requires { self.old.done < length self.old.trace.steps }
        ensures { self.new ≡ progressed self.old }
    {
        self.done += 1;
    }

    /// The trace, borrowed.
    pub(crate) fn trace(&self) -> &Trace<B>
        ensures { result.now ≡ self.now.trace }
    {
        &self.trace
    }

    /// The machine after all steps.
    pub(crate) fn machine(&self) -> &B::Machine
        ensures value { result.now ≡ self.now.machine }
        ensures replayed { IsReplayed B.making B.Machine.stands self.now }
    {
        &self.machine
    }
}

/// Runs each trace again.
///
/// # Errors
///
/// Only if memory runs out.
pub(crate) fn replay_all<B: Remade>(
    alloc: Global,
    traces: Vec<Trace<B>>,
) -> Result<Vec<Replayer<B>>, AllocError>
    ensures { IfOk result (λ nodes. AreBegun B.making B.Machine.stands traces.items nodes.items) }
{
    let mut nodes = Vec::new(alloc);
    for trace in traces {
        nodes.push(Replayer::new(alloc, trace)?)?;
    }
    Ok(nodes)
}
