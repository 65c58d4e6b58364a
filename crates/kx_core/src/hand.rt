//! A node takes what it is handed, while its store does what it is told.
ghost use Rattle.std.specs.Prelude.{MatchResult};
ghost use Rattle.kx_core.specs.World.{given};
ghost use Rattle.kx_machine.specs.Meaning.{IsTaken, NodeState};
ghost use Rattle.kx_machine.specs.Stores.{IsMode};

use kx_machine::{Failing, Input, Machine, StoreMode, Taken};
use kx_message::Message;
use std::alloc::AllocError;

/// What a node is handed, borrowed: a message that was sent before, or another input.
#[derive(Clone, Copy)]
pub(crate) enum Given<'a> {
    Message(&'a Message),
    Input(&'a Input),
}

/// A node takes what it is handed.
///
/// # Errors
///
/// Only if memory runs out; then it stands for what it stood for.
pub(crate) fn take<M: Machine>(machine: &mut M, handed: Given<'_>) -> Result<Taken, AllocError>
    ensures { (state : NodeState) → M.stands state machine.old → MatchResult result
        (IsTaken state (given handed.entry) (M.allows machine.old) (λ s. M.stands s machine.new))
        (λ refused. M.stands state machine.new) }
{
    match handed {
        Given::Message(message) => machine.deliver(message),
        Given::Input(input) => machine.take(input),
    }
}

/// A node takes what it is handed, while its store does this.
///
/// # Errors
///
/// As [`take`].
pub(crate) fn hand<M: Failing>(
    machine: &mut M,
    handed: Given<'_>,
    mode: StoreMode,
) -> Result<Taken, AllocError>
    ensures { (state : NodeState) → M.stands state machine.old → MatchResult result
        (IsTaken state (given handed.entry) (IsMode mode) (λ s. M.stands s machine.new))
        (λ refused. M.stands state machine.new) }
{
    machine.prepare(mode);
    let taken = take(machine, handed);
    machine.prepare(StoreMode::Works);
    taken
}
