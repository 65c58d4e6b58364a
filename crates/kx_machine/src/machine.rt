//! What every node does.
use crate::input::Input;
use crate::taken::Taken;
use kx_log::LogSlices;
use kx_message::{ClientId, Message, PartitionId, Timeout, TxnId};
use std::alloc::AllocError;

/// How a node is made.
#[derive(Clone, Copy, PartialEq, Eq)]
pub enum Making {
    /// The coordinator, of an empty log, at time 0.
    Coordinator,
    /// The server of a partition, the offsets partition among them, with an empty log.
    Partition(PartitionId),
    /// A client, which has sent nothing yet.
    Client {
        number: ClientId,
        txn: Option<TxnId>,
        timeout: Timeout,
    },
}

/// What a node's store does in one step.
#[derive(Clone, Copy, Debug, PartialEq, Eq)]
pub enum StoreMode {
    /// All works.
    Works,
    /// An append fails, and leaves this many of its bytes in the store, all if it has fewer.
    Fails { keep: u64 },
    /// The log can't be read.
    CannotLoad,
}

/// A node of the system: it takes one input at a time, changes what it keeps, and hands messages
/// out (KIP-98, "Data Flow").
pub trait Machine: Drop {
    ghost use Rattle.std.specs.Prelude.{◌≡◌, ℕ, pos, MatchResult, Option};
    ghost use Rattle.kx_log.specs.Slices.{sliced};
    ghost use Rattle.kx_machine.specs.Logs.{batches_of};
    ghost use Rattle.kx_machine.specs.Meaning.{IsTaken, NodeState, input_of, is_closed};
    ghost use Rattle.kx_model.specs.Disk.{Store};
    ghost use Rattle.kx_model.specs.Log.{end, entries};
    ghost use Rattle.kx_model.specs.Produce.{greatest_offset};
    ghost use Rattle.kx_model.specs.Step.{Comes};

    // the node of the definitions for which it stands
    ghost stands: { NodeState → Self → Type 0 };

    // what its store may do in the next step, with an entry of this length, if one is appended
    ghost allows: { Self → Option ℕ → Store → Type 0 };

    // how often the device of its store failed
    ghost failures_of: { Self → ℕ };

    /// Takes an input, and does what a node of the definitions does with it. What isn't for the
    /// node changes nothing, and sends nothing.
    ///
    /// # Errors
    ///
    /// Only if memory runs out; then the node is as before.
    fn take(&mut self, input: &Input) -> Result<Taken, AllocError>
        ensures { (state : NodeState) → stands state self.old → MatchResult result
            (IsTaken state (input_of input.now) (allows self.old) (λ s. stands s self.new))
            (λ refused. stands state self.new) };

    /// Takes a message that is borrowed, as [`take`](Machine::take) takes one that an input has.
    ///
    /// # Errors
    ///
    /// Only if memory runs out; then the node is as before.
    fn deliver(&mut self, message: &Message) -> Result<Taken, AllocError>
        ensures { (state : NodeState) → stands state self.old → MatchResult result
            (IsTaken state (Comes message.now) (allows self.old) (λ s. stands s self.new))
            (λ refused. stands state self.new) };

    /// How often the device of its store failed. A node that keeps no log, as a client, has had no
    /// failure.
    fn failures(&self) -> u64
        ensures { result ≡ failures_of self.now };

    /// Whether its log is closed: an append failed, or a restart did, and it appends nothing until
    /// a restart succeeds. A node that keeps no log, as a client, never is.
    fn is_closed(&self) -> bool
        ensures { (state : NodeState) → stands state self.now → result ≡ is_closed state };

    /// The offset after the last record batch of its log, 0 to 2^63 - 1. A node that keeps no log
    /// of record batches, as the coordinator and a client, is at 0.
    fn log_end(&self) -> i64
        ensures { (state : NodeState) → stands state self.now
            → result ≡ pos (end (entries (batches_of state))) };

    /// The record batches of its log, borrowed: from the one that holds an offset on, as many as
    /// have at most `max` bytes in all, and at least one if there is one. So a log is copied
    /// further, each time from the end of the copy on.
    fn batches_from(&self, from: i64, max: u32) -> LogSlices<'_>
        ensures { (state : NodeState) → stands state self.now
            → result ≡ sliced (batches_of state) from (pos greatest_offset) max };
}

/// A machine on a store that is made to fail.
pub trait Failing: Machine {
    ghost use Rattle.std.specs.Prelude.{ℕ, Option};
    ghost use Rattle.kx_machine.specs.Meaning.{NodeState};
    ghost use Rattle.kx_machine.specs.Stores.{IsMode};
    ghost use Rattle.kx_model.specs.Disk.{Store};

    /// Makes its store do this in the next step, whatever it was to do before.
    fn prepare(&mut self, mode: StoreMode)
        ensures stands { (state : NodeState) → Self.stands state self.old
            → Self.stands state self.new }
        ensures allows { (size : Option ℕ) (store : Store) → Self.allows self.new size store
            → IsMode mode size store };
}
