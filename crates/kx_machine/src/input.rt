//! What a node is handed.
ghost use Rattle.std.specs.Prelude.{◌≡◌};
ghost use Rattle.std.specs.Bool.{Decides};

use crate::same::same_values;
use kx_client::Values;
use kx_message::{ClientId, GroupId, Message, Offsets, Outcome, PartitionId};
use kx_messages::{same_message, same_offsets};
use std::alloc::AllocError;

/// What a client is told to do (KIP-98's producer API; KIP-447).
#[derive(PartialEq, Eq, Drop)]
pub enum Command {
    /// Asks for an id and an epoch.
    Init,
    /// Begins a transaction.
    Begin,
    /// Sends values to a partition, as one batch.
    Send(PartitionId, Values),
    /// Asks to join a group.
    Join(GroupId),
    /// Asks to leave its group.
    Leave,
    /// Commits offsets of its group in the transaction.
    Offsets(Offsets),
    /// Ends the transaction.
    End(Outcome),
    /// Sends again what is unanswered.
    Resend,
    /// Sends the next request of a processor. No other client has one.
    Poll,
}

/// What a node is handed in one step.
#[derive(PartialEq, Eq, Drop)]
pub enum Input {
    /// A message comes.
    Deliver(Message),
    /// A client is told to do something.
    Command(Command),
    /// The time is this, in milliseconds: the coordinator ends a transaction that has lasted too
    /// long.
    Expire(u64),
    /// The coordinator sends again the markers that weren't answered.
    Remind,
    /// A member of a group is dropped from it.
    Drop(GroupId, ClientId),
    /// A batch of these values, of no producer, is put.
    Put(Values),
    /// The node is opened again, at this time in milliseconds: its log is kept, all else is lost.
    Restart(u64),
}

/// A copy of the command, or an error if memory runs out.
impl Clone for Command {
    ghost is_clone = { λ command copy. copy ≡ command };

    fn clone(&self) -> Result<Self, AllocError> {
        match self {
            Command::Init => Ok(Command::Init),
            Command::Begin => Ok(Command::Begin),
            Command::Send(partition, values) => Ok(Command::Send(*partition, values.clone()?)),
            Command::Join(group) => Ok(Command::Join(*group)),
            Command::Leave => Ok(Command::Leave),
            Command::Offsets(offsets) => Ok(Command::Offsets(offsets.clone()?)),
            Command::End(outcome) => Ok(Command::End(*outcome)),
            Command::Resend => Ok(Command::Resend),
            Command::Poll => Ok(Command::Poll),
        }
    }
}

/// A copy of the input, or an error if memory runs out.
impl Clone for Input {
    ghost is_clone = { λ input copy. copy ≡ input };

    fn clone(&self) -> Result<Self, AllocError> {
        match self {
            Input::Deliver(message) => Ok(Input::Deliver(message.clone()?)),
            Input::Command(command) => Ok(Input::Command(command.clone()?)),
            Input::Expire(now) => Ok(Input::Expire(*now)),
            Input::Remind => Ok(Input::Remind),
            Input::Drop(group, member) => Ok(Input::Drop(*group, *member)),
            Input::Put(values) => Ok(Input::Put(values.clone()?)),
            Input::Restart(now) => Ok(Input::Restart(*now)),
        }
    }
}

impl Command {
    /// Whether both are the same command.
    pub fn same(&self, other: &Command) -> bool
        ensures { Decides result (self.now ≡ other.now) }
    {
        match (self, other) {
            (Command::Init, Command::Init)
            | (Command::Begin, Command::Begin)
            | (Command::Leave, Command::Leave)
            | (Command::Resend, Command::Resend)
            | (Command::Poll, Command::Poll) => true,
            (Command::Send(p, a), Command::Send(q, b)) => p == q && same_values(a, b),
            (Command::Join(a), Command::Join(b)) => a == b,
            (Command::Offsets(a), Command::Offsets(b)) => same_offsets(a, b),
            (Command::End(a), Command::End(b)) => a == b,
            _ => false,
        }
    }
}

impl Input {
    /// Whether both are the same input.
    pub fn same(&self, other: &Input) -> bool
        ensures { Decides result (self.now ≡ other.now) }
    {
        match (self, other) {
            (Input::Deliver(a), Input::Deliver(b)) => same_message(a, b),
            (Input::Command(a), Input::Command(b)) => a.same(b),
            (Input::Expire(a), Input::Expire(b)) => a == b,
            (Input::Remind, Input::Remind) => true,
            (Input::Drop(g, a), Input::Drop(h, b)) => g == h && a == b,
            (Input::Put(a), Input::Put(b)) => same_values(a, b),
            (Input::Restart(a), Input::Restart(b)) => a == b,
            _ => false,
        }
    }
}
