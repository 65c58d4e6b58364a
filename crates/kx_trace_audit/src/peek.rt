//! The step of which a trace tells next.
ghost use Rattle.std.specs.Prelude.{IfOk, IfSome, MatchOption};
ghost use Rattle.kx_trace_audit.specs.Items.{told_of};
ghost use Rattle.kx_trace_audit.specs.Peeking.{IsInput, IsNext, IsStepAs};
ghost use Rattle.kx_trace_audit.specs.Stepping.{IsUntaken};

use crate::audit::TraceAudit;
use crate::item::{Telling, item_at};
use crate::refusal::TraceRefusal;
use crate::servers::Server;
use crate::step::{has_stood, mode_for};
use kx_machine::{Input, StoreMode};
use kx_message::NodeId;

/// A step of which a trace tells: its node, what the node takes, and what its store does meanwhile.
#[derive(Drop)]
pub struct ToldStep {
    pub node: NodeId,
    pub input: Input,
    pub store: StoreMode,
}

// The input that is told, unless it was not taken.
fn input_of(told: Telling<'_>) -> Option<Input>
    ensures { IsInput (told_of told.entry) result }
{
    match told {
        Telling::Answered { input, .. } | Telling::Unanswered(input) => Some(input),
        Telling::Untaken(input) => {
            drop(input);
            None
        }
        Telling::Reopened { now, .. } => Some(Input::Restart(now)),
    }
}

// The step of this node that is told, if its input was taken.
fn told_step(node: NodeId, told: Telling<'_>, store: StoreMode) -> Option<ToldStep>
    ensures { MatchOption result (IsUntaken (told_of told.entry))
        (IsStepAs node (told_of told.entry) store) }
{
    match input_of(told) {
        Some(input) => Some(ToldStep { node, input, store }),
        None => None,
    }
}

impl<B: Server> TraceAudit<B> {
    /// The step of which the trace of this number tells next, which [`go`](TraceAudit::go) makes again
    /// if it can be made now; None if nothing more is told, an input was not taken, or more bytes
    /// are needed.
    ///
    /// # Errors
    ///
    /// `Bytes` if no trace goes on with these bytes; `Memory` if memory runs out.
    pub fn next(&self, trace: usize) -> Result<Option<ToldStep>, TraceRefusal>
        ensures { IfOk result (λ next. IfSome next (IsNext B.Machine.stands self.now trace)) }
    {
        let Some(reading) = self.traces.get(trace) else {
            return Ok(None);
        };
        let (unread, ending) = (reading.unread(), reading.ending());
        let Some(item) = item_at(self.alloc, unread, ending)? else {
            return Ok(None);
        };
        let rest = &unread[item.used..];
        match has_stood(self.alloc, &self.follower, trace, &item.told, rest, ending) {
            Ok(Some(stood)) => {
                let store = mode_for(&item.told, stood);
                Ok(told_step(reading.name(), item.told, store))
            }
            Ok(None) => {
                drop(item);
                Ok(None)
            }
            Err(refusal) => {
                drop(item);
                Err(refusal)
            }
        }
    }
}
