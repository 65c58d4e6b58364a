//! The audit of traces.
ghost use Rattle.std.specs.Prelude.{◌≡◌, ◌↔◌, ◌++◌, ℕ, [], IfOk, IsTrue, List, MatchOption};
ghost use Rattle.std.specs.Prelude.{MatchResult, None, OnErr, OnOk, Some, map, slice_get};
ghost use Rattle.kx_audit.specs.Joined.{Passed};
ghost use Rattle.kx_follow.specs.Following.{Followed};
ghost use Rattle.kx_machine.specs.Meaning.{NodeState};
ghost use Rattle.kx_trace_audit.specs.Auditing.{HasAudited, HasGone, IsFirstLeft, IsRead, IsRefused};
ghost use Rattle.kx_trace_audit.specs.Auditing.{IsFedAt, IsYes, fed};
ghost use Rattle.kx_trace_audit.specs.Beginnings.{AreNodesOf, NotBegun, heads_of};
ghost use Rattle.kx_trace_audit.specs.Readings.{begun};
ghost use Rattle.kx_trace_audit.specs.declared.servers.TraceOf.{TraceOf};

use crate::progress::Progress;
use crate::reading::Reading;
use crate::refusal::TraceRefusal;
use crate::servers::{Server, TraceOf};
use crate::step::go_on;
use kx_follow::{FollowFault, FollowedNode, Follower};
use kx_trace::read_record;
use std::alloc::{AllocError, Global};
use std::marker::Model;

/// The traces of a server's nodes, as far as they were read, and the nodes, which make their steps
/// again.
#[derive(Drop)]
pub struct TraceAudit<B: Server> {
    pub(crate) alloc: Global,
    pub(crate) follower: Follower<B>,
    pub(crate) traces: Vec<Reading>,
}

impl<B: Server> Model for TraceAudit<B> {
    ghost use Rattle.kx_trace_audit.specs.Auditing.{Auditing};

    ghost Value = { Auditing B B.Machine };

    ghost view = { λ a. record { following = a.follower; traces = a.traces.items } };
}

// Traces of which nothing was read after their heads.
fn readings(alloc: Global, of: &[TraceOf]) -> Result<Vec<Reading>, AllocError>
    ensures { IfOk result (λ traces. traces.items ≡ map begun of.now) }
{
    let mut traces = Vec::new(alloc);
    for one in of {
        traces.push(Reading::new(alloc, one))?;
    }
    Ok(traces)
}

// The nodes of these traces, of which no step was made again.
fn nodes_of<B: Server>(alloc: Global, of: &[TraceOf]) -> Result<Vec<FollowedNode<B>>, TraceRefusal>
    ensures { MatchResult result (λ nodes. (starts : List NodeState)
        × AreNodesOf B.making B.Machine.stands of.now starts nodes.items)
        (NotBegun of.now) }
{
    let mut nodes = Vec::new(alloc);
    for one in of {
        let machine = B::begun(alloc, one)?;
        let node = FollowedNode::new(B::of(one.node), machine);
        if let Err(_) = nodes.push(node) {
            return Err(TraceRefusal::Memory);
        }
    }
    Ok(nodes)
}

impl<B: Server> TraceAudit<B> {
    /// The audit of traces of which nothing was read after their heads. It goes on from the nodes at
    /// which the traces begin: as they were made, with empty logs, or as they were opened.
    ///
    /// # Errors
    ///
    /// `DuplicateNode` if two traces are of one node; `Bytes` if the log with which a trace
    /// begins can't be opened; `Memory` if memory runs out.
    pub fn new(alloc: Global, traces: &[TraceOf]) -> Result<TraceAudit<B>, TraceRefusal>
        ensures { MatchResult result (λ a. (starts : List NodeState)
            × HasAudited B.making B.Machine.stands traces.now starts (heads_of traces.now) [] a)
            (NotBegun traces.now) }
    {
        let nodes = nodes_of::<B>(alloc, traces)?;
        let traces = readings(alloc, traces)?;
        match Follower::new(alloc, nodes) {
            Ok(follower) => Ok(TraceAudit {
                alloc,
                follower,
                traces,
            }),
            Err(FollowFault::DuplicateNode) => Err(TraceRefusal::DuplicateNode),
            Err(FollowFault::Memory) => Err(TraceRefusal::Memory),
        }
    }

    /// The next bytes of the trace of this number, counted from 0 in the order in which the traces
    /// were given; no bytes where it has no more. If there is no such trace, nothing is done.
    ///
    /// # Errors
    ///
    /// Only if memory runs out; then nothing was fed.
    pub fn feed(&mut self, trace: usize, bytes: &[u8]) -> Result<(), AllocError>
        ensures ok { OnOk result (IsFedAt self.old trace bytes.now self.new) }
        ensures audited { (of : List TraceOf) (starts : List NodeState) (texts : List (List ℕ))
            (history : List Passed)
            → HasAudited B.making B.Machine.stands of starts texts history self.old → OnOk result
            (HasAudited B.making B.Machine.stands of starts (fed texts trace bytes.now) history
            self.new) }
        ensures err { OnErr result (self.new ≡ self.old) }
    {
        if trace >= self.traces.len() {
            return Ok(());
        }
        self.traces[trace].feed(bytes)?;
        Ok(())
    }

    /// Goes on by the next item of the trace of this number, if that can be done now: makes its step
    /// again, or passes over an input that was not taken. If the step leaves open whether an
    /// entry stood, what follows it in the trace tells, and so must be fed before.
    ///
    /// # Errors
    ///
    /// `Store` and `Answer` if the step comes to something else than the trace tells, `Found`
    /// if a restart finds another log, `Bytes` if no trace goes on with these bytes, `Memory`
    /// if memory runs out. Then the traces can't be audited any further.
    pub fn go(&mut self, trace: usize) -> Result<Progress, TraceRefusal>
        ensures { (of : List TraceOf) (starts : List NodeState) (texts : List (List ℕ))
            (history : List Passed)
            → HasAudited B.making B.Machine.stands of starts texts history self.old
            → MatchResult result
            (HasGone B.making B.Machine.stands of starts texts history trace self.old self.new)
            (IsRefused B.making B.Machine.stands of starts history trace self.old self.new) }
    {
        if trace >= self.traces.len() {
            return Ok(Progress::NeedsMore);
        }
        let reading = &self.traces[trace];
        let (unread, ending) = (reading.unread(), reading.ending());
        let stepped = go_on(self.alloc, &mut self.follower, trace, unread, ending)?;
        if stepped.used == 0 {
            return Ok(stepped.progress);
        }
        self.traces[trace].advance(stepped.used);
        Ok(stepped.progress)
    }

    /// The machines of the nodes, in the order of their traces, taken out.
    ///
    /// # Errors
    ///
    /// Only if memory runs out.
    pub fn into_machines(self) -> Result<Vec<B::Machine>, AllocError>
        ensures { IfOk result (λ machines.
            machines.items ≡ map (λ n. n.machine) self.following.nodes) }
    {
        self.follower.into_machines()
    }

    /// How many items of this trace were gone through, at most 2^64 - 1; none if there is no such
    /// trace.
    pub fn items(&self, trace: usize) -> u64
        ensures { MatchOption (slice_get self.now.traces trace) (result ≡ 0)
            (λ r. result ≡ r.items) }
    {
        match self.traces.get(trace) {
            Some(reading) => reading.items(),
            None => 0,
        }
    }

    /// The machine of the node of this trace, borrowed; None if there is no such trace.
    pub fn machine(&self, trace: usize) -> Option<&B::Machine>
        ensures { MatchOption result (slice_get self.now.following.nodes trace ≡ None)
            (λ machine. (n : Followed B B.Machine)
            × (slice_get self.now.following.nodes trace ≡ Some n) × (machine.now ≡ n.machine)) }
    {
        self.follower.machine(trace)
    }

    // Whether all of a trace was read, but for a record that was torn off.
    fn is_read(&self, reading: &Reading) -> bool
        ensures { IsTrue result ↔ IsRead reading.now }
    {
        let found = read_record(self.alloc, reading.unread());
        let is_read = matches!(found, Ok(None));
        drop(found);
        is_read
    }

    /// The first trace of which a record is left that was not made again, by its number. None is the
    /// audit's yes: all of each trace was made again, but for records that were torn off. What the
    /// bytes of the traces tell is one history, from the nodes at which the traces begin, each
    /// message sent before it is taken in, or a client's request. After whatever steps may have come
    /// before, it is an open schedule, which keeps the promises that need no trust in clients, and
    /// leads to the nodes for which the machines stand.
    pub fn left_over(&self) -> Option<usize>
        ensures { (of : List TraceOf) (starts : List NodeState) (texts : List (List ℕ))
            (history : List Passed)
            → HasAudited B.making B.Machine.stands of starts texts history self.now
            → MatchOption result
            (IsYes B.making B.Machine.stands of starts texts history self.now)
            (IsFirstLeft self.now.traces) }
    {
        self.follower.steps_are_an_open_schedule();
        for trace in 0..self.traces.len() {
            if !self.is_read(&self.traces[trace]) {
                return Some(trace);
            }
        }
        None
    }
}
