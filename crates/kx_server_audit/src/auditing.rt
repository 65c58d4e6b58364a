//! The audit of the traces of a server, which are read as far as they are needed.
ghost use Rattle.std.specs.Prelude.{◌≡◌, ◌<◌, ◌++◌, ℕ, [], All, IfOk, IsFalse, List};
ghost use Rattle.std.specs.Prelude.{MatchResult, OnOk, length, true};
ghost use Rattle.kx_audit.specs.Joined.{Passed};
ghost use Rattle.kx_machine.specs.Meaning.{NodeState};
ghost use Rattle.kx_machines.specs.Brokers.{broker_stands};
ghost use Rattle.kx_server_audit.specs.Counting.{AreCounts, decided_in};
ghost use Rattle.kx_server_audit.specs.Driving.{AreAudited, AreStuck, CannotRead, EndsBy, EndsIn};
ghost use Rattle.kx_server_audit.specs.Driving.{GoesOn, HasGoneOn, IsFed, IsUnderWay, RefusesAt};
ghost use Rattle.kx_server_audit.specs.Driving.{SaysYes, making};
ghost use Rattle.kx_server_audit.specs.Finding.{AreBegun};
ghost use Rattle.kx_server_audit.specs.Reads.{Start, origins_of};
ghost use Rattle.kx_server_audit.specs.Telling.{machines_in};
ghost use Rattle.kx_server_audit.specs.declared.auditing.Ending.TheVariants.{Memory};
ghost use Rattle.kx_trace_audit.specs.Auditing.{HasAudited, fed};
ghost use Rattle.kx_trace_audit.specs.Beginnings.{heads_of};

use crate::counts::{Counts, transactions};
use crate::server_node::ServerNode;
use crate::sources::{Source, SourceFault};
use kx_machines::{BrokerMachine, LocalStore};
use kx_trace_audit::{Progress, TraceAudit, TraceOf, TraceRefusal};
use std::alloc::{AllocError, Global};
use std::io::Read;

// After how many steps it is told how far an audit is.
const STEPS_TOLD: u64 = 1 << 20;

/// Where an audit refuses, and why.
#[derive(Clone, Copy)]
pub(crate) struct Refused {
    /// The number of the trace, counted from 0.
    pub(crate) trace: usize,
    /// The number of the item in it, counted from 1.
    pub(crate) item: u64,
    pub(crate) why: TraceRefusal,
}

/// How an audit ends that isn't a yes.
#[derive(Clone, Copy)]
pub(crate) enum Ending {
    /// The audit refuses.
    Refused(Refused),
    /// The source of the trace of this number can't be read.
    Read(usize),
    /// Memory ran out.
    Memory,
}

/// Out of memory is [`Ending::Memory`].
impl From<AllocError> for Ending {
    ghost from_gives = { λ refused ending. ending ≡ Memory };

    fn from(_: AllocError) -> Self {
        Ending::Memory
    }
}

/// The audit of a server's traces, as far as it has come.
#[derive(Drop)]
pub(crate) struct ServerAudit {
    pub(crate) audit: TraceAudit<ServerNode>,
    pub(crate) counts: Counts,
    piece: Vec<u8>,
    tells_progress: bool,
}

/// How an audit ends that refuses at a trace, of which this many items were gone through.
pub(crate) fn refused_at(trace: usize, items: u64, why: TraceRefusal) -> Ending
    ensures { RefusesAt trace items why result }
{
    match why {
        TraceRefusal::Memory => Ending::Memory,
        why => Ending::Refused(Refused {
            trace,
            item: items.saturating_add(1),
            why,
        }),
    }
}

// Whether each source was read to its end. Else the first that wasn't can't be read.
fn all_ended<I: Read + Drop>(sources: &[Source<I>]) -> Result<(), Ending>
    ensures { MatchResult result (λ done. All (λ s. s.is_ended ≡ true) sources.now)
        (λ ending. (trace : ℕ) × (trace < length sources.now) × CannotRead trace ending) }
{
    match sources.iter().position(|source| !source.is_ended) {
        None => Ok(()),
        Some(trace) => Err(Ending::Read(trace)),
    }
}

// Feeds the next bytes of a trace to the audit; no bytes where it has no more.
fn feed(audit: &mut TraceAudit<ServerNode>, trace: usize, bytes: &[u8]) -> Result<(), AllocError>
    ensures audited { (start : Start) (texts : List (List ℕ)) (history : List Passed)
        → AreAudited start texts history audit.old
        → OnOk result (AreAudited start (fed texts trace bytes.now) history audit.new) }
    ensures fed { OnOk result (IsFed trace bytes.now audit.old audit.new) }
{
    audit.feed(trace, bytes)
}

impl ServerAudit {
    /// The audit of traces of which nothing was read after their heads.
    ///
    /// # Errors
    ///
    /// As [`TraceAudit::new`].
    pub(crate) fn new(
        alloc: Global,
        traces: &[TraceOf],
        tells_progress: bool,
    ) -> Result<ServerAudit, TraceRefusal>
        ensures audited { IfOk result (λ a. (starts : List NodeState)
            × HasAudited making broker_stands traces.now starts (heads_of traces.now) [] a.audit) }
        ensures counted { IfOk result (λ a. AreCounts [] a.counts) }
    {
        Ok(ServerAudit {
            audit: TraceAudit::new(alloc, traces)?,
            counts: Counts::NONE,
            piece: Vec::new(alloc),
            tells_progress,
        })
    }

    /// What was counted so far.
    pub(crate) fn counts(&self) -> Counts
        ensures { result ≡ self.now.counts }
    {
        self.counts
    }

    /// How many transactions were decided in the log of the first trace's node, which is the
    /// coordinator if its trace is among them.
    pub(crate) fn transactions(&self) -> usize
        ensures { result ≡ decided_in (machines_in self.now) }
    {
        match self.audit.machine(0) {
            Some(machine) => transactions(machine),
            None => 0,
        }
    }

    /// The machines of the nodes, in the order of their traces.
    ///
    /// # Errors
    ///
    /// Only if memory runs out.
    pub(crate) fn into_machines(self) -> Result<Vec<BrokerMachine<LocalStore>>, AllocError>
        ensures { IfOk result (λ machines. machines.items ≡ machines_in self) }
    {
        self.audit.into_machines()
    }

    // Reports how far the audit is, now and then. Nobody may watch.
    fn tell<R: Eprint>(&self, rt: &R) {
        let steps = self.counts.steps;
        if self.tells_progress && steps % STEPS_TOLD == 0 {
            let _ = eprintln!(rt; "{steps} steps");
        }
    }

    // Reads on in a trace, up to its end.
    fn read_on<I: Read + Drop>(
        &mut self,
        trace: usize,
        source: &mut Source<I>,
    ) -> Result<(), Ending>
        ensures { MatchResult result
            (λ done. GoesOn I.remaining trace self.old self.new source.old source.new)
            (CannotRead trace) }
    {
        match source.read(&mut self.piece) {
            Ok(count) => {
                feed(&mut self.audit, trace, &self.piece[..count])?;
                Ok(())
            }
            Err(SourceFault::Read) => Err(Ending::Read(trace)),
            Err(SourceFault::Memory) => Err(Ending::Memory),
        }
    }

    /// Goes on by one item of a trace, or reads on if it needs that; says whether it did.
    ///
    /// # Errors
    ///
    /// As [`Ending`] has them.
    pub(crate) fn go_on<R: Eprint, I: Read + Drop>(
        &mut self,
        rt: &R,
        trace: usize,
        source: &mut Source<I>,
    ) -> Result<bool, Ending>
        ensures { MatchResult result
            (HasGoneOn I.remaining trace self.old self.new source.old source.new)
            (EndsIn I.remaining trace self.old self.new source.old) }
    {
        match self.audit.go(trace) {
            Ok(Progress::Made { sent }) => {
                source.pass();
                self.counts.add(sent);
                self.tell(rt);
                Ok(true)
            }
            Ok(Progress::NotTaken) => {
                source.pass();
                Ok(true)
            }
            Ok(Progress::Waits) => Ok(false),
            Ok(Progress::NeedsMore) => {
                if source.is_ended {
                    return Ok(false);
                }
                self.read_on(trace, source)?;
                Ok(true)
            }
            Err(why) => Err(refused_at(trace, self.audit.items(trace), why)),
        }
    }

    // Goes on in one trace until it goes no further now.
    fn go_on_further<R: Eprint, I: Read + Drop>(
        &mut self,
        rt: &R,
        trace: usize,
        source: &mut Source<I>,
    ) -> Result<(), Ending>
        ensures { MatchResult result
            (λ done. GoesOn I.remaining trace self.old self.new source.old source.new)
            (EndsIn I.remaining trace self.old self.new source.old) }
    {
        for _ in 0..u64::MAX {
            if !self.go_on(rt, trace, source)? {
                break;
            }
        }
        Ok(())
    }

    // Goes on in one trace as far as possible now, and says whether it went on at all.
    fn go_far<R: Eprint, I: Read + Drop>(
        &mut self,
        rt: &R,
        trace: usize,
        source: &mut Source<I>,
    ) -> Result<bool, Ending>
        ensures { MatchResult result
            (HasGoneOn I.remaining trace self.old self.new source.old source.new)
            (EndsIn I.remaining trace self.old self.new source.old) }
    {
        if !self.go_on(rt, trace, source)? {
            return Ok(false);
        }
        self.go_on_further(rt, trace, source)?;
        Ok(true)
    }

    // Goes on in each trace, one after the other; says whether it went on in any.
    fn go_round<R: Eprint, I: Read + Drop>(
        &mut self,
        rt: &R,
        sources: &mut Vec<Source<I>>,
    ) -> Result<bool, Ending>
        ensures { (start : Start)
            → IsUnderWay I.remaining start self.old sources.old.items → MatchResult result
            (λ went_on. IsUnderWay I.remaining start self.new sources.new.items
            × (IsFalse went_on → AreStuck self.new sources.new.items)) (EndsBy start self.new) }
    {
        let mut went_on = false;
        for trace in 0..sources.len() {
            went_on |= self.go_far(rt, trace, &mut sources[trace])?;
        }
        Ok(went_on)
    }

    // Goes on until each trace is stuck. After 2^64 - 1 rounds it gives up, as if memory ran out.
    fn go_all<R: Eprint, I: Read + Drop>(
        &mut self,
        rt: &R,
        sources: &mut Vec<Source<I>>,
    ) -> Result<(), Ending>
        ensures { (start : Start)
            → IsUnderWay I.remaining start self.old sources.old.items → MatchResult result
            (λ done. IsUnderWay I.remaining start self.new sources.new.items
            × AreStuck self.new sources.new.items) (EndsBy start self.new) }
    {
        for _ in 0..u64::MAX {
            if !self.go_round(rt, sources)? {
                return Ok(());
            }
        }
        Err(Ending::Memory)
    }

    // Audits all that the sources give, the source of each trace at its number. Ok is a yes.
    fn run<R: Eprint, I: Read + Drop>(
        &mut self,
        rt: &R,
        sources: &mut Vec<Source<I>>,
    ) -> Result<(), Ending>
        ensures { (start : Start)
            → IsUnderWay I.remaining start self.old sources.old.items → MatchResult result
            (λ done. SaysYes start self.new) (EndsBy start self.new) }
    {
        self.go_all(rt, sources)?;
        match self.audit.left_over() {
            Some(trace) => Err(refused_at(trace, self.audit.items(trace), TraceRefusal::Unsent)),
            None => all_ended(sources.as_slice()),
        }
    }
}

/// Audits traces, of which nothing was read after the heads, as far as their sources give them; the
/// source of each trace is at its number. Answers the audit, and how it ended: Ok is a yes. Then the
/// heads and all bytes of the sources tell one history, from the nodes at which the traces begin;
/// after whatever steps may have come before, it is an open schedule, which keeps the promises that
/// need no trust in clients. A refusal has its reason: the item of its trace, or that items are left
/// and no trace goes on any more.
///
/// # Errors
///
/// As [`TraceAudit::new`].
pub(crate) fn audit_traces<R: Eprint, I: Read + Drop>(
    rt: &R,
    alloc: Global,
    traces: &[TraceOf],
    sources: &mut Vec<Source<I>>,
    tells_progress: bool,
) -> Result<(ServerAudit, Result<(), Ending>), TraceRefusal>
    ensures { AreBegun traces.now sources.old.items
        → (let origins = origins_of I.remaining traces.now sources.old.items in
        IfOk result (λ x. (starts : List NodeState)
        × (let start : Start = record { origins = origins; starts = starts } in
        MatchResult x.1 (λ done. SaysYes start x.0) (EndsBy start x.0)))) }
{
    let mut audit = ServerAudit::new(alloc, traces, tells_progress)?;
    let ended = audit.run(rt, sources);
    Ok((audit, ended))
}
