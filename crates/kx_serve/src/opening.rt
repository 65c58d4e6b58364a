//! The nodes of a server, whose logs are in memory or in the files of a folder, and what a folder
//! lacks.
ghost use Rattle.std.specs.Prelude.{◌≡◌, ◌<◌, ◌++◌, ◌∷◌, [], ℕ, All, IfOk, IsTrue};
ghost use Rattle.std.specs.Prelude.{MatchOption, OnOk, Some, false};
ghost use Rattle.kx_coord_node.specs.Stands.{Stands, opened_coordinator};
ghost use Rattle.kx_machine.specs.Meaning.{AtCoordinator};
ghost use Rattle.kx_message.specs.Ranges.{data_partitions, offsets_partition};
ghost use Rattle.kx_serve.specs.Opening.{HasBook, HasOffsetsBook, IsItsBook, IsOpened};
ghost use Rattle.kx_serve.specs.Owed.{HasAll};
ghost use Rattle.kx_serve.specs.Opening.{IsServing, IsTraced, IsTracedNode, StandsForCoordinator};
ghost use Rattle.logbook.specs.Pages.{Book};

use crate::course::{Begins, Course, begins_of, coordinator_course, partition_course};
use crate::fault::ServeFault;
use crate::files::LogFile;
use crate::folder::{Folder, fault_in};
use crate::members::members_of;
use crate::owed::{first_missing, names};
use crate::placing::{OpenedNode, OpenedNodes};
use crate::tracing::{ServerMachine, Traces, WrittenMachine, recorded, restarted};
use kx_broker::{OffsetsMachine, PartitionMachine};
use kx_coord_node::CoordinatorMachine;
use kx_log::Store;
use kx_machines::BrokerMachine;
use kx_message::{NodeId, PartitionId};
use kx_published::book::{Naming, Opened};
use kx_recording::Written;
use kx_server::{Member, Partitions};
use kx_trace::TracedNode;
use kx_trace_files::{OpenedTrace, TraceFile};
use kx_txnlog::TxnLog;
use std::alloc::{AllocError, Global};
use std::fs::{File, Files};

// Puts a node after the others.
fn add<N: Drop>(nodes: &mut Vec<N>, node: N) -> Result<(), AllocError>
    ensures { OnOk result (nodes.new.items ≡ nodes.old.items ++ node ∷ []) }
{
    Ok(nodes.push(node)?)
}

// The node of the partition of this number, whose log was opened, under its lock.
fn locked<S: Store, R: Eprint + Drop>(
    number: PartitionId,
    machine: ServerMachine<S, R>,
    opened: Opened,
) -> OpenedNode<WrittenMachine<S, R>>
    requires { IsOpened number machine.machine }
    ensures serves { (named : ℕ → Book) → opened.partition ≡ number → IsItsBook named opened
        → IsServing named result }
    ensures machine { result.locked.machine ≡ machine }
{
    OpenedNode {
        locked: Written::new(NodeId::Partition(number), machine),
        opened,
    }
}

/// What nodes are opened with.
#[derive(Drop)]
pub(crate) struct Opening<'a, F: Folder, R: Drop> {
    pub(crate) alloc: Global,
    pub(crate) folder: &'a F,
    /// how many data partitions there are
    pub(crate) partitions: Partitions,
    /// the time, in milliseconds since 1970
    pub(crate) time: u64,
    /// Where the nodes write what they do, if they do.
    pub(crate) traces: Option<Traces<'a, R>>,
}

/// What is under the lock of a server's node.
pub(crate) type Kept<F, R> = WrittenMachine<<F as Folder>::Kept, R>;

impl<'a, F: Folder, R: Files<File = File> + AllocGlobal + Eprint + Drop + Copy> Opening<'a, F, R> {
    // The partitions whose logs were made before, of those that are served.
    fn kept(&self) -> Result<Vec<PartitionId>, AllocError> {
        let mut kept = Vec::new(self.alloc);
        for number in 0..self.partitions.get() {
            if let Ok(partition) = PartitionId::try_from(number) {
                if self.folder.has(self.alloc, LogFile::of(partition))? {
                    kept.push(partition)?;
                }
            }
        }
        if self.folder.has(self.alloc, LogFile::Offsets)? {
            kept.push(PartitionId::OFFSETS)?;
        }
        Ok(kept)
    }

    // Warns of logs that are there and aren't served.
    fn warn_of_more(&self) -> Result<(), AllocError> {
        for number in self.partitions.get()..PartitionId::DATA_COUNT {
            let file = LogFile::Partition(number);
            if self.folder.has(self.alloc, file)? {
                self.folder.warn(file, "the log is there, and isn't served");
            }
        }
        Ok(())
    }

    // The coordinator's log, if the log of a partition is missing that is served; else nothing. These
    // logs were made before.
    fn log_to_warn_by(&self, kept: &[PartitionId]) -> Result<Vec<u8>, ServeFault> {
        if kept.len() > usize::from(self.partitions.get()) {
            return Ok(Vec::new(self.alloc));
        }
        self.folder.bytes(self.alloc, LogFile::Coordinator)
    }

    // Warns of a partition whose log is missing, if the coordinator's log names it.
    fn warn_of(&self, log: &[u8], kept: &[PartitionId], partition: PartitionId) {
        if !kept.contains(&partition) && names(self.alloc, log, partition) {
            let file = LogFile::of(partition);
            self.folder.warn(
                file,
                "the log is missing, and co.log names it; it begins anew",
            );
        }
    }

    // Warns of each partition whose log is missing and that the coordinator's log names, once it is
    // known that no transaction needs it. These logs were made before.
    fn warn_of_missing(&self, log: &[u8], kept: &[PartitionId]) {
        for number in 0..self.partitions.get() {
            if let Ok(partition) = PartitionId::try_from(number) {
                self.warn_of(log, kept, partition);
            }
        }
        self.warn_of(log, kept, PartitionId::OFFSETS);
    }

    // The coordinator of a log that is opened at this time, in a folder of whose logs these were
    // made before. The markers that its opening sends are sent again in the first tick.
    fn reopened(
        &self,
        kept: &[PartitionId],
        store: F::Kept,
    ) -> Result<CoordinatorMachine<F::Kept>, ServeFault>
        ensures stands { IfOk result (λ m.
            Stands (AtCoordinator (opened_coordinator m.log.notes self.now.time)) m) }
        ensures whole { IfOk result (λ m. HasAll kept.now m.log.notes) }
    {
        match CoordinatorMachine::open(self.alloc, store, self.time) {
            Ok((machine, markers)) => {
                drop(markers);
                match first_missing(machine.coordinator().rows(), kept) {
                    None => Ok(machine),
                    Some(partition) => {
                        drop(machine);
                        Err(ServeFault::NotWhole {
                            file: LogFile::of(partition),
                        })
                    }
                }
            }
            Err((fault, store)) => {
                drop(store);
                Err(fault_in(LogFile::Coordinator, fault))
            }
        }
    }

    // The coordinator of an empty log, as the definitions have it: made at time 0.
    fn begun(&self, store: F::Kept) -> Result<CoordinatorMachine<F::Kept>, ServeFault>
        ensures { IfOk result (λ m.
            Stands (AtCoordinator (opened_coordinator m.log.notes 0)) m) }
    {
        match CoordinatorMachine::new(self.alloc, store) {
            Ok(machine) => Ok(machine),
            Err((fault, store)) => {
                drop(store);
                Err(fault_in(LogFile::Coordinator, fault))
            }
        }
    }

    // The coordinator's store, without an entry that is cut off at its end, and how many entries it
    // has.
    fn found(&self, store: F::Kept) -> Result<(F::Kept, usize), ServeFault> {
        match TxnLog::open(self.alloc, store) {
            Ok(log) => {
                let count = log.entries().len();
                Ok((log.into_store(), count))
            }
            Err((fault, store)) => {
                drop(store);
                Err(fault_in(LogFile::Coordinator, fault))
            }
        }
    }

    // The coordinator of a log that has entries, or of which no trace is kept.
    fn later_coordinator(
        &self,
        kept: &[PartitionId],
        store: F::Kept,
        trace: Option<TraceFile<R>>,
    ) -> Result<ServerMachine<F::Kept, R>, ServeFault>
        ensures stands { IfOk result StandsForCoordinator }
        ensures traced { IfOk result (IsTraced trace) }
    {
        match self.reopened(kept, store) {
            Ok(machine) => Ok(recorded(self.alloc, BrokerMachine::Coordinator(machine), trace)),
            Err(fault) => {
                drop(trace);
                Err(fault)
            }
        }
    }

    // The coordinator of a log and a trace that have nothing.
    fn first_coordinator(
        &self,
        store: F::Kept,
        trace: TraceFile<R>,
    ) -> Result<ServerMachine<F::Kept, R>, ServeFault>
        ensures stands { IfOk result StandsForCoordinator }
        ensures traced { IfOk result (IsTraced (Some trace)) }
    {
        match self.begun(store) {
            Ok(machine) => {
                let machine = BrokerMachine::Coordinator(machine);
                let made = recorded(self.alloc, machine, Some(trace));
                restarted(made, self.time)
            }
            Err(fault) => {
                drop(trace);
                Err(fault)
            }
        }
    }

    // The trace of a node goes on: its log is opened again.
    fn go_on(
        &self,
        traces: &Traces<'a, R>,
        file: LogFile,
        trace: TraceFile<R>,
    ) -> Result<TraceFile<R>, ServeFault> {
        let len = self.folder.len(self.alloc, file)?;
        traces.go_on(trace, len)
    }

    // The trace of a node begins on its log, with the entries that were found.
    fn begin_on(
        &self,
        traces: &Traces<'a, R>,
        file: LogFile,
        trace: TraceFile<R>,
    ) -> Result<TraceFile<R>, ServeFault> {
        let log = self.folder.bytes(self.alloc, file)?;
        traces.begin_on(trace, log.as_slice())
    }

    // The coordinator with a trace.
    fn traced_coordinator(
        &self,
        kept: &[PartitionId],
        store: F::Kept,
        traces: &Traces<'a, R>,
        trace: OpenedTrace<R>,
    ) -> Result<ServerMachine<F::Kept, R>, ServeFault>
        ensures stands { IfOk result StandsForCoordinator }
        ensures traced { IfOk result (IsTraced (Some trace)) }
    {
        let (store, entries) = self.found(store)?;
        let file = LogFile::Coordinator;
        let trace = match coordinator_course(trace.is_new, trace.has_records, entries) {
            Course::First => return self.first_coordinator(store, trace.file),
            Course::OnLog => self.begin_on(traces, file, trace.file)?,
            Course::GoesOn => self.go_on(traces, file, trace.file)?,
            Course::Untold | Course::CoordinatorUntold => return Err(ServeFault::Untold { file }),
        };
        self.later_coordinator(kept, store, Some(trace))
    }

    // The coordinator's machine, in a folder of whose logs these were made before; and whether its
    // trace begins.
    fn coordinator(
        &self,
        kept: &[PartitionId],
    ) -> Result<(ServerMachine<F::Kept, R>, Begins), ServeFault>
        ensures stands { IfOk result (λ made. StandsForCoordinator made.0) }
        ensures traced { IfOk result (λ made. IsTraced self.now.traces made.0) }
    {
        let store = self.folder.store(self.alloc, LogFile::Coordinator)?;
        let Some(traces) = &self.traces else {
            return Ok((self.later_coordinator(kept, store, None)?, Begins::No));
        };
        let was_there = traces.has(&TracedNode::Coordinator)?;
        let trace = traces.open(&TracedNode::Coordinator)?;
        let begins = begins_of(trace.is_new, was_there);
        Ok((self.traced_coordinator(kept, store, traces, trace)?, begins))
    }

    // The server of a data partition, as its log is opened.
    fn partition(
        &self,
        file: LogFile,
        number: PartitionId,
    ) -> Result<BrokerMachine<F::Kept>, ServeFault>
        requires { number < data_partitions }
        ensures { IfOk result (IsOpened number) }
    {
        let store = self.folder.store(self.alloc, file)?;
        match PartitionMachine::new(self.alloc, number, store) {
            Ok(machine) => Ok(BrokerMachine::Partition(machine)),
            Err((fault, store)) => {
                drop(store);
                Err(fault_in(file, fault))
            }
        }
    }

    // The server of the offsets partition, as its log is opened.
    fn offsets(&self, file: LogFile) -> Result<BrokerMachine<F::Kept>, ServeFault>
        ensures { IfOk result (IsOpened offsets_partition) }
    {
        let store = self.folder.store(self.alloc, file)?;
        match OffsetsMachine::new(self.alloc, store) {
            Ok(machine) => Ok(BrokerMachine::Offsets(machine)),
            Err((fault, kept)) => {
                drop(kept);
                Err(fault_in(file, fault))
            }
        }
    }

    // The trace of a partition whose log was opened. If the coordinator's begins it begins on the
    // log, with the record of its opening, by which a later start knows that it was begun.
    fn trace_of(
        &self,
        traces: &Traces<'a, R>,
        file: LogFile,
        partition: PartitionId,
        begins: Begins,
    ) -> Result<TraceFile<R>, ServeFault> {
        let trace = traces.open(&TracedNode::Partition(partition))?;
        let is_empty = self.folder.len(self.alloc, file)? == 0;
        match partition_course(trace.has_records, begins, is_empty) {
            Course::First => Ok(trace.file),
            Course::OnLog => {
                let trace = self.begin_on(traces, file, trace.file)?;
                self.go_on(traces, file, trace)
            }
            Course::GoesOn => self.go_on(traces, file, trace.file),
            Course::Untold => Err(ServeFault::Untold { file }),
            Course::CoordinatorUntold => Err(ServeFault::Untold {
                file: LogFile::Coordinator,
            }),
        }
    }

    // The machine of a partition whose log was opened, with its trace, if one is kept.
    fn traced(
        &self,
        file: LogFile,
        partition: PartitionId,
        begins: Begins,
        machine: BrokerMachine<F::Kept>,
    ) -> Result<ServerMachine<F::Kept, R>, ServeFault>
        ensures machine { IfOk result (λ r. r.machine ≡ machine) }
        ensures writes { IfOk result (λ r. MatchOption self.now.traces (r.writes ≡ false)
            (λ traces. IsTrue r.writes)) }
    {
        let Some(traces) = &self.traces else {
            return Ok(recorded(self.alloc, machine, None));
        };
        match self.trace_of(traces, file, partition, begins) {
            Ok(trace) => Ok(recorded(self.alloc, machine, Some(trace))),
            Err(fault) => {
                drop(machine);
                Err(fault)
            }
        }
    }

    // Whether a partition's trace begins on its log: only on one that was made before.
    fn begins_on(&self, file: LogFile, begins: Begins) -> Result<Begins, AllocError> {
        if self.folder.has(self.alloc, file)? {
            Ok(begins)
        } else {
            Ok(Begins::No)
        }
    }

    // The node of a data partition, by whether the coordinator's trace begins.
    fn data_node<J: Naming>(
        &self,
        opened: Opened,
        begins: Begins,
    ) -> Result<OpenedNode<Kept<F, R>>, ServeFault>
        requires { HasBook J.book opened }
        ensures serves { IfOk result (IsServing J.book) }
        ensures traced { IfOk result (IsTracedNode self.now.traces) }
    {
        let file = LogFile::of(opened.partition);
        let begins = self.begins_on(file, begins)?;
        let machine = self.partition(file, opened.partition)?;
        let machine = self.traced(file, opened.partition, begins, machine)?;
        Ok(locked(opened.partition, machine, opened))
    }

    // The node of the offsets partition, and the members of all its groups, by whether the
    // coordinator's trace begins.
    fn offsets_node<J: Naming>(
        &self,
        opened: Opened,
        begins: Begins,
    ) -> Result<(OpenedNode<Kept<F, R>>, Vec<Member>), ServeFault>
        ensures { HasOffsetsBook J.book opened
            → IfOk result (λ made. IsServing J.book made.0) }
    {
        let begins = self.begins_on(LogFile::Offsets, begins)?;
        let machine = self.offsets(LogFile::Offsets)?;
        match members_of(self.alloc, &machine) {
            Ok(members) => {
                let machine = self.traced(LogFile::Offsets, PartitionId::OFFSETS, begins, machine)?;
                Ok((locked(PartitionId::OFFSETS, machine, opened), members))
            }
            Err(refused) => {
                drop(machine);
                Err(refused.into())
            }
        }
    }

    // Opens the partitions in order, and returns the members of all groups.
    fn open_partitions<J: Naming>(
        &self,
        nodes: &mut Vec<OpenedNode<Kept<F, R>>>,
        books: Vec<Opened>,
        offsets: Opened,
        begins: Begins,
    ) -> Result<Vec<Member>, ServeFault>
        requires books { All (HasBook J.book) books.items }
        requires offsets { HasOffsetsBook J.book offsets }
        ensures { All (IsServing J.book) nodes.old.items
            → OnOk result (All (IsServing J.book) nodes.new.items) }
    {
        for opened in books {
            add(nodes, self.data_node::<J>(opened, begins)?)?;
        }
        let (node, members) = self.offsets_node::<J>(offsets, begins)?;
        add(nodes, node)?;
        Ok(members)
    }

    /// Opens the nodes, whose published logs have these books.
    pub(crate) fn open<J: Naming>(
        &self,
        books: Vec<Opened>,
        offsets: Opened,
    ) -> Result<OpenedNodes<Kept<F, R>>, ServeFault>
        requires books { All (HasBook J.book) books.items }
        requires offsets { HasOffsetsBook J.book offsets }
        ensures coordinator { IfOk result (λ nodes.
            StandsForCoordinator nodes.coordinator.machine) }
        ensures partitions { IfOk result (λ nodes.
            All (IsServing J.book) nodes.partitions.items) }
        // The coordinator records its steps, if traces are kept.
        ensures traced { IfOk result (λ nodes. IsTraced self.now.traces nodes.coordinator.machine) }
    {
        let kept = self.kept()?;
        self.warn_of_more()?;
        let log = self.log_to_warn_by(kept.as_slice())?;
        let (machine, begins) = self.coordinator(kept.as_slice())?;
        self.warn_of_missing(log.as_slice(), kept.as_slice());
        let coordinator = Written::new(NodeId::Coordinator, machine);
        let mut partitions = Vec::new(self.alloc);
        match self.open_partitions::<J>(&mut partitions, books, offsets, begins) {
            Ok(members) => Ok(OpenedNodes {
                coordinator,
                partitions,
                members,
            }),
            Err(fault) => {
                drop(coordinator);
                drop(partitions);
                Err(fault)
            }
        }
    }
}
