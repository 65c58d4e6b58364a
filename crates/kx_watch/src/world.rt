//! A world in which an event happens and is watched.
ghost use Rattle.std.specs.Prelude.{◌≡◌, [], IfOk, IsOk, OnErr, OnOk};
ghost use Rattle.kx_message.specs.Ranges.{data_partitions};
ghost use Rattle.kx_view.specs.Recording.{AddsStep, TellSame};

use crate::transit::Transit;
use kx_core::{Event, Happened, PartitionCount, Sent};
use kx_machines::LocalStore;
use kx_message::{NodeId, PartitionId};
use kx_page::Run;
use kx_partition::Partition;
use kx_processor::Prefixed;
use kx_script::Running;
use kx_view::{LogAt, Recorder, Seen, Took};
use std::alloc::{AllocError, Global};
use std::marker::Model;

// The log of a node that has none.
const NO_LOG: LogAt = LogAt { end: 0, stable: 0 };

// The node of the world at which an event is. A request from outside is at none.
fn node_of(event: &Event<Prefixed>) -> Option<NodeId> {
    match event {
        Event::Make { client, .. } | Event::MakeProcessor { client, .. } => {
            Some(NodeId::Client(*client))
        }
        Event::Deliver { to, .. } | Event::Hand { to, .. } => Some(*to),
        Event::Arrive { .. } => None,
    }
}

// How far a partition's log reaches.
fn reach(partition: &Partition<LocalStore>) -> LogAt {
    LogAt {
        end: partition.end(),
        stable: partition.lso(),
    }
}

// How far a node's log reaches, if it has one.
fn log_at(running: &Running, node: Option<NodeId>) -> LogAt {
    match &node {
        Some(NodeId::Coordinator) => LogAt {
            end: i64::try_from(running.entry_count()).unwrap_or(i64::MAX),
            stable: 0,
        },
        Some(NodeId::Partition(partition)) => match running.partition(*partition) {
            Some(partition) => reach(partition),
            None => NO_LOG,
        },
        Some(NodeId::Client(_)) | None => NO_LOG,
    }
}

// What a node takes in an event, of the messages that were sent.
fn took_in<'a>(event: &'a Event<Prefixed>, sent: &'a Sent) -> Took<'a> {
    match event {
        Event::Deliver { number, .. } => match sent.get(*number) {
            Some(message) => Took::Message(*number, message),
            None => Took::Nothing,
        },
        Event::Hand { input, .. } => Took::Input(input),
        _ => Took::Nothing,
    }
}

// Records the step of an event that happened: that of its node, whose log reached so far before and
// after it, or that of a client outside.
fn record<'a>(
    recorder: &mut Recorder,
    sent: &'a Sent,
    event: &'a Event<Prefixed>,
    happened: Happened,
    before: LogAt,
    after: LogAt,
) -> Result<(), AllocError>
    ensures ok { OnOk result (AddsStep recorder.old recorder.new) }
    ensures err { OnErr result (recorder.new ≡ recorder.old) }
{
    let Some(node) = node_of(event) else {
        return recorder.add_request(sent.last());
    };
    let seen = Seen {
        node,
        took: took_in(event, sent),
        sent: sent.last(),
        note: happened.note,
        failed: happened.failed,
        before,
        after,
    };
    recorder.add(&seen)
}

// Records the log of a partition, if the partition is there and has a batch.
fn add_log(
    alloc: Global,
    recorder: &mut Recorder,
    number: PartitionId,
    partition: Option<&Partition<LocalStore>>,
) -> Result<(), AllocError>
    ensures { recorder.new ≡ recorder.old }
{
    let Some(partition) = partition else {
        return Ok(());
    };
    let at = reach(partition);
    if at.end == 0 {
        return Ok(());
    }
    let texts: Vec<&[u8]> = partition.slice(0, i64::MAX, u32::MAX).collect(alloc)?;
    recorder.add_log(NodeId::Partition(number), at, texts.as_slice())
}

// Records the logs of a world's partitions that have a batch, as they end.
fn add_logs(alloc: Global, recorder: &mut Recorder, running: &Running) -> Result<(), AllocError>
    ensures { recorder.new ≡ recorder.old }
{
    for number in 0..PartitionId::DATA_COUNT {
        if let Ok(number) = PartitionId::try_from(number) {
            add_log(alloc, recorder, number, running.partition(number))?;
        }
    }
    let number = PartitionId::OFFSETS;
    add_log(alloc, recorder, number, running.partition(number))
}

/// As many data partitions as a world can have.
pub fn all_partitions() -> PartitionCount
    ensures { result ≡ data_partitions }
{
    PartitionCount::new(PartitionId::DATA_COUNT).unwrap()
}

/// A world that is watched: each event that happens in it is recorded. It ends by
/// [`into_run`](Watched::into_run), which drops it.
pub struct Watched {
    alloc: Global,
    pub(crate) recorder: Recorder,
    pub(crate) running: Running,
    // what the nodes of a server sent to each other; nothing in other worlds
    pub(crate) transit: Transit,
}

impl Model for Watched {
    ghost use Rattle.std.specs.Prelude.{List};
    ghost use Rattle.kx_page.specs.declared.run.Step.{Step};

    ghost Value = { List Step };

    ghost view = { λ w. w.recorder };
}

impl Watched {
    /// A world of this many data partitions, in which nothing has happened.
    ///
    /// # Errors
    ///
    /// Only if memory runs out.
    pub fn new(alloc: Global, partitions: PartitionCount) -> Result<Watched, AllocError>
        ensures { IfOk result (λ watched. watched ≡ []) }
    {
        let running = Running::new(alloc, partitions)?;
        Ok(Watched {
            alloc,
            recorder: Recorder::new(alloc),
            running,
            transit: Transit::new(alloc),
        })
    }

    /// An event happens in the world, and its step is recorded.
    ///
    /// # Errors
    ///
    /// Only if memory runs out; then the steps are as before.
    pub(crate) fn happen(&mut self, event: &Event<Prefixed>) -> Result<Happened, AllocError>
        ensures ok { OnOk result (AddsStep self.old self.new) }
        ensures err { OnErr result (self.new ≡ self.old) }
    {
        let before = log_at(&self.running, node_of(event));
        let happened = self.running.happen(event)?;
        let after = log_at(&self.running, node_of(event));
        let sent = self.running.sent();
        record(&mut self.recorder, sent, event, happened, before, after)?;
        Ok(happened)
    }

    /// The run that was watched, of this title, with the logs to which it led; if watching failed,
    /// that failure.
    ///
    /// # Errors
    ///
    /// Only if memory runs out, or ran out while the world was watched.
    pub fn into_run(
        self,
        title: &'static str,
        watched: Result<(), AllocError>,
    ) -> Result<Run, AllocError>
        ensures steps { IfOk result (λ run. TellSame self run.steps.items) }
        ensures title { IfOk result (λ run. run.title.now ≡ title.now) }
        ensures ok { OnOk result (IsOk watched) }
    {
        let Watched {
            alloc,
            mut recorder,
            running,
            transit,
        } = self;
        drop(transit);
        let added = match watched {
            Ok(()) => add_logs(alloc, &mut recorder, &running),
            Err(error) => Err(error),
        };
        running.end();
        match added {
            Ok(()) => recorder.into_run(title),
            Err(error) => {
                recorder.end();
                Err(error)
            }
        }
    }
}
