//! A run as it is drawn.
use crate::rule::Rule;

/// What became of the transaction of a batch.
#[derive(Clone, Copy, Debug, PartialEq, Eq)]
pub enum Fate {
    /// There is no transaction.
    Plain,
    /// It is open in the end.
    Open,
    /// Its commit marker stands.
    Committed,
    /// Its abort marker stands.
    Aborted,
}

/// How a step is marked in its lane.
#[derive(Clone, Copy, Debug, PartialEq, Eq)]
pub enum Mark {
    /// It appended nothing.
    Dot,
    /// It appended a batch of records.
    Batch,
    /// It appended a transaction marker.
    Marker,
    /// It opened the node again.
    Restart,
    /// The node's store failed in it.
    Failure,
}

/// A lane, which is a node's, or that of all clients.
#[derive(Drop)]
pub struct Lane {
    /// The node's name.
    pub name: String,
    /// Whether it is a partition's.
    pub is_partition: bool,
}

/// One step: a node took one input.
#[derive(Drop)]
pub struct Step {
    /// The lane of its node.
    pub lane: usize,
    /// What it did, in a few words.
    pub title: String,
    /// What it took and what it sent.
    pub detail: String,
    /// The rule by which it answered, if one did.
    pub rule: Option<Rule>,
    /// How it is marked.
    pub mark: Mark,
    /// What became of the transaction of the batch that it appended.
    pub fate: Fate,
    /// The client that it is for, if it is one's.
    pub client: Option<u32>,
    /// The producer id of the transaction that it is about, if any.
    pub producer: Option<i64>,
    /// The step that ended the transaction of the batch that it appended, if one did.
    pub ended: Option<usize>,
    /// The last stable offset of its partition, if the step changed it.
    pub stable: Option<i64>,
}

/// How a message went.
#[derive(Clone, Copy, Debug, PartialEq, Eq)]
pub enum Way {
    /// It arrived for the first time.
    First,
    /// It arrived again.
    Again,
    /// It never arrived.
    Lost,
    /// It went to a client outside, of which nothing is seen.
    Outside,
}

/// A message on its way from the step that sent it to one that took it.
#[derive(Drop)]
pub struct Arrow {
    /// The step that sent it.
    pub sent: usize,
    /// The lane from which it went.
    pub from: usize,
    /// The step that took it; the one that sent it if none did.
    pub taken: usize,
    /// The lane to which it went.
    pub to: usize,
    /// How it went.
    pub way: Way,
    /// What became of the transaction that it is about.
    pub fate: Fate,
    /// The client that it is from or for, if any.
    pub client: Option<u32>,
    /// The producer id that it names, if any.
    pub producer: Option<i64>,
    /// Its kind.
    pub name: &'static str,
    /// Its kind and its fields.
    pub text: String,
}

/// A batch of a partition's log as it ends.
#[derive(Drop)]
pub struct LoggedBatch {
    /// The offset of its first record.
    pub offset: i64,
    /// Who wrote it, and whether it is a batch of records or a marker.
    pub kind: String,
    /// Its records, in whatever bytes.
    pub records: Vec<u8>,
    /// What became of its transaction.
    pub fate: Fate,
    /// Whether a reader of committed records is shown its records, and why.
    pub reading: &'static str,
}

/// A partition's log as it ends.
#[derive(Drop)]
pub struct Log {
    /// The partition's name.
    pub name: String,
    /// The last stable offset.
    pub stable: i64,
    /// The offset after its last record.
    pub end: i64,
    /// The batches.
    pub batches: Vec<LoggedBatch>,
}

/// A run: its lanes from the left, its steps in their order, its messages, and its logs in the end.
#[derive(Drop)]
pub struct Run {
    /// What ran.
    pub title: &'static str,
    /// The lanes.
    pub lanes: Vec<Lane>,
    /// The steps.
    pub steps: Vec<Step>,
    /// The messages, each once for each step that took it, and once if none did.
    pub arrows: Vec<Arrow>,
    /// The logs.
    pub logs: Vec<Log>,
}

impl Run {
    /// Drops the run. A crate that ends it by this call, and not by dropping it, need not prove the
    /// drop of each of its types.
    pub fn end(self) {
        drop(self);
    }
}
