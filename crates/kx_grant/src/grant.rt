//! What one transactional id was granted.
ghost use Rattle.std.specs.Prelude.{◌≡◌, ◌<◌, MatchResult, None, Some, unwrap_or};
ghost use Rattle.kx_grant.specs.Sequences.{sequences};
ghost use Rattle.kx_grant.specs.Grant.{add_code, after_add, after_batch, after_end, after_refused};
ghost use Rattle.kx_grant.specs.Grant.{after_taken, again, batch_verdict, begun, begun_at, counted};
ghost use Rattle.kx_grant.specs.Grant.{after_commit, commit_code, committing, offsets_code};
ghost use Rattle.kx_grant.specs.Grant.{counts, decided_before, end_in, end_verdict, ended, gone_on};
ghost use Rattle.kx_grant.specs.Grant.{in_turn, init_verdict, is_before, is_held, is_next};
ghost use Rattle.kx_grant.specs.Grant.{listed_at, listed_verdict, listing, next_at, opened};
ghost use Rattle.kx_grant.specs.Grant.{with_at, with_sent};
ghost use Rattle.kx_grant.specs.Grant.{phase_code, phase_of, reopened, stopped, stopped_at};

use crate::sequence::{SEQUENCES, after, sequence_in, since};
use crate::verdicts::{BatchVerdict, EndVerdict, InitVerdict};
use kx_message::{ErrorCode, Held, Outcome, PartitionId};

/// What the coordinator's last row of a transactional id says of its transaction.
#[derive(Clone, Copy, Debug, PartialEq, Eq)]
pub enum LastRow {
    /// The id was granted, and no transaction has begun since.
    Empty,
    /// A transaction is under way.
    Ongoing,
    /// The last transaction is decided.
    Decided(Outcome),
}

// How far a producer's transaction is.
#[derive(Clone, Copy)]
enum Phase {
    // No batch of the transaction was sent to the core.
    Empty,
    // A batch of the transaction was sent to the core.
    Sent,
    // It was under way before a restart.
    Resumed,
    // The last one ended, and no partition was listed since.
    Ended(Outcome),
    // The last one was decided before a restart, and no partition was listed since.
    Decided(Outcome),
}

// What a transaction has of a partition that the client listed.
#[derive(Clone, Copy)]
struct Listed {
    // The client's sequence at which the transaction begins here; not known after a restart until
    // the first batch arrives.
    base: Option<u32>,
    // Whether a batch was refused here for good, so that no further one is taken.
    is_stopped: bool,
}

/// What one transactional id was granted: the id and epoch that its client holds, the core's, and
/// where its transaction and its sequences are.
///
/// The records of a transaction in a partition have, at the core, the sequences from 0 on, in the
/// order of the client's, which go on over many transactions. After a batch that was refused for
/// good no further one of the transaction is taken in its partition, so that the core's sequences
/// have no gap; the client counts its records all the same.
#[derive(Clone, Copy)]
pub struct Grant {
    granted: Held,
    before: Option<Held>,
    core: Held,
    phase: Phase,
    next: [Option<u32>; 16],
    listed: [Option<Listed>; 16],
}

// Whether two pairs are the same.
fn is_held(a: &Held, b: &Held) -> bool
    ensures { result ≡ is_held a.now b.now }
{
    a.id == b.id && a.epoch == b.epoch
}

/// Whether this is a pair, and the same.
pub(crate) fn is_before(before: &Option<Held>, held: &Held) -> bool
    ensures { result ≡ is_before before.now held.now }
{
    match before {
        None => false,
        Some(before) => is_held(before, held),
    }
}

// A client begins each id and epoch at sequence 0.
fn begun(before: Option<Held>, held: Held) -> Grant
    ensures { result ≡ begun before held }
{
    Grant {
        granted: held,
        before,
        core: Held {
            id: held.id,
            epoch: held.epoch,
        },
        phase: Phase::Empty,
        next: [Some(0); 16],
        listed: [None; 16],
    }
}

impl LastRow {
    // How far the transaction is after a restart.
    fn phase(self) -> Phase
        ensures { result ≡ phase_of self }
    {
        match self {
            LastRow::Empty => Phase::Empty,
            LastRow::Ongoing => Phase::Resumed,
            LastRow::Decided(outcome) => Phase::Decided(outcome),
        }
    }
}

impl Phase {
    // A transaction begins with the first partition that is listed after an end.
    fn opened(self) -> Phase
        ensures { result ≡ opened self }
    {
        match self {
            Phase::Empty | Phase::Ended(_) | Phase::Decided(_) => Phase::Empty,
            Phase::Sent => Phase::Sent,
            Phase::Resumed => Phase::Resumed,
        }
    }

    // With which code batches are refused.
    fn refusal(self) -> Option<ErrorCode>
        ensures { result ≡ phase_code self }
    {
        match self {
            Phase::Empty | Phase::Sent => None,
            Phase::Resumed | Phase::Decided(_) => Some(ErrorCode::InvalidProducerIdMapping),
            Phase::Ended(_) => Some(ErrorCode::InvalidTxnState),
        }
    }

    // With which code offsets are refused.
    fn offsets_refusal(self) -> Option<ErrorCode>
        ensures { result ≡ offsets_code self }
    {
        match self {
            Phase::Empty | Phase::Sent => None,
            Phase::Resumed | Phase::Decided(_) => Some(ErrorCode::UnknownMemberId),
            Phase::Ended(_) => Some(ErrorCode::InvalidTxnState),
        }
    }

    // What becomes of its end.
    fn end(self, core: Held, outcome: Outcome) -> EndVerdict
        ensures { result ≡ end_in core self outcome }
    {
        match self {
            Phase::Empty => EndVerdict::Answer(ErrorCode::NoError),
            Phase::Sent | Phase::Resumed => EndVerdict::Ask {
                held: core,
                outcome,
            },
            Phase::Ended(last) => again(last, outcome, ErrorCode::InvalidTxnState),
            Phase::Decided(last) => decided_before(last, outcome),
        }
    }
}

// The answer to an end after one of this outcome.
fn again(last: Outcome, outcome: Outcome, other: ErrorCode) -> EndVerdict
    ensures { result ≡ again last outcome other }
{
    EndVerdict::Answer(if last.get() == outcome.get() {
        ErrorCode::NoError
    } else {
        other
    })
}

// The answer to an end if the last transaction was decided before a restart. An abort has nothing left
// to abort.
fn decided_before(last: Outcome, outcome: Outcome) -> EndVerdict
    ensures { result ≡ decided_before last outcome }
{
    match outcome {
        Outcome::Abort => EndVerdict::Answer(ErrorCode::NoError),
        Outcome::Commit => again(last, outcome, ErrorCode::InvalidProducerIdMapping),
    }
}

// What becomes of a batch that begins `at` records after the begin of its transaction, if the
// client's next begins after `sent`.
fn in_turn(core: Held, at: u32, sent: u32, count: u32, is_stopped: bool) -> BatchVerdict
    requires { at < sequences }
    ensures { result ≡ in_turn core at sent count is_stopped }
{
    let verdict = BatchVerdict::Send {
        held: core,
        first: at as i32,
    };
    if at < sent {
        return verdict;
    }
    if at != sent || u64::from(at) + u64::from(count) >= SEQUENCES {
        return BatchVerdict::Refused(ErrorCode::OutOfOrderSequenceNumber);
    }
    if is_stopped {
        return BatchVerdict::Refused(ErrorCode::InvalidTxnState);
    }
    verdict
}

// The sequence if it is known, else this one.
fn known_or(known: Option<u32>, first: u32) -> u32
    ensures { result ≡ unwrap_or known first }
{
    match known {
        Some(sequence) => sequence,
        None => first,
    }
}

// What a transaction has of a partition once it is listed.
fn listing(next: Option<u32>, listed: Option<Listed>) -> Option<Listed>
    ensures { result ≡ listing next listed }
{
    match listed {
        Some(listed) => Some(listed),
        None => Some(Listed {
            base: next,
            is_stopped: false,
        }),
    }
}

// The begin of a transaction in a partition is known from the first batch on.
fn begun_at(first: u32, listed: Option<Listed>) -> Option<Listed>
    ensures { result ≡ begun_at first listed }
{
    let listed = listed?;
    Some(Listed {
        base: Some(known_or(listed.base, first)),
        is_stopped: listed.is_stopped,
    })
}

// No further batch of the transaction is taken in the partition.
fn stopped(listed: Option<Listed>) -> Option<Listed>
    ensures { result ≡ stopped listed }
{
    let listed = listed?;
    Some(Listed {
        base: listed.base,
        is_stopped: true,
    })
}

fn is_next(next: Option<u32>, first: Option<u32>) -> bool
    ensures { result ≡ is_next next first }
{
    match (next, first) {
        (Some(next), Some(first)) => next == first,
        _ => false,
    }
}

// The sequence after a client's batch.
fn counted(count: u32, next: Option<u32>) -> Option<u32>
    ensures { result ≡ counted count next }
{
    let next = next?;
    Some(after(next, count))
}

impl Listed {
    // What becomes of a batch in its partition.
    fn batch(self, core: Held, next: Option<u32>, first: u32, count: u32) -> BatchVerdict
        ensures { result ≡ listed_verdict core next self first count }
    {
        let base = known_or(self.base, first);
        let sent = since(base, known_or(next, first));
        in_turn(core, since(base, first), sent, count, self.is_stopped)
    }
}

impl Grant {
    /// What the core answered to a producer that asked for an id without a pair that it holds.
    /// An earlier producer of the transactional id is fenced.
    pub fn new(granted: Held) -> Grant
        ensures { result ≡ begun None granted }
    {
        begun(None, granted)
    }

    /// What the core answered to a producer that asked for an id with the pair `asked`, which it
    /// held: that pair may ask once more, as if the answer was lost (KIP-360).
    pub fn granted_anew(asked: Held, granted: Held) -> Grant
        ensures { result ≡ begun (Some asked) granted }
    {
        begun(Some(asked), granted)
    }

    /// The grant after a restart, by the coordinator's log: the pair of the last row that a request
    /// for an id wrote, what the last row says of the transaction, and the pair that it has, or
    /// with which the core goes on if the transaction is decided. No client's sequences are
    /// stored, so a partition's first batch of a later transaction is taken at any sequence, and
    /// those after it in turn.
    pub fn reopened(granted: Held, core: Held, row: LastRow) -> Grant
        ensures { result ≡ reopened granted core row }
    {
        Grant {
            granted,
            before: None,
            core,
            phase: row.phase(),
            next: [None; 16],
            listed: [None; 16],
        }
    }

    /// What becomes of a request for an id, by the pair that the producer holds, if it says one: it
    /// is asked of the core for the granted pair, and for the one before it, whose bump's answer
    /// may be lost; of any other it is fenced (KIP-360).
    pub fn init_again(&self, held: Option<Held>) -> InitVerdict
        ensures { result ≡ init_verdict self.now held }
    {
        let Some(held) = held else {
            return InitVerdict::Ask;
        };
        if is_held(&self.granted, &held) || is_before(&self.before, &held) {
            InitVerdict::Ask
        } else {
            InitVerdict::Fenced
        }
    }

    /// Whether a producer with this id and epoch is the one that was granted.
    pub fn holds(&self, held: &Held) -> bool
        ensures { result ≡ is_held self.now.granted held.now }
    {
        is_held(&self.granted, held)
    }

    // The client's next sequence in a partition, if it is known.
    fn next_at(&self, partition: PartitionId) -> Option<u32>
        ensures { result ≡ next_at self.now partition }
    {
        if partition.is_data() {
            self.next[partition.get() as usize]
        } else {
            None
        }
    }

    // What the open transaction has of a partition, if the client listed it.
    fn listed_at(&self, partition: PartitionId) -> Option<Listed>
        ensures { result ≡ listed_at self.now partition }
    {
        if partition.is_data() {
            self.listed[partition.get() as usize]
        } else {
            None
        }
    }

    fn set_next(&mut self, partition: PartitionId, next: Option<u32>)
        ensures { self.new ≡ record self.old { next = with_at self.old.next partition next } }
    {
        if partition.is_data() {
            self.next[partition.get() as usize] = next;
        }
    }

    fn set_listed(&mut self, partition: PartitionId, listed: Option<Listed>)
        ensures { self.new ≡ record self.old { listed = with_at self.old.listed partition listed } }
    {
        if partition.is_data() {
            self.listed[partition.get() as usize] = listed;
        }
    }

    /// A producer lists a partition; the offsets partition stands for offsets that it will commit.
    /// Answered with code 0, and noted; 47 for another pair than the granted one.
    pub fn add_partition(&mut self, held: Held, partition: PartitionId) -> ErrorCode
        ensures answered { result ≡ add_code self.old held }
        ensures noted { self.new ≡ after_add self.old held partition }
    {
        if !is_held(&self.granted, &held) {
            return ErrorCode::InvalidProducerEpoch;
        }
        self.phase = self.phase.opened();
        let listed = listing(self.next_at(partition), self.listed_at(partition));
        self.set_listed(partition, listed);
        ErrorCode::NoError
    }

    // What becomes of a batch.
    fn verdict(&self, held: Held, partition: PartitionId, first: i32, count: u32) -> BatchVerdict
        ensures { result ≡ batch_verdict self.now held partition first count }
    {
        if !is_held(&self.granted, &held) {
            return BatchVerdict::Refused(ErrorCode::InvalidProducerEpoch);
        }
        if let Some(code) = self.phase.refusal() {
            return BatchVerdict::Refused(code);
        }
        let Some(first) = sequence_in(first) else {
            return BatchVerdict::Refused(ErrorCode::OutOfOrderSequenceNumber);
        };
        let Some(listed) = self.listed_at(partition) else {
            return BatchVerdict::Refused(ErrorCode::InvalidTxnState);
        };
        listed.batch(self.core, self.next_at(partition), first, count)
    }

    // Notes that a batch which begins with this sequence is sent to the core.
    fn note_sent(&mut self, partition: PartitionId, first: u32)
        ensures { self.new ≡ with_sent self.old partition (Some first) }
    {
        self.phase = Phase::Sent;
        let next = known_or(self.next_at(partition), first);
        self.set_next(partition, Some(next));
        let listed = begun_at(first, self.listed_at(partition));
        self.set_listed(partition, listed);
    }

    /// What becomes of a batch of `count` records, the first that fits: refused with 47 for another
    /// pair than the granted one; with 49 in a transaction that was under way before a restart;
    /// with 48 if the client hasn't listed the partition in this transaction; with 45 where it
    /// begins neither at the client's next sequence nor within what the client sent of the
    /// transaction here, or if the transaction would have 2^31 records here; with 48 at the next
    /// sequence after a batch of the transaction that was refused here for good. Else it is sent to
    /// the core, always with the same base sequence, so that the core knows a batch that it has.
    ///
    /// That it is sent is noted: the core is then asked to end the transaction too.
    pub fn batch(
        &mut self,
        held: Held,
        partition: PartitionId,
        first: i32,
        count: u32,
    ) -> BatchVerdict
        ensures answered { result ≡ batch_verdict self.old held partition first count }
        ensures noted { self.new ≡ after_batch self.old held partition first count }
    {
        let verdict = self.verdict(held, partition, first, count);
        if let BatchVerdict::Send { .. } = verdict {
            if let Some(first) = sequence_in(first) {
                self.note_sent(partition, first);
            }
        }
        verdict
    }

    // Whether the batch is the client's next in the partition.
    fn counts(&self, held: Held, partition: PartitionId, first: i32) -> bool
        ensures { result ≡ counts self.now held partition first }
    {
        is_held(&self.granted, &held) && is_next(self.next_at(partition), sequence_in(first))
    }

    fn go_on(&mut self, partition: PartitionId, count: u32)
        ensures { self.new ≡ gone_on self.old partition count }
    {
        let next = counted(count, self.next_at(partition));
        self.set_next(partition, next);
    }

    // The client goes on after records that were refused, and the transaction stops here.
    fn skip(&mut self, partition: PartitionId, refused: u32)
        ensures { self.new ≡ stopped_at (gone_on self.old partition refused) partition }
    {
        self.go_on(partition, refused);
        let listed = stopped(self.listed_at(partition));
        self.set_listed(partition, listed);
    }

    /// The core answered the batch with code 0. If it is the client's next, the client goes on
    /// after it; a batch from before changes nothing.
    pub fn batch_taken(&mut self, held: Held, partition: PartitionId, first: i32, count: u32)
        ensures { self.new ≡ after_taken self.old held partition first count }
    {
        if self.counts(held, partition, first) {
            self.go_on(partition, count);
        }
    }

    /// The batch was refused for good, by the core or by [`Grant::batch`]: with a code after which
    /// clients don't send it again. If it is the client's next, the client goes on after it, and
    /// no further batch of the transaction is taken in the partition; any other changes nothing. Call it
    /// before the transaction ends.
    pub fn batch_refused(&mut self, held: Held, partition: PartitionId, first: i32, count: u32)
        ensures { self.new ≡ after_refused self.old held partition first count }
    {
        if self.counts(held, partition, first) {
            self.skip(partition, count);
        }
    }

    // Whether offsets are sent to the core, or the code with which they are refused.
    fn commit_refusal(&self, held: &Held) -> Option<ErrorCode>
        ensures { result ≡ commit_code self.now held.now }
    {
        if is_held(&self.granted, held) {
            self.phase.offsets_refusal()
        } else {
            Some(ErrorCode::InvalidProducerEpoch)
        }
    }

    /// Offsets of a group are sent to the core in the transaction, as this producer, the core's.
    /// That they are is noted: the core is then asked to end the transaction too.
    ///
    /// # Errors
    ///
    /// The code with which they are refused; then nothing changes. 47 for another pair than the
    /// granted one; 25 in a transaction that was under way before a restart, after which clients
    /// abort it, or after one that was decided before it; 48 after an end, before a partition was
    /// listed.
    pub fn commit(&mut self, held: &Held) -> Result<Held, ErrorCode>
        ensures answered { MatchResult result
            (λ core. (commit_code self.old held.now ≡ None) × (core ≡ self.old.core))
            (λ code. commit_code self.old held.now ≡ Some code) }
        ensures noted { self.new ≡ after_commit self.old held.now }
    {
        if let Some(code) = self.commit_refusal(held) {
            return Err(code);
        }
        self.phase = Phase::Sent;
        Ok(self.core)
    }

    /// What becomes of a request to end the transaction: fenced for another pair than the granted
    /// one. If something of it was sent to the core, or it was under way before a restart, the
    /// core is asked. If nothing was, it ends at once, answered with code 0. After an end, the
    /// same end is answered with 0 again, and the other with 48; with 49 if that end was decided
    /// before a restart, since partitions that the client listed after it aren't known.
    pub fn end(&mut self, held: Held, outcome: Outcome) -> EndVerdict
        ensures answered { result ≡ end_verdict self.old held outcome }
        ensures noted { self.new ≡ after_end self.old held outcome }
    {
        if !is_held(&self.granted, &held) {
            return EndVerdict::Fenced;
        }
        let verdict = self.phase.end(self.core, outcome);
        if let Phase::Empty = self.phase {
            self.ended(outcome, self.core);
        }
        verdict
    }

    /// The core answered the transaction's end with code 0, and goes on with this pair. No
    /// partition is listed any more.
    pub fn ended(&mut self, outcome: Outcome, next: Held)
        ensures { self.new ≡ ended outcome next self.old }
    {
        self.core = next;
        self.phase = Phase::Ended(outcome);
        self.listed = [None; 16];
    }
}
