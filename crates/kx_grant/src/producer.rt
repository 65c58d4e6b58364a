//! What is known of one transactional id: its grant, and which connections spoke for it.
//!
//! Each request of a client is a step here. If the core has to be asked, its answer is a second
//! step; the caller takes no other request of the transactional id in between.
ghost use Rattle.std.specs.Prelude.{◌≡◌, None, Some, option_map};
ghost use Rattle.kx_grant.specs.Codes.{end_code, produce_code};
ghost use Rattle.kx_grant.specs.Grant.{after_add, after_end};
ghost use Rattle.kx_grant.specs.Heard.{none_heard};
ghost use Rattle.kx_grant.specs.Producer.{add_of, after_answer, after_batch_of, after_end_reply};
ghost use Rattle.kx_grant.specs.Producer.{after_hears, after_init, after_verdict_of, answer_if};
ghost use Rattle.kx_grant.specs.Producer.{answered, asks, batch_of, end_of, end_step, hears, holds};
ghost use Rattle.kx_grant.specs.Producer.{granting, granting_of, init_of, outcome_of, pair_in};
ghost use Rattle.kx_grant.specs.Producer.{after_commits, after_offsets, answered_place, at_place};
ghost use Rattle.kx_grant.specs.Producer.{first_in, free_at, offsets_of, place_in};
ghost use Rattle.kx_grant.specs.Producer.{stepped};
ghost use Rattle.kx_grant.specs.Grant.{after_commit, is_held};

use crate::fenced::{end_code, end_fenced_code, init_code, is_final, produce_code};
use crate::grant::{Grant, is_before};
use crate::heard::{Heard, Role};
use crate::sequence::{SEQUENCES, after};
use crate::verdicts::{BatchVerdict, EndStep, EndVerdict, Granting, InitVerdict};
use kx_message::{EndReply, EndTxn, ErrorCode, Held, InitReply, Outcome, PartitionId};

// The code for a producer of whom no grant is known.
const UNKNOWN: ErrorCode = ErrorCode::InvalidProducerIdMapping;

/// What a client's batch of a transaction says of itself.
#[derive(Clone, Copy)]
pub struct ClientBatch {
    /// The id and the epoch that its producer holds.
    pub held: Held,
    /// The partition that it was sent to.
    pub partition: PartitionId,
    /// Its base sequence.
    pub first: i32,
    /// How many records it has.
    pub count: u32,
}

// Where a transaction is in the offsets partition.
#[derive(Clone, Copy)]
struct OffsetsPlace {
    // The core's pair for the transaction.
    core: Held,
    // The core's next sequence there.
    next: u32,
    // How many offsets the core was sent and hasn't answered.
    awaited: Option<u32>,
}

/// What is known of one transactional id.
#[derive(Clone, Copy)]
pub struct Producer {
    grant: Option<Grant>,
    heard: Heard,
    place: Option<OffsetsPlace>,
}

/// How a transaction ends by the flag of a request to end it.
pub fn outcome_of(committed: bool) -> Outcome
    ensures { result ≡ outcome_of committed }
{
    if committed {
        Outcome::Commit
    } else {
        Outcome::Abort
    }
}

// What becomes of a request for an id.
fn init_of(grant: &Option<Grant>, held: Option<Held>) -> InitVerdict
    ensures { result ≡ init_of grant.now held }
{
    match grant {
        Some(grant) => grant.init_again(held),
        None => InitVerdict::Ask,
    }
}

impl InitVerdict {
    // Whether the core is asked.
    fn asks(self) -> bool
        ensures { result ≡ asks self }
    {
        match self {
            InitVerdict::Ask => true,
            InitVerdict::Fenced => false,
        }
    }
}

// The pair in an answer of the core with code 0.
fn pair_in(code: ErrorCode, held: Option<Held>) -> Option<Held>
    ensures { result ≡ pair_in code held }
{
    match code {
        ErrorCode::NoError => held,
        _ => None,
    }
}

// What an answer with code 0 and this pair grants to a client that named a pair, or none.
fn granting(asked: &Option<Held>, held: Held) -> Granting
    ensures { result ≡ granting asked.now held }
{
    if is_before(asked, &held) {
        Granting::AskAgain
    } else {
        Granting::Granted(held)
    }
}

// What an answer of the core grants.
fn granting_of(version: i16, asked: &Option<Held>, code: ErrorCode, held: Option<Held>) -> Granting
    ensures { result ≡ granting_of version asked.now code held }
{
    match (code, held) {
        (ErrorCode::NoError, Some(held)) => granting(asked, held),
        (ErrorCode::NoError, None) => Granting::Refused(UNKNOWN),
        _ => Granting::Refused(init_code(version, code)),
    }
}

// A batch was answered with this code: it was taken, or refused for good.
fn note_answer(grant: &mut Grant, batch: &ClientBatch, code: ErrorCode)
    ensures { grant.new ≡ after_answer batch.now code grant.old }
{
    match code {
        ErrorCode::NoError => {
            grant.batch_taken(batch.held, batch.partition, batch.first, batch.count);
        }
        _ => {
            if is_final(code) {
                grant.batch_refused(batch.held, batch.partition, batch.first, batch.count);
            }
        }
    }
}

// What becomes of a batch, which is noted.
fn batch_in(grant: &mut Grant, batch: &ClientBatch) -> BatchVerdict
    ensures answered { result ≡ batch_of (Some grant.old) batch.now }
    ensures noted { grant.new ≡ after_batch_of batch.now grant.old }
{
    let verdict = grant.batch(batch.held, batch.partition, batch.first, batch.count);
    if let BatchVerdict::Refused(code) = verdict {
        note_answer(grant, batch, code);
    }
    verdict
}

// What is done first with a request to end a transaction.
fn end_step(version: i16, asked: &EndTxn, verdict: EndVerdict) -> EndStep
    ensures { result ≡ end_step version asked.now verdict }
{
    match verdict {
        EndVerdict::Ask { held, outcome } => EndStep::Ask(EndTxn {
            caller: asked.caller,
            txn: asked.txn,
            held,
            outcome,
        }),
        EndVerdict::Answer(code) => EndStep::Answer(code),
        EndVerdict::Fenced => EndStep::Answer(end_fenced_code(version)),
    }
}

// The sequence of an int32 that isn't below 0.
fn first_in(first: i32) -> u32
    ensures { result ≡ first_in first }
{
    match u32::try_from(first) {
        Ok(first) => first,
        Err(_) => 0,
    }
}

// The core's next sequence for offsets in the transaction of this pair, unless an answer is awaited.
fn place_in(place: &Option<OffsetsPlace>, core: &Held) -> Option<u32>
    ensures { result ≡ place_in place.now core.now }
{
    match place {
        Some(place) if place.holds(core) => place.free(),
        _ => Some(0),
    }
}

// What becomes of offsets at this sequence.
fn at_place(core: Held, next: Option<u32>, count: u32) -> BatchVerdict
    ensures { result ≡ at_place core next count }
{
    let Some(next) = next else {
        return BatchVerdict::Refused(ErrorCode::UnknownMemberId);
    };
    if u64::from(next) + u64::from(count) >= SEQUENCES {
        return BatchVerdict::Refused(ErrorCode::OutOfOrderSequenceNumber);
    }
    BatchVerdict::Send {
        held: core,
        first: next as i32,
    }
}

// What becomes of offsets, by what is known of their producer.
fn offsets_of(
    grant: &Option<Grant>,
    place: &Option<OffsetsPlace>,
    held: &Held,
    count: u32,
) -> BatchVerdict
    ensures { result ≡ offsets_of grant.now place.now held.now count }
{
    let Some(grant) = grant else {
        return BatchVerdict::Refused(ErrorCode::UnknownMemberId);
    };
    let mut noted = *grant;
    match noted.commit(held) {
        Ok(core) => at_place(core, place_in(place, &core), count),
        Err(code) => BatchVerdict::Refused(code),
    }
}

impl OffsetsPlace {
    fn holds(&self, core: &Held) -> bool
        ensures { result ≡ is_held self.now.core core.now }
    {
        self.core.id == core.id && self.core.epoch == core.epoch
    }

    // The next sequence, unless an answer is awaited.
    fn free(&self) -> Option<u32>
        ensures { result ≡ free_at self.now.awaited self.now.next }
    {
        match self.awaited {
            None => Some(self.next),
            Some(_) => None,
        }
    }

    // The core answered what it was sent.
    fn answer(&mut self, code: ErrorCode)
        ensures { self.new ≡ answered_place code self.old }
    {
        let Some(count) = self.awaited else {
            return;
        };
        if let ErrorCode::NoError = code {
            self.next = after(self.next, count);
        }
        self.awaited = None;
    }
}

impl Producer {
    /// What a server knows of a transactional id when it begins: its grant, if the coordinator's
    /// log has one. No connection spoke for it yet.
    pub fn new(grant: Option<Grant>) -> Producer
        ensures { result ≡ record { grant = grant; heard = none_heard; place = None } }
    {
        Producer {
            grant,
            heard: Heard::new(),
            place: None,
        }
    }

    // Whether a client with this pair is the one that was granted.
    fn holds(&self, held: &Held) -> bool
        ensures { result ≡ holds self.now.grant held.now }
    {
        match &self.grant {
            None => false,
            Some(grant) => grant.holds(held),
        }
    }

    // Whether a request is taken that came over this connection; one that must be heard is taken
    // only if no newer connection spoke in its role.
    fn hears(&mut self, must: bool, role: Role, connection: u64) -> bool
        ensures answered { result ≡ hears self.old.heard must role connection }
        ensures noted { self.new ≡ record self.old {
          heard = after_hears self.old.heard must role connection;
        } }
    {
        if must {
            self.heard.hear(role, connection)
        } else {
            true
        }
    }

    /// A client asks for an id, over this connection, with the pair that it holds, if it says one.
    /// None if the request isn't taken, since a newer connection spoke for the transactional id;
    /// then nothing changes. Where no grant is known the core is asked, whatever pair is named, as
    /// for a transactional id whose metadata is gone (KIP-360).
    pub fn init(&mut self, held: Option<Held>, connection: u64) -> Option<InitVerdict>
        ensures answered { result ≡ answer_if
            (hears self.old.heard (asks (init_of self.old.grant held)) Role.Coordinator connection)
            (init_of self.old.grant held) }
        ensures noted { self.new ≡ record self.old {
          heard = after_hears self.old.heard (asks (init_of self.old.grant held))
              Role.Coordinator connection;
        } }
    {
        let verdict = init_of(&self.grant, held);
        if self.hears(verdict.asks(), Role::Coordinator, connection) {
            Some(verdict)
        } else {
            None
        }
    }

    /// The core answered a request for an id, which was made with the pair `asked` and is answered
    /// over this connection by a response of this version. What it grants is the grant from now on,
    /// and of earlier connections none is heard any more. If it grants nothing, nothing changes.
    pub fn granted(
        &mut self,
        version: i16,
        asked: Option<Held>,
        connection: u64,
        reply: &InitReply,
    ) -> Granting
        ensures answered { result ≡ granting_of version asked reply.now.code reply.now.held }
        ensures noted { self.new ≡ after_init self.old asked connection
            (granting_of version asked reply.now.code reply.now.held) }
    {
        let granting = granting_of(version, &asked, reply.code, reply.held);
        self.note_granting(asked, connection, &granting);
        granting
    }

    // What the core granted is the grant from now on.
    fn note_granting(&mut self, asked: Option<Held>, connection: u64, granting: &Granting)
        ensures { self.new ≡ after_init self.old asked connection granting.now }
    {
        match granting {
            Granting::AskAgain | Granting::Refused(_) => {}
            Granting::Granted(held) => {
                self.grant = Some(match asked {
                    Some(asked) => Grant::granted_anew(asked, *held),
                    None => Grant::new(*held),
                });
                self.heard.granted_to(connection);
            }
        }
    }

    /// A client lists a partition, over this connection; the offsets partition stands for offsets
    /// that it will commit. None if the request isn't taken, since a newer connection spoke for the
    /// transactional id; then nothing changes. Else the code: that of [`Grant::add_partition`], and
    /// 49 if no grant is known.
    pub fn add_partition(
        &mut self,
        held: Held,
        partition: PartitionId,
        connection: u64,
    ) -> Option<ErrorCode>
        ensures answered { result ≡ answered self.old held Role.Coordinator connection
            (add_of self.old.grant held) }
        ensures noted { self.new ≡ stepped self.old held Role.Coordinator connection
            (λ g. after_add g held partition) }
    {
        let must = self.holds(&held);
        if !self.hears(must, Role::Coordinator, connection) {
            return None;
        }
        Some(match &mut self.grant {
            None => UNKNOWN,
            Some(grant) => grant.add_partition(held, partition),
        })
    }

    /// A client sends a batch, over this connection. None if it isn't taken, since batches arrived
    /// over a newer connection; then nothing changes. Else what becomes of it: that of
    /// [`Grant::batch`], and refused with 49 if no grant is known. That it is sent to the core,
    /// or refused for good, is noted.
    pub fn batch(&mut self, batch: &ClientBatch, connection: u64) -> Option<BatchVerdict>
        ensures answered { result ≡ answered self.old batch.now.held Role.Batches connection
            (batch_of self.old.grant batch.now) }
        ensures noted { self.new ≡ stepped self.old batch.now.held Role.Batches connection
            (after_batch_of batch.now) }
    {
        let must = self.holds(&batch.held);
        if !self.hears(must, Role::Batches, connection) {
            return None;
        }
        Some(match &mut self.grant {
            None => BatchVerdict::Refused(UNKNOWN),
            Some(grant) => batch_in(grant, batch),
        })
    }

    /// The core answered a batch that [`Producer::batch`] sent to it. Returns the code of the
    /// batch in a response to Produce; that it was taken, or refused for good, is noted.
    pub fn batch_answered(&mut self, batch: &ClientBatch, code: ErrorCode) -> ErrorCode
        ensures answered { result ≡ produce_code code }
        ensures noted { self.new ≡ record self.old {
          grant = option_map (after_answer batch.now code) self.old.grant;
        } }
    {
        if let Some(grant) = &mut self.grant {
            note_answer(grant, batch, code);
        }
        produce_code(code)
    }

    /// A client commits `count` offsets of a group in its transaction, over this connection. None if
    /// they aren't taken, since offsets arrived over a newer connection; then nothing changes. Else
    /// what becomes of them: refused as [`Grant::commit`] says, and with 25 if no grant is known,
    /// or if the core hasn't answered the last ones, so that it isn't known whether it took them:
    /// clients then abort. That they are sent to the core is noted.
    pub fn offsets(&mut self, held: &Held, count: u32, connection: u64) -> Option<BatchVerdict>
        ensures answered { result ≡ answered self.old held.now Role.Offsets connection
            (offsets_of self.old.grant self.old.place held.now count) }
        ensures noted { self.new ≡ after_commits self.old held.now count connection }
    {
        let must = self.holds(held);
        if !self.hears(must, Role::Offsets, connection) {
            return None;
        }
        Some(self.take_offsets(held, count))
    }

    // What becomes of offsets that are heard.
    fn take_offsets(&mut self, held: &Held, count: u32) -> BatchVerdict
        ensures answered { result ≡ offsets_of self.old.grant self.old.place held.now count }
        ensures noted { self.new
            ≡ after_offsets (offsets_of self.old.grant self.old.place held.now count) held.now
            count self.old }
    {
        let verdict = offsets_of(&self.grant, &self.place, held, count);
        self.note_offsets(&verdict, held, count);
        verdict
    }

    // Notes what becomes of offsets.
    fn note_offsets(&mut self, verdict: &BatchVerdict, held: &Held, count: u32)
        ensures { self.new ≡ after_offsets verdict.now held.now count self.old }
    {
        match verdict {
            BatchVerdict::Refused(_) => {}
            BatchVerdict::Send { held: core, first } => {
                self.note_commit(held);
                self.place = Some(OffsetsPlace {
                    core: *core,
                    next: first_in(*first),
                    awaited: Some(count),
                });
            }
        }
    }

    // Notes in the grant that offsets are sent to the core.
    fn note_commit(&mut self, held: &Held)
        ensures { self.new ≡ record self.old {
          grant = option_map (λ g. after_commit g held.now) self.old.grant;
        } }
    {
        if let Some(grant) = &mut self.grant {
            // Where they are refused nothing changes.
            let _ = grant.commit(held);
        }
    }

    /// The core answered the offsets that [`Producer::offsets`] sent to it. Returns the code of
    /// each in a response to TxnOffsetCommit; whether the core took them is noted.
    pub fn offsets_answered(&mut self, code: ErrorCode) -> ErrorCode
        ensures answered { result ≡ produce_code code }
        ensures noted { self.new ≡ record self.old {
          place = option_map (answered_place code) self.old.place;
        } }
    {
        if let Some(place) = &mut self.place {
            place.answer(code);
        }
        produce_code(code)
    }

    /// A client ends its transaction, over this connection, by a request of this version. None if
    /// the request isn't taken, since a newer connection spoke for the transactional id; then
    /// nothing changes. Else the core is asked as its own producer of the transaction, or the
    /// request is answered: as [`Grant::end`] says, and with 49 if no grant is known.
    pub fn end(&mut self, version: i16, asked: &EndTxn, connection: u64) -> Option<EndStep>
        ensures answered { result ≡ answered self.old asked.now.held Role.Coordinator connection
            (end_of version asked.now self.old.grant) }
        ensures noted { self.new ≡ stepped self.old asked.now.held Role.Coordinator connection
            (λ g. after_end g asked.now.held asked.now.outcome) }
    {
        let must = self.holds(&asked.held);
        if !self.hears(must, Role::Coordinator, connection) {
            return None;
        }
        Some(match &mut self.grant {
            None => EndStep::Answer(UNKNOWN),
            Some(grant) => end_step(version, asked, grant.end(asked.held, asked.outcome)),
        })
    }

    /// The core answered what [`Producer::end`] asked it. Returns the code in a response of this
    /// version, which is 0 only if the core's is; the transaction has then ended as it was asked.
    pub fn end_answered(&mut self, version: i16, asked: &EndTxn, reply: &EndReply) -> ErrorCode
        ensures answered { result ≡ end_code version reply.now.code }
        ensures noted { self.new ≡ record self.old {
          grant = option_map
              (after_end_reply asked.now.outcome (pair_in reply.now.code reply.now.held))
              self.old.grant;
        } }
    {
        self.note_end(asked.outcome, pair_in(reply.code, reply.held));
        end_code(version, reply.code)
    }

    // The core ended the transaction, and goes on with this pair.
    fn note_end(&mut self, outcome: Outcome, next: Option<Held>)
        ensures { self.new ≡ record self.old {
          grant = option_map (after_end_reply outcome next) self.old.grant;
        } }
    {
        if let (Some(grant), Some(next)) = (&mut self.grant, next) {
            grant.ended(outcome, next);
        }
    }
}
