//! Offsets of consumer groups: TxnOffsetCommit, OffsetCommit and OffsetFetch.
//!
//! The core commits offsets in transactions only. For an OffsetCommit the server has one of its own.
use crate::absent::ASK_AGAIN;
use crate::answering::{Answer, Asked, Session};
use crate::closed::Closed;
use crate::groups::{KnownGroup, OwnTxn};
use crate::replies::{offset_fetch_reply, offsets_reply};
use crate::transacting::TxnInit;
use kx_gateway::{coordinator_code, held_of, txn_of};
use kx_grant::{BatchVerdict, Producer};
use kx_group_gateway::{
    ClaimedTopic, FetchedTopic, GroupCode, alone_code, claims_of, commit_frame, fetched_offset,
    group_of, offset_fetch_frame, offsets_of, txn_claims_of, txn_commit_frame,
};
use kx_kafka::{
    OffsetCommitRequest, OffsetFetchPartition, OffsetFetchRequest, TopicPartition,
    TxnOffsetCommitRequest,
};
use kx_membership::{Group, GroupFault};
use kx_message::{
    ClientId, EndTxn, ErrorCode, GroupId, Held, Message, OffsetFetch, OffsetFetchReply, Offsets,
    OffsetsReply, Outcome, PartitionId, PartitionOffset, Timeout, TxnId, TxnOffsetCommit,
};
use kx_published::book::Naming;
use kx_publishing::Readable;
use std::sync::{Arc, Mutex, Wait};
use std::time::Clock;

// The server's own transactional ids begin so; a client can't have one.
const OWN: &[u8] = b"~offsets/";

// How long the server's own transactions may stay open, in milliseconds.
const OWN_TIMEOUT: u32 = 60_000;

/// Whether a transactional id is one of the server's own.
pub(crate) fn is_own(txn: &TxnId) -> bool {
    txn.as_bytes().starts_with(OWN)
}

/// The place of the group whose offsets the server commits with this transactional id, if it is one of
/// its own.
pub(crate) fn place_of(txn: &TxnId) -> Option<usize> {
    if !is_own(txn) {
        return None;
    }
    let (_, digits) = txn.as_bytes().split_at_checked(OWN.len())?;
    str::from_utf8(digits).ok()?.parse::<usize>().ok()
}

// Offsets that are to be committed in a group, in the name of the guest of a generation.
#[derive(Drop)]
struct Commit {
    group: GroupId,
    member: u32,
    generation: i32,
    offsets: Vec<PartitionOffset>,
}

// Who commits offsets: a member of a generation, or a client that doesn't say.
#[derive(Clone, Copy)]
enum Committer<'t> {
    Member { id: &'t [u8], generation: i32 },
    Anyone,
}

// Offsets that a producer asks to commit in a group.
#[derive(Drop)]
struct Claim<'g> {
    group: GroupId,
    known: &'g Mutex<KnownGroup>,
    by: Committer<'g>,
    offsets: Vec<PartitionOffset>,
}

// Whether the core refused offsets since their guest isn't that of the present generation.
fn is_of_another_generation(code: ErrorCode) -> bool {
    matches!(
        code,
        ErrorCode::IllegalGeneration | ErrorCode::UnknownMemberId
    )
}

// Who asks to commit offsets in a transaction.
#[derive(Clone, Copy)]
struct TxnCommit<'t> {
    txn: &'t [u8],
    group: &'t [u8],
    // the offsets, None if the core can't hold them
    held: Option<Held>,
    committer: Committer<'t>,
}

// Who commits offsets, by the member's id and generation.
fn committer_of(id: &[u8], generation: i32) -> Committer<'_> {
    if id.is_empty() && generation < 0 {
        Committer::Anyone
    } else {
        Committer::Member { id, generation }
    }
}

// Whether the member with this id may commit offsets in its generation. If it may, its session begins
// anew.
fn commit_of(
    group: &mut Group,
    id: &[u8],
    generation: i32,
    in_transaction: bool,
    now: u64,
) -> Result<(), GroupFault> {
    let Some(number) = group.number_of(id) else {
        return Err(GroupFault::UnknownMember);
    };
    group.commit(number, generation, in_transaction, now)
}

impl<'a, L: Readable, J: Naming, R: Wait + Clock + Drop> Session<'a, L, J, R> {
    // The offsets that a request commits, of partitions that are there.
    fn claimed(&self, topics: &[ClaimedTopic<'_>]) -> Result<Vec<PartitionOffset>, Closed> {
        let kept = self.link.shared.table.lock(self.rt);
        Ok(offsets_of(self.alloc, &kept.topics, topics)?)
    }

    // Why offsets of a transaction aren't committed in a group, if they aren't: a member commits in the
    // present generation alone, and a client that doesn't say which member it is in any.
    fn refusal_in_transaction(
        &self,
        group: GroupId,
        known: &mut KnownGroup,
        by: &Committer<'_>,
        read: u64,
    ) -> Result<Option<ErrorCode>, Closed> {
        self.move_on(group, known, read)?;
        let now = self.now()?;
        Ok(match *by {
            Committer::Anyone => None,
            Committer::Member { id, generation } => {
                match commit_of(&mut known.group, id, generation, true, now) {
                    Ok(()) => None,
                    Err(GroupFault::IllegalGeneration) => Some(ErrorCode::IllegalGeneration),
                    Err(_) => Some(ErrorCode::UnknownMemberId),
                }
            }
        })
    }

    // Offsets that the core is asked to commit, as the guest of the group's generation, which joins if
    // none is there.
    fn commit_as_guest(
        &self,
        group: GroupId,
        known: &mut KnownGroup,
        offsets: Vec<PartitionOffset>,
    ) -> Result<Commit, Closed> {
        self.ensure_guest(group, known)?;
        let Some(guest) = known.guest else {
            return Err(Closed);
        };
        Ok(Commit {
            group,
            member: guest.get(),
            generation: known.generation,
            offsets,
        })
    }

    // Asks the offsets partition to commit, with this producer's pair and sequence, and again while
    // the markers of the transaction before are under way.
    fn ask_to_commit(
        &self,
        txn: TxnId,
        held: &Held,
        first: i32,
        commit: &Commit,
    ) -> Result<OffsetsReply, Closed> {
        let caller = self.caller()?;
        for _ in 0..self.most_asked() {
            let offsets = Vec::from_slice(self.alloc, &commit.offsets)?;
            if offsets.is_empty() || offsets.len() > Offsets::MOST {
                return Err(Closed);
            }
            let message = Message::TxnOffsetCommit(TxnOffsetCommit {
                caller,
                txn,
                group: commit.group,
                member: commit.member,
                generation: commit.generation,
                held: *held,
                first_sequence: first,
                offsets: Offsets::from_vec(offsets),
            });
            let reply = offsets_reply(&self.ask_verified(message)?)?;
            if reply.code != ErrorCode::ConcurrentTransactions {
                return Ok(reply);
            }
            self.pause();
        }
        Err(Closed)
    }

    // Asks the offsets partition to commit offsets of a producer's transaction. If the group's generation
    // ends meanwhile, they are judged again, and the core is asked as the next guest.
    fn ask_to_commit_claim(
        &self,
        txn: TxnId,
        held: &Held,
        first: i32,
        claim: Claim<'_>,
    ) -> Result<ErrorCode, Closed> {
        let Claim {
            group,
            known,
            by,
            offsets,
        } = claim;
        let mut offsets = offsets;
        for _ in 0..self.most_asked() {
            let read = self.now()?;
            let mut group_now = known.lock(self.rt);
            if let Some(code) = self.refusal_in_transaction(group, &mut group_now, &by, read)? {
                return Ok(code);
            }
            let commit = self.commit_as_guest(group, &mut group_now, offsets)?;
            drop(group_now);
            let reply = self.ask_to_commit(txn, held, first, &commit)?;
            if !is_of_another_generation(reply.code) {
                return Ok(reply.code);
            }
            offsets = commit.offsets;
            self.pause();
        }
        Err(Closed)
    }

    // The code of offsets that a producer commits in its transaction: first of the group, whose refusal
    // leaves the transaction as it is, and then of the producer.
    fn commit_in(
        &self,
        producer: &Mutex<Producer>,
        txn: TxnId,
        held: &Held,
        claim: Claim<'_>,
    ) -> Result<ErrorCode, Closed> {
        let Ok(count) = u32::try_from(claim.offsets.len()) else {
            return Err(Closed);
        };
        let read = self.now()?;
        let refusal = self.refusal_in_transaction(
            claim.group,
            &mut claim.known.lock(self.rt),
            &claim.by,
            read,
        )?;
        if let Some(code) = refusal {
            return Ok(code);
        }
        let mut producer = producer.lock(self.rt);
        match producer.offsets(held, count, self.number()) {
            None => Err(Closed),
            Some(BatchVerdict::Refused(code)) => Ok(code),
            Some(BatchVerdict::Send { held, first }) => {
                let code = self.ask_to_commit_claim(txn, &held, first, claim)?;
                Ok(producer.offsets_answered(code))
            }
        }
    }

    // The code for offsets of a transaction, in a group.
    fn txn_commit_code(
        &self,
        request: &TxnCommit<'_>,
        offsets: Vec<PartitionOffset>,
    ) -> Result<i16, Closed> {
        let unknown = ErrorCode::UnknownMemberId.number();
        let Some(group) = group_of(request.group) else {
            return Ok(GroupCode::InvalidGroupId.number());
        };
        let by = request.committer;
        let Some(held) = request.held else {
            return Ok(unknown);
        };
        let Some((txn, producer)) = self.producer_of(request.txn) else {
            return Ok(unknown);
        };
        let known = match self.group_for(group, &by)? {
            Ok(known) => known,
            Err(code) => return Ok(code),
        };
        let claim = Claim {
            group,
            known: &known,
            by,
            offsets,
        };
        let code = self.commit_in(&producer, txn, &held, claim);
        self.link.shared.groups.leave(self.rt, &group);
        Ok(coordinator_code(code?))
    }

    // The code for n offsets, if it doesn't depend on the core.
    fn count_code(&self, count: usize) -> Option<i16> {
        match count {
            0 => Some(0),
            1..=Offsets::MOST => None,
            _ => Some(GroupCode::InvalidCommitOffsetSize.number()),
        }
    }

    /// The response to TxnOffsetCommit.
    pub(crate) fn txn_offset_commit(
        &self,
        asked: &Asked<'_>,
        request: TxnOffsetCommitRequest<'_>,
    ) -> Result<Answer, Closed> {
        let commit = TxnCommit {
            txn: request.transactional_id,
            group: request.group_id,
            held: held_of(request.producer_id, request.producer_epoch),
            committer: committer_of(request.member_id, request.generation_id),
        };
        let topics = txn_claims_of(self.alloc, request.topics)?;
        let offsets = self.claimed(&topics)?;
        let code = match self.count_code(offsets.len()) {
            Some(code) => code,
            None => self.txn_commit_code(&commit, offsets)?,
        };
        let kept = self.link.shared.table.lock(self.rt);
        let frame = txn_commit_frame(self.alloc, &asked.header, &kept.topics, &topics, code)?;
        Ok(Answer::Frame(frame))
    }

    // The transactional id with which the server commits a group's offsets.
    fn own_txn(&self, place: usize) -> Result<TxnId, Closed> {
        let name = format!(in self.alloc; "~offsets/{place}")?;
        match txn_of(name.as_bytes()) {
            Some(txn) => Ok(txn),
            None => Err(Closed),
        }
    }

    // The id and epoch with which the server commits a group's offsets, asked for if there is
    // none.
    fn own_held(&self, txn: TxnId, own: &Option<Held>) -> Result<Option<Held>, Closed> {
        if own.is_some() {
            return Ok(*own);
        }
        let Ok(timeout) = Timeout::try_from(OWN_TIMEOUT) else {
            return Err(Closed);
        };
        let init = TxnInit {
            txn,
            timeout,
            held: None,
        };
        let reply = self.ask_as_newest(&init)?;
        match reply.code {
            ErrorCode::NoError => Ok(reply.held),
            _ => Ok(None),
        }
    }

    // Waits until a partition's committed offset is stable: its transaction's marker is written.
    fn wait_until_stable(&self, group: GroupId, partition: PartitionId) -> Result<(), Closed> {
        for _ in 0..self.most_asked() {
            if self.committed(group, partition, true)?.code != ErrorCode::UnstableOffsetCommit {
                return Ok(());
            }
            self.pause();
        }
        Ok(())
    }

    // Ends the server's own transaction in which offsets were committed, and returns the core's code.
    fn end_own(
        &self,
        own: &mut Option<Held>,
        txn: TxnId,
        held: Held,
        commit: &Commit,
    ) -> Result<ErrorCode, Closed> {
        let reply = self.ask_for_end(EndTxn {
            caller: self.caller()?,
            txn,
            held,
            outcome: Outcome::Commit,
        })?;
        if reply.code != ErrorCode::NoError {
            return Ok(reply.code);
        }
        *own = reply.held;
        if let Some(first) = commit.offsets.first() {
            self.wait_until_stable(commit.group, first.partition)?;
        }
        Ok(reply.code)
    }

    // Commits offsets in a transaction of the server's own. The code for the client: 0 only if the
    // core took the offsets and committed their transaction; none if the generation ended meanwhile.
    // Other commits of the group wait for it; its members don't.
    fn commit_alone(&self, own: &OwnTxn, commit: &Commit) -> Result<Option<i16>, Closed> {
        let txn = self.own_txn(own.place)?;
        let mut own = own.held.lock(self.rt);
        let Some(held) = self.own_held(txn, &own)? else {
            return Ok(Some(GroupCode::CoordinatorNotAvailable.number()));
        };
        // Until the core has answered, it isn't known if the transaction is: the next commit then
        // begins with a new pair, which aborts it.
        *own = None;
        let reply = self.ask_to_commit(txn, &held, 0, commit)?;
        if is_of_another_generation(reply.code) {
            *own = Some(held);
            return Ok(None);
        }
        let end = match reply.code {
            ErrorCode::NoError => Some(self.end_own(&mut own, txn, held, commit)?),
            _ => None,
        };
        Ok(Some(alone_code(reply.code, end)))
    }

    // Why offsets outside of a transaction aren't committed in a group, if they aren't. A client that
    // doesn't say which member it is commits in a group without members alone.
    fn refusal_alone(
        &self,
        known: &mut KnownGroup,
        by: &Committer<'_>,
    ) -> Result<Option<i16>, Closed> {
        let now = self.now()?;
        Ok(match *by {
            Committer::Anyone if known.has_members() => Some(GroupFault::UnknownMember.number()),
            Committer::Anyone => None,
            Committer::Member { id, generation } => {
                match commit_of(&mut known.group, id, generation, false, now) {
                    Ok(()) => None,
                    Err(fault) => Some(fault.number()),
                }
            }
        })
    }

    // The offsets that are to be committed outside of a client's transaction, and the server's own
    // transaction for them; or the code with which they are refused.
    fn begin_commit(
        &self,
        group: GroupId,
        known: &Mutex<KnownGroup>,
        by: &Committer<'_>,
        offsets: Vec<PartitionOffset>,
    ) -> Result<Result<(Commit, Arc<OwnTxn>), i16>, Closed> {
        let read = self.now()?;
        let mut known = known.lock(self.rt);
        self.move_on(group, &mut known, read)?;
        if let Some(code) = self.refusal_alone(&mut known, by)? {
            return Ok(Err(code));
        }
        let Ok(own) = Arc::try_clone(&known.own) else {
            return Err(Closed);
        };
        let commit = self.commit_as_guest(group, &mut known, offsets)?;
        Ok(Ok((commit, own)))
    }

    // The code for offsets outside of a client's transaction, in a group. If the group's generation ends
    // meanwhile, they are judged again, and the core is asked as the next guest.
    fn commit_code_in(
        &self,
        group: GroupId,
        known: &Mutex<KnownGroup>,
        by: &Committer<'_>,
        offsets: Vec<PartitionOffset>,
    ) -> Result<i16, Closed> {
        let mut offsets = offsets;
        for _ in 0..self.most_asked() {
            let (commit, own) = match self.begin_commit(group, known, by, offsets)? {
                Ok(begun) => begun,
                Err(code) => return Ok(code),
            };
            if let Some(code) = self.commit_alone(&own, &commit)? {
                return Ok(code);
            }
            offsets = commit.offsets;
            self.pause();
        }
        Err(Closed)
    }

    // The group in which offsets are committed outside of a client's transaction, for a thread that
    // uses it until it calls `leave`; or the code if it isn't there. A member's group is known.
    fn group_for(
        &self,
        group: GroupId,
        committer: &Committer<'_>,
    ) -> Result<Result<Arc<Mutex<KnownGroup>>, i16>, Closed> {
        match committer {
            Committer::Anyone => Ok(self.enter_group(group)?.ok_or(ASK_AGAIN)),
            Committer::Member { .. } => {
                let known = self.link.shared.groups.enter_known(self.rt, &group);
                Ok(known.ok_or(ErrorCode::UnknownMemberId.number()))
            }
        }
    }

    // The code for offsets outside of a client's transaction.
    fn commit_code(
        &self,
        name: &[u8],
        committer: &Committer<'_>,
        offsets: Vec<PartitionOffset>,
    ) -> Result<i16, Closed> {
        let Some(group) = group_of(name) else {
            return Ok(GroupCode::InvalidGroupId.number());
        };
        let known = match self.group_for(group, committer)? {
            Ok(known) => known,
            Err(code) => return Ok(code),
        };
        let code = self.commit_code_in(group, &known, committer, offsets);
        self.link.shared.groups.leave(self.rt, &group);
        code
    }

    /// The response to OffsetCommit.
    pub(crate) fn offset_commit(
        &self,
        asked: &Asked<'_>,
        request: OffsetCommitRequest<'_>,
    ) -> Result<Answer, Closed> {
        let committer = committer_of(request.member_id, request.generation_id);
        let group = request.group_id;
        let topics = claims_of(self.alloc, request.topics)?;
        let offsets = self.claimed(&topics)?;
        let code = match self.count_code(offsets.len()) {
            Some(code) => code,
            None => self.commit_code(group, &committer, offsets)?,
        };
        let kept = self.link.shared.table.lock(self.rt);
        let frame = commit_frame(self.alloc, &asked.header, &kept.topics, &topics, code)?;
        Ok(Answer::Frame(frame))
    }

    // A group's committed offset of a partition.
    fn committed(
        &self,
        group: GroupId,
        partition: PartitionId,
        stable: bool,
    ) -> Result<OffsetFetchReply, Closed> {
        offset_fetch_reply(&self.ask(Message::OffsetFetch(OffsetFetch {
            caller: self.caller()?,
            group,
            partition,
            stable,
        }))?)
    }

    // The answer to a partition of a topic.
    fn fetched(
        &self,
        group: GroupId,
        stable: bool,
        topic: &[u8],
        index: i32,
    ) -> Result<OffsetFetchPartition<'static>, Closed> {
        match self.partition(topic, index) {
            None => Ok(fetched_offset(index, ErrorCode::UnknownTopicOrPartition, -1)),
            Some(partition) => {
                let reply = self.committed(group, partition, stable)?;
                Ok(fetched_offset(index, reply.code, reply.offset))
            }
        }
    }

    // The answers to a topic's partitions.
    fn fetched_topic<'t>(
        &self,
        group: GroupId,
        stable: bool,
        topic: TopicPartition<'t>,
    ) -> Result<FetchedTopic<'t>, Closed> {
        let name = topic.name;
        let mut answers = Vec::new(self.alloc);
        for asked in topic.partitions {
            answers.push(self.fetched(group, stable, name, asked.value)?)?;
        }
        Ok(FetchedTopic { name, answers })
    }

    // The response to OffsetFetch with these answers.
    fn fetched_frame(
        &self,
        asked: &Asked<'_>,
        topics: &[FetchedTopic<'_>],
        code: i16,
    ) -> Result<Answer, Closed> {
        Ok(Answer::Frame(offset_fetch_frame(self.alloc, &asked.header, topics, code)?))
    }

    // The topics of which a group has committed offsets, with them.
    fn all_fetched<'t>(
        &self,
        names: &'t [(Vec<u8>, u16)],
        group: GroupId,
        stable: bool,
    ) -> Result<Vec<FetchedTopic<'t>>, Closed> {
        let mut topics = Vec::new(self.alloc);
        for (name, count) in names {
            let mut answers = Vec::new(self.alloc);
            for index in 0..*count {
                let answer = self.fetched(group, stable, name, i32::from(index))?;
                if answer.committed_offset >= 0 || answer.error_code != 0 {
                    answers.push(answer)?;
                }
            }
            if !answers.is_empty() {
                topics.push(FetchedTopic {
                    name: name.as_slice(),
                    answers,
                })?;
            }
        }
        Ok(topics)
    }

    // The names of all topics, each with the count of its partitions.
    fn topic_names(&self) -> Result<Vec<(Vec<u8>, u16)>, Closed> {
        let kept = self.link.shared.table.lock(self.rt);
        let mut names = Vec::new(self.alloc);
        for topic in kept.topics.topics() {
            names.push((Vec::from_slice(self.alloc, topic.name())?, topic.count()))?;
        }
        Ok(names)
    }

    /// The response to OffsetFetch: of the partitions that are asked for, or of all that the group
    /// has committed offsets of.
    pub(crate) fn offset_fetch(
        &self,
        asked: &Asked<'_>,
        request: OffsetFetchRequest<'_>,
    ) -> Result<Answer, Closed> {
        let Some(group) = group_of(request.group_id) else {
            return self.fetched_frame(asked, &[], GroupCode::InvalidGroupId.number());
        };
        let stable = request.require_stable;
        let Some(listed) = request.topics else {
            let names = self.topic_names()?;
            let topics = self.all_fetched(&names, group, stable)?;
            return self.fetched_frame(asked, topics.as_slice(), 0);
        };
        let mut topics = Vec::new(self.alloc);
        for topic in listed {
            topics.push(self.fetched_topic(group, stable, topic)?)?;
        }
        self.fetched_frame(asked, topics.as_slice(), 0)
    }
}
