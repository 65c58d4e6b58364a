//! The members of consumer groups: JoinGroup, SyncGroup, Heartbeat and LeaveGroup.
//!
//! A group's generation is the core's. The core counts one member of it, a guest of the server's, in
//! whose name all offsets are committed: when a rebalance is complete the guest of before leaves, and
//! another joins, so that the generation that it is answered is the group's, and offsets of an
//! earlier one are refused. Who is a member is kept here. A group that nobody is left in has no guest
//! either, and is forgotten.
use crate::absent::{ASK_AGAIN, Absent};
use crate::answering::{Answer, Asked, Session};
use crate::closed::Closed;
use crate::groups::KnownGroup;
use crate::replies::{join_reply, leave_reply};
use kx_group_gateway::{
    GroupCode, generation_in, group_of, heartbeat_frame, join_frame, leave_frame,
    refused_join_frame, sync_frame,
};
use kx_kafka::{
    Array, HeartbeatRequest, JoinGroupMember, JoinGroupRequest, LeaveGroupRequest,
    SyncGroupAssignment, SyncGroupRequest,
};
use kx_membership::{
    Assignment, Assignments, Group, GroupFault, JoinAsk, Joined, MOST_MEMBERS, Protocol, Protocols,
    member_id,
};
use kx_message::{Bytes, Caller, ClientId, ErrorCode, GroupId, Join, Leave, Message};
use kx_notices::Shortage;
use kx_published::book::Naming;
use kx_publishing::Readable;
use std::sync::{Arc, Mutex, Wait};
use std::time::{Clock, Duration};

// How many protocols of a member are looked at. Stock clients have two or three.
const MOST_PROTOCOLS: usize = 16;

// The messages by which the core is told of a guest: each has a number of its own.
const JOINS: u32 = 0;

const LEAVES: u32 = 1;

// How many numbers a guest tries at most: the core refuses one that left the group before.
const MOST_GUESTS: usize = 16;

// How many other groups are looked after at most for a client that asks for one more.
const MOST_TENDED: usize = 64;

// How long one waits at most for a group in which nothing is due, in milliseconds.
const LONGEST_WAIT: u64 = 3_600_000;

// What becomes of a request that may have to wait for its group.
#[derive(Drop)]
enum Look {
    Answered(Answer),
    // for the group to move on, or for this long
    Waits(Duration),
}

// How long it is until something is due in a group.
fn until_due(group: &Group, now: u64) -> Duration {
    let millis = match group.next_time() {
        None => LONGEST_WAIT,
        Some(time) => time.saturating_sub(now).min(LONGEST_WAIT),
    };
    Duration::from_millis(millis)
}

impl<'a, L: Readable, J: Naming, R: Wait + Clock + Drop> Session<'a, L, J, R> {
    /// The time of the server's clock, in milliseconds.
    pub(crate) fn now(&self) -> Result<u64, Closed> {
        let Some(begun) = &self.link.shared.begun else {
            return Err(Closed);
        };
        match begun.elapsed(self.rt) {
            Ok(passed) => Ok(u64::try_from(passed.as_millis()).unwrap_or(u64::MAX)),
            Err(_) => Err(Closed),
        }
    }

    // Asks the core in the name of another client.
    fn ask_as(&self, client: ClientId, message: Message) -> Result<Message, Closed> {
        self.hub.speaks(client, &self.link.peer)?;
        let reply = self.ask(message);
        self.hub.forget_client(client);
        reply
    }

    // Tells the core that a guest leaves. One that the core doesn't count has left before.
    fn tell_leave(&self, group: GroupId, member: ClientId) -> Result<(), Closed> {
        let caller = Caller {
            client: member,
            correlation: LEAVES,
        };
        let leave = Leave { caller, group };
        let reply = leave_reply(&self.ask_as(member, Message::Leave(leave))?)?;
        match reply.code {
            ErrorCode::NoError | ErrorCode::UnknownMemberId => Ok(()),
            _ => Err(Closed),
        }
    }

    // Tells the core that a guest joins, and returns the group's generation. None if the core refuses
    // it, as it does a number that left the group before.
    fn tell_join(&self, group: GroupId, member: ClientId) -> Result<Option<i32>, Closed> {
        let caller = Caller {
            client: member,
            correlation: JOINS,
        };
        let join = Join { caller, group };
        let reply = join_reply(&self.ask_as(member, Message::Join(join))?)?;
        match reply.code {
            ErrorCode::NoError | ErrorCode::UnknownMemberId => Ok(generation_in(&reply)),
            _ => Err(Closed),
        }
    }

    // The guest leaves, if one is there.
    fn dismiss_guest(&self, id: GroupId, known: &mut KnownGroup) -> Result<(), Closed> {
        if let Some(guest) = known.guest {
            self.tell_leave(id, guest)?;
            known.guest = None;
        }
        Ok(())
    }

    // A guest joins, and what it is answered is the group's generation.
    fn invite_guest(&self, id: GroupId, known: &mut KnownGroup) -> Result<(), Closed> {
        for _ in 0..MOST_GUESTS {
            let Some(guest) = self.link.shared.numbers.take(self.rt) else {
                return Err(Closed);
            };
            if let Some(generation) = self.tell_join(id, guest)? {
                known.generation = generation;
                known.guest = Some(guest);
                return Ok(());
            }
        }
        Err(Closed)
    }

    /// Has a guest join, if none is there.
    pub(crate) fn ensure_guest(&self, id: GroupId, known: &mut KnownGroup) -> Result<(), Closed> {
        match known.guest {
            Some(_) => Ok(()),
            None => self.invite_guest(id, known),
        }
    }

    // Begins the next generation at the core. If nobody is left, there is no guest either.
    fn begin_generation(&self, id: GroupId, known: &mut KnownGroup) -> Result<(), Closed> {
        self.dismiss_guest(id, known)?;
        if known.has_members() {
            self.invite_guest(id, known)?;
        }
        Ok(())
    }

    /// Does what is due: members that are late are gone, and after a rebalance that is complete the next
    /// generation begins. Who waits for that is woken. Sessions are over that ended by the time at
    /// which the request was read, so that nobody's ends while it waits for the group.
    pub(crate) fn move_on(
        &self,
        id: GroupId,
        known: &mut KnownGroup,
        read: u64,
    ) -> Result<(), Closed> {
        let now = self.now()?;
        if known.group.next_time().is_some_and(|time| time <= now) {
            known.wake(self.rt);
        }
        known.group.tick(read);
        if !known.group.due(now) {
            return Ok(());
        }
        self.begin_generation(id, known)?;
        known
            .group
            .settle(self.alloc, known.generation, self.now()?)?;
        Ok(())
    }

    // What a client says when it joins. Of its protocols the first are looked at.
    fn join_ask(&self, request: JoinGroupRequest<'_>) -> Result<JoinAsk, Closed> {
        let mut protocols = Vec::new(self.alloc);
        for protocol in request.protocols.take(MOST_PROTOCOLS) {
            protocols.push(Protocol {
                name: Bytes::from_vec(Vec::from_slice(self.alloc, protocol.name)?),
                metadata: Bytes::from_vec(Vec::from_slice(self.alloc, protocol.metadata)?),
            })?;
        }
        let session = request.session_timeout_ms;
        Ok(JoinAsk {
            session_timeout: session,
            rebalance_timeout: match request.rebalance_timeout_ms {
                -1 => session,
                timeout => timeout,
            },
            protocol_type: Bytes::from_vec(Vec::from_slice(self.alloc, request.protocol_type)?),
            protocols: Protocols::from_vec(protocols),
        })
    }

    // A client joins that is no member yet.
    fn join_new(
        &self,
        known: &mut KnownGroup,
        client_id: &[u8],
        ask: JoinAsk,
    ) -> Result<Result<ClientId, GroupFault>, Closed> {
        let numbers = &self.link.shared.numbers;
        let Some(number) = numbers.take(self.rt) else {
            return Err(Closed);
        };
        let id = member_id(self.alloc, client_id, number)?;
        let joined = known
            .group
            .join_new(number, Bytes::from_vec(id), ask, self.now()?);
        match joined {
            Ok(()) => Ok(Ok(number)),
            Err(fault) => {
                numbers.give_back(self.rt, number);
                Ok(Err(fault))
            }
        }
    }

    // A member joins again.
    fn join_again(
        &self,
        known: &mut KnownGroup,
        id: &[u8],
        ask: JoinAsk,
    ) -> Result<Result<ClientId, GroupFault>, Closed> {
        let Some(number) = known.group.number_of(id) else {
            return Ok(Err(GroupFault::UnknownMember));
        };
        if let Err(fault) = known.group.join_again(number, ask, self.now()?) {
            return Ok(Err(fault));
        }
        Ok(Ok(number))
    }

    // The response to a JoinGroup that is refused.
    fn refuse_join(&self, asked: &Asked<'_>, code: i16, id: &[u8]) -> Result<Answer, Closed> {
        Ok(Answer::Frame(refused_join_frame(self.alloc, &asked.header, code, id)?))
    }

    // The response to a JoinGroup of a member. The leader is told all members.
    fn joined(
        &self,
        asked: &Asked<'_>,
        known: &KnownGroup,
        number: ClientId,
        joined: Joined,
    ) -> Result<Answer, Closed> {
        let mut members = Vec::new(self.alloc);
        if joined.is_leader {
            for place in 0..MOST_MEMBERS {
                if let Some(member) = known.group.number_at(place) {
                    members.push(JoinGroupMember {
                        member_id: known.group.id_of(member),
                        metadata: known.group.metadata_of(member),
                    })?;
                }
            }
        }
        let frame = join_frame(
            self.alloc,
            &asked.header,
            joined.generation,
            known.group.protocol(),
            known.group.id_of(joined.leader),
            known.group.id_of(number),
            members.as_slice(),
        )?;
        Ok(Answer::Frame(frame))
    }

    // Has this connection be woken when a group moves on, and says how long it waits at most.
    fn watch_group(&self, known: &mut KnownGroup) -> Result<Look, Closed> {
        let waker = Arc::try_clone(&self.link.waker)?;
        known.watch(self.link.peer.number(), waker)?;
        Ok(Look::Waits(until_due(&known.group, self.now()?)))
    }

    // The answer to a member's JoinGroup, if there is one.
    fn look_joined(
        &self,
        asked: &Asked<'_>,
        id: GroupId,
        known: &Mutex<KnownGroup>,
        number: ClientId,
    ) -> Result<Look, Closed> {
        let read = self.now()?;
        let mut known = known.lock(self.rt);
        self.move_on(id, &mut known, read)?;
        match known.group.joined(number) {
            None => self.watch_group(&mut known),
            Some(Ok(joined)) => Ok(Look::Answered(self.joined(asked, &known, number, joined)?)),
            Some(Err(fault)) => Ok(Look::Answered(self.refuse_join(asked, fault.number(), &[])?)),
        }
    }

    // Ends the wait of a member whose connection has ended.
    fn stay_open(&self, known: &Mutex<KnownGroup>, number: ClientId) -> Result<(), Closed> {
        if self.link.inbox.is_open(self.rt) {
            return Ok(());
        }
        let now = self.now()?;
        let mut known = known.lock(self.rt);
        known.group.end_wait(number, now);
        known.wake(self.rt);
        Err(Closed)
    }

    // Waits for the answer to a member's JoinGroup.
    fn wait_joined(
        &self,
        asked: &Asked<'_>,
        id: GroupId,
        known: &Mutex<KnownGroup>,
        number: ClientId,
    ) -> Result<Answer, Closed> {
        for _ in self.rt.forever() {
            self.link.waker.reset(self.rt);
            match self.look_joined(asked, id, known, number)? {
                Look::Answered(answer) => return Ok(answer),
                Look::Waits(patience) => {
                    self.stay_open(known, number)?;
                    self.link.waker.wait(self.rt, patience);
                }
            }
        }
        Err(Closed)
    }

    // Begins the JoinGroup of a client. Members that wait for what is assigned are woken if it has all
    // join again.
    fn begin_join(
        &self,
        asked: &Asked<'_>,
        id: GroupId,
        known: &Mutex<KnownGroup>,
        member: &[u8],
        ask: JoinAsk,
    ) -> Result<Result<ClientId, GroupFault>, Closed> {
        let read = self.now()?;
        let mut known = known.lock(self.rt);
        self.move_on(id, &mut known, read)?;
        if !known.group.is_preparing() {
            known.wake(self.rt);
        }
        if member.is_empty() {
            let client_id = asked.header.client_id.unwrap_or(b"");
            self.join_new(&mut known, client_id, ask)
        } else {
            self.join_again(&mut known, member, ask)
        }
    }

    // The response to the JoinGroup of a client in a group.
    fn join_in(
        &self,
        asked: &Asked<'_>,
        id: GroupId,
        known: &Mutex<KnownGroup>,
        member: &[u8],
        ask: JoinAsk,
    ) -> Result<Answer, Closed> {
        match self.begin_join(asked, id, known, member, ask)? {
            Ok(number) => self.wait_joined(asked, id, known, number),
            Err(fault) => self.refuse_join(asked, fault.number(), member),
        }
    }

    // Does what is due in a group that nobody used. If it has no members, its guest leaves.
    fn tend(&self, id: GroupId, known: &Mutex<KnownGroup>) -> Result<(), Closed> {
        let read = self.now()?;
        let mut known = known.lock(self.rt);
        self.move_on(id, &mut known, read)?;
        if !known.has_members() {
            self.dismiss_guest(id, &mut known)?;
        }
        Ok(())
    }

    // Does what is due in one group, which may be forgotten then. Says whether there is such a group.
    fn tend_one(&self) -> Result<bool, Closed> {
        let groups = &self.link.shared.groups;
        let Some((id, known)) = groups.enter_due(self.rt, self.now()?) else {
            return Ok(false);
        };
        let tended = self.tend(id, &known);
        groups.leave(self.rt, &id);
        tended?;
        Ok(true)
    }

    // The group of this name, which is known from now on. While there are as many groups as may be,
    // others are looked after, of which some may be forgotten. None if there are as many still.
    fn enter_or_tend(&self, id: GroupId) -> Result<Option<Arc<Mutex<KnownGroup>>>, Closed> {
        for _ in 0..MOST_TENDED {
            match self.link.shared.groups.enter(self.rt, id) {
                Ok(known) => return Ok(Some(known)),
                Err(Absent::Memory) => return Err(Closed),
                Err(Absent::Full) => {}
            }
            if !self.tend_one()? {
                return Ok(None);
            }
        }
        Ok(None)
    }

    /// The group of this name, which is known from now on, for a thread that uses it until it calls
    /// `leave`. None if as many groups are kept as may be: the client is to ask again.
    pub(crate) fn enter_group(
        &self,
        id: GroupId,
    ) -> Result<Option<Arc<Mutex<KnownGroup>>>, Closed> {
        let known = self.enter_or_tend(id)?;
        if known.is_none() && self.link.shared.groups.is_full_anew(self.rt) {
            self.hub.notices().ran_out(self.rt, Shortage::Groups);
        }
        Ok(known)
    }

    // The response to the JoinGroup of a client that is no member yet.
    fn join_as_new(&self, asked: &Asked<'_>, id: GroupId, ask: JoinAsk) -> Result<Answer, Closed> {
        let Some(known) = self.enter_group(id)? else {
            return self.refuse_join(asked, ASK_AGAIN, &[]);
        };
        let answer = self.join_in(asked, id, &known, &[], ask);
        self.link.shared.groups.leave(self.rt, &id);
        answer
    }

    // The response to the JoinGroup of a client that says that it is a member.
    fn join_as_member(
        &self,
        asked: &Asked<'_>,
        id: GroupId,
        member: &[u8],
        ask: JoinAsk,
    ) -> Result<Answer, Closed> {
        let Some(known) = self.link.shared.groups.enter_known(self.rt, &id) else {
            return self.refuse_join(asked, GroupFault::UnknownMember.number(), member);
        };
        let answer = self.join_in(asked, id, &known, member, ask);
        self.link.shared.groups.leave(self.rt, &id);
        answer
    }

    /// The response to JoinGroup, which waits until all members have joined, or those that have not
    /// are gone.
    pub(crate) fn join_group(
        &self,
        asked: &Asked<'_>,
        request: JoinGroupRequest<'_>,
    ) -> Result<Answer, Closed> {
        let member = request.member_id;
        let Some(id) = group_of(request.group_id) else {
            return self.refuse_join(asked, GroupCode::InvalidGroupId.number(), member);
        };
        let ask = self.join_ask(request)?;
        if member.is_empty() {
            self.join_as_new(asked, id, ask)
        } else {
            self.join_as_member(asked, id, member, ask)
        }
    }

    // What a leader assigns. What it assigns to ids that no member has is left out.
    fn assignments(
        &self,
        group: &Group,
        assigned: Array<SyncGroupAssignment<'_>>,
    ) -> Result<Assignments, Closed> {
        let mut assignments = Vec::new(self.alloc);
        for assigned in assigned {
            if let Some(member) = group.number_of(assigned.member_id) {
                assignments.push(Assignment {
                    member,
                    bytes: Bytes::from_vec(Vec::from_slice(self.alloc, assigned.assignment)?),
                })?;
            }
        }
        Ok(Assignments::from_vec(assignments))
    }

    // The response to a SyncGroup, with this code and assignment.
    fn synced(&self, asked: &Asked<'_>, code: i16, assignment: &[u8]) -> Result<Answer, Closed> {
        Ok(Answer::Frame(sync_frame(self.alloc, &asked.header, code, assignment)?))
    }

    // The answer to a member's SyncGroup, if there is one.
    fn look_synced(
        &self,
        asked: &Asked<'_>,
        id: GroupId,
        known: &Mutex<KnownGroup>,
        number: ClientId,
        generation: i32,
    ) -> Result<Look, Closed> {
        let read = self.now()?;
        let mut known = known.lock(self.rt);
        self.move_on(id, &mut known, read)?;
        match known.group.synced(number, generation) {
            None => self.watch_group(&mut known),
            Some(Ok(assignment)) => Ok(Look::Answered(self.synced(asked, 0, assignment)?)),
            Some(Err(fault)) => Ok(Look::Answered(self.synced(asked, fault.number(), &[])?)),
        }
    }

    // Begins the SyncGroup of a member, and returns its number. Once the leader has assigned, those
    // that wait for that are woken.
    fn begin_sync(
        &self,
        id: GroupId,
        known: &Mutex<KnownGroup>,
        request: SyncGroupRequest<'_>,
    ) -> Result<Result<ClientId, GroupFault>, Closed> {
        let read = self.now()?;
        let mut known = known.lock(self.rt);
        self.move_on(id, &mut known, read)?;
        let Some(number) = known.group.number_of(request.member_id) else {
            return Ok(Err(GroupFault::UnknownMember));
        };
        let generation = request.generation_id;
        let assignments = self.assignments(&known.group, request.assignments)?;
        let begun = known
            .group
            .sync(number, generation, assignments, self.now()?);
        if known.group.synced(number, generation).is_some() {
            known.wake(self.rt);
        }
        match begun {
            Ok(()) => Ok(Ok(number)),
            Err(fault) => Ok(Err(fault)),
        }
    }

    // Waits for what is assigned to a member.
    fn wait_synced(
        &self,
        asked: &Asked<'_>,
        id: GroupId,
        known: &Mutex<KnownGroup>,
        number: ClientId,
        generation: i32,
    ) -> Result<Answer, Closed> {
        for _ in self.rt.forever() {
            self.link.waker.reset(self.rt);
            match self.look_synced(asked, id, known, number, generation)? {
                Look::Answered(answer) => return Ok(answer),
                Look::Waits(patience) => {
                    self.stay_open(known, number)?;
                    self.link.waker.wait(self.rt, patience);
                }
            }
        }
        Err(Closed)
    }

    // The response to the SyncGroup of a member of a group.
    fn sync_in(
        &self,
        asked: &Asked<'_>,
        id: GroupId,
        known: &Mutex<KnownGroup>,
        request: SyncGroupRequest<'_>,
    ) -> Result<Answer, Closed> {
        let generation = request.generation_id;
        match self.begin_sync(id, known, request)? {
            Ok(number) => self.wait_synced(asked, id, known, number, generation),
            Err(fault) => self.synced(asked, fault.number(), &[]),
        }
    }

    /// The response to SyncGroup, which waits until the leader has assigned.
    pub(crate) fn sync_group(
        &self,
        asked: &Asked<'_>,
        request: SyncGroupRequest<'_>,
    ) -> Result<Answer, Closed> {
        let Some(id) = group_of(request.group_id) else {
            return self.synced(asked, GroupCode::InvalidGroupId.number(), &[]);
        };
        let Some(known) = self.link.shared.groups.enter_known(self.rt, &id) else {
            return self.synced(asked, GroupFault::UnknownMember.number(), &[]);
        };
        let answer = self.sync_in(asked, id, &known, request);
        self.link.shared.groups.leave(self.rt, &id);
        answer
    }

    // The code for a member of a group that says that it is there.
    fn beat_in(
        &self,
        id: GroupId,
        known: &Mutex<KnownGroup>,
        request: &HeartbeatRequest<'_>,
    ) -> Result<i16, Closed> {
        let read = self.now()?;
        let mut known = known.lock(self.rt);
        self.move_on(id, &mut known, read)?;
        let Some(number) = known.group.number_of(request.member_id) else {
            return Ok(GroupFault::UnknownMember.number());
        };
        let now = self.now()?;
        match known.group.heartbeat(number, request.generation_id, now) {
            Ok(()) => Ok(0),
            Err(fault) => Ok(fault.number()),
        }
    }

    // The code for a client that says that it is there.
    fn beat(&self, request: &HeartbeatRequest<'_>) -> Result<i16, Closed> {
        let Some(id) = group_of(request.group_id) else {
            return Ok(GroupCode::InvalidGroupId.number());
        };
        let Some(known) = self.link.shared.groups.enter_known(self.rt, &id) else {
            return Ok(GroupFault::UnknownMember.number());
        };
        let code = self.beat_in(id, &known, request);
        self.link.shared.groups.leave(self.rt, &id);
        code
    }

    /// The response to Heartbeat.
    pub(crate) fn heartbeat(
        &self,
        asked: &Asked<'_>,
        request: &HeartbeatRequest<'_>,
    ) -> Result<Answer, Closed> {
        let code = self.beat(request)?;
        Ok(Answer::Frame(heartbeat_frame(self.alloc, &asked.header, code)?))
    }

    // The code for a member that leaves a group. Those that wait in the group are woken.
    fn leave_in(
        &self,
        id: GroupId,
        known: &Mutex<KnownGroup>,
        member: &[u8],
    ) -> Result<i16, Closed> {
        let read = self.now()?;
        let mut known = known.lock(self.rt);
        let Some(number) = known.group.number_of(member) else {
            return Ok(GroupFault::UnknownMember.number());
        };
        let left = known.group.leave(number, read);
        known.wake(self.rt);
        self.move_on(id, &mut known, read)?;
        match left {
            Ok(()) => Ok(0),
            Err(fault) => Ok(fault.number()),
        }
    }

    // The code for a client that leaves.
    fn leave(&self, request: &LeaveGroupRequest<'_>) -> Result<i16, Closed> {
        let Some(id) = group_of(request.group_id) else {
            return Ok(GroupCode::InvalidGroupId.number());
        };
        let Some(known) = self.link.shared.groups.enter_known(self.rt, &id) else {
            return Ok(GroupFault::UnknownMember.number());
        };
        let code = self.leave_in(id, &known, request.member_id);
        self.link.shared.groups.leave(self.rt, &id);
        code
    }

    /// The response to LeaveGroup.
    pub(crate) fn leave_group(
        &self,
        asked: &Asked<'_>,
        request: &LeaveGroupRequest<'_>,
    ) -> Result<Answer, Closed> {
        let code = self.leave(request)?;
        Ok(Answer::Frame(leave_frame(self.alloc, &asked.header, code)?))
    }
}
