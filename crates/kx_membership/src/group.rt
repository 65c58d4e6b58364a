//! One consumer group.
ghost use Rattle.std.specs.Prelude.{◌≡◌, None, Some, Ok, Err, IfOk, IsTrue, false, MatchOption};
ghost use Rattle.std.specs.Prelude.{MatchResult};
ghost use Rattle.std.specs.Option.{option_copied, option_map};
ghost use Rattle.std.specs.List.{find, slice_get};
ghost use Rattle.kx_membership.specs.Roster.{has, is_numbered};
ghost use Rattle.kx_membership.specs.Group.{Refuses, after_commit, after_due, after_end};
ghost use Rattle.kx_membership.specs.Group.{after_heartbeat, after_join_again, after_join_new};
ghost use Rattle.kx_membership.specs.Group.{after_leave, commit_fault};
ghost use Rattle.kx_membership.specs.Group.{after_settle, after_sync, after_tick, again_refusal, asks};
ghost use Rattle.kx_membership.specs.Group.{due_time, fence, fits, is_lost, is_past, is_ready};
ghost use Rattle.kx_membership.specs.Group.{id_of, is_preparing, joined_of, leads, left};
ghost use Rattle.kx_membership.specs.Group.{metadata_of, must_wait, new_at, new_group, next_of};
ghost use Rattle.kx_membership.specs.Group.{new_refusal, number_of, prepared, protocol_by};
ghost use Rattle.kx_membership.specs.Group.{refusal_of, sooner, synced_of, takes};

use crate::ask::{Assignments, JoinAsk, Protocols, named};
use crate::fault::GroupFault;
use crate::member::{
    Going, Member, any_goes, find, find_id, has, has_others, has_same, led_by, longest,
};
use crate::roster::Roster;
use crate::votes::{chosen_by, common_of};
use kx_message::{Bytes, ClientId};
use std::alloc::{AllocError, Global};

/// How many members a group has at most.
pub const MOST_MEMBERS: usize = 1000;

// The longest session timeout, half an hour.
const LONGEST_SESSION: i32 = 1_800_000;

// How far a group is.
#[derive(Clone, Copy)]
pub(crate) enum Phase {
    // It has no members.
    Empty,
    // Its members have to join again until this time.
    Preparing(u64),
    // They have joined, and the leader's assignments are missing.
    Completing,
    // The leader has assigned.
    Stable,
}

/// The answer to a JoinGroup.
#[derive(Clone, Copy)]
pub struct Joined {
    /// The group's generation.
    pub generation: i32,
    /// The number of the member that leads the group.
    pub leader: ClientId,
    /// Whether the member that asked leads it: it is to be told all members with their metadata.
    pub is_leader: bool,
}

/// One consumer group of stock clients: who is a member, and how far it is.
///
/// A member is known by its number in the core, which never comes back. It is in one of four
/// phases: *empty*; *preparing*, until all members have joined again or a deadline has passed;
/// *completing*, until the leader has assigned; *stable*.
#[derive(Drop)]
pub struct Group {
    phase: Phase,
    generation: i32,
    protocol_type: Bytes,
    protocol: Bytes,
    leader: Option<ClientId>,
    roster: Roster,
    assignments: Assignments,
}

impl Group {
    /// A group of no members, of which the core counts nobody.
    pub fn new(alloc: Global) -> Group
        ensures { result ≡ new_group }
    {
        Group {
            phase: Phase::Empty,
            generation: 0,
            protocol_type: Bytes::from_vec(Vec::new(alloc)),
            protocol: Bytes::from_vec(Vec::new(alloc)),
            leader: None,
            roster: Roster::new(alloc),
            assignments: Assignments::none(alloc),
        }
    }

    // Whether the member leads the group.
    fn leads(&self, number: ClientId) -> bool
        ensures { result ≡ leads self.now number }
    {
        match self.leader {
            None => false,
            Some(leader) => leader == number,
        }
    }

    // Whether what a client offers fits the other members.
    fn fits(&self, number: ClientId, ask: &JoinAsk) -> bool
        ensures { result ≡ fits self.now number ask.now }
    {
        let members = self.roster.members();
        !ask.protocol_type.as_slice().is_empty()
            && (!has_others(members, number) || ask.protocol_type == self.protocol_type)
            && common_of(ask.protocols.as_slice(), number, members).is_some()
    }

    // Why a JoinGroup is refused by what it says.
    fn refusal(&self, number: ClientId, ask: &JoinAsk) -> Option<GroupFault>
        ensures { result ≡ refusal_of self.now number ask.now }
    {
        if ask.session_timeout < 1 || ask.session_timeout > LONGEST_SESSION {
            return Some(GroupFault::InvalidSessionTimeout);
        }
        if self.fits(number, ask) {
            None
        } else {
            Some(GroupFault::InconsistentProtocol)
        }
    }

    // Why a client that is no member yet can't join.
    fn new_refusal(&self, number: ClientId, ask: &JoinAsk) -> Option<GroupFault>
        ensures { result ≡ new_refusal self.now number ask.now }
    {
        if has(self.roster.members(), number) || self.roster.gone().contains(&number) {
            return Some(GroupFault::UnknownMember);
        }
        if let Some(fault) = self.refusal(number, ask) {
            return Some(fault);
        }
        if self.roster.members().len() >= MOST_MEMBERS {
            return Some(GroupFault::GroupFull);
        }
        None
    }

    // The phase in which all members have to join again, within the greatest of their rebalance
    // timeouts.
    fn preparing(&self, now: u64) -> Phase
        ensures { result ≡ (prepared now self.now).phase }
    {
        let members = self.roster.members();
        if members.is_empty() {
            return Phase::Empty;
        }
        match self.phase {
            Phase::Preparing(until) => Phase::Preparing(until),
            Phase::Empty | Phase::Completing | Phase::Stable => {
                Phase::Preparing(now.saturating_add(longest(members)))
            }
        }
    }

    // With members, all have to join again; who waits for what is assigned is told so.
    fn prepare(&mut self, now: u64)
        ensures { self.new ≡ prepared now self.old }
    {
        let next = self.preparing(now);
        if let Phase::Completing = self.phase {
            self.roster.wake(now);
        }
        self.phase = next;
    }

    // Members go, and the others have to join again.
    fn part(&mut self, going: Going, now: u64)
        ensures { self.new ≡ left going now self.old }
    {
        self.roster.part(going);
        self.prepare(now);
    }

    /// A client joins that is no member yet, with a number that is the core's, and an id by which it
    /// names itself from now on. Its join waits for the other members, which have to join again until
    /// a deadline: the greatest of all members' rebalance timeouts from now on, unless one runs
    /// already.
    ///
    /// # Errors
    ///
    /// The first that fits, and then nothing changes: [`GroupFault::UnknownMember`] if the
    /// number is that of a member or of one gone that the core still counts;
    /// [`GroupFault::InvalidSessionTimeout`]; [`GroupFault::InconsistentProtocol`];
    /// [`GroupFault::GroupFull`] with [`MOST_MEMBERS`] members; [`GroupFault::Memory`].
    pub fn join_new(
        &mut self,
        number: ClientId,
        id: Bytes,
        ask: JoinAsk,
        now: u64,
    ) -> Result<(), GroupFault>
        ensures { MatchResult result
            (λ done. (new_refusal self.old number ask ≡ None)
            × (self.new ≡ after_join_new self.old number id ask now))
            (λ fault. Refuses (new_refusal self.old number ask) fault
            × (self.new ≡ self.old)) }
    {
        if let Some(fault) = self.new_refusal(number, &ask) {
            return Err(fault);
        }
        let (member, protocol_type) = Member::joining(number, id, ask, now);
        self.roster.push(member)?;
        self.protocol_type = protocol_type;
        self.prepare(now);
        Ok(())
    }

    // Whether the JoinGroup of a member that offers these protocols has to wait.
    fn must_wait(&self, number: ClientId, protocols: &Protocols) -> bool
        ensures { result ≡ must_wait self.now number protocols.now }
    {
        let is_same = has_same(self.roster.members(), number, protocols);
        match self.phase {
            Phase::Completing => !is_same,
            Phase::Stable => self.leads(number) || !is_same,
            Phase::Empty | Phase::Preparing(_) => true,
        }
    }

    // Why the JoinGroup of a member is refused.
    fn again_refusal(&self, number: ClientId, ask: &JoinAsk) -> Option<GroupFault>
        ensures { result ≡ again_refusal self.now number ask.now }
    {
        if has(self.roster.members(), number) {
            self.refusal(number, ask)
        } else {
            Some(GroupFault::UnknownMember)
        }
    }

    /// A member joins again: its timeouts and protocols are those that it says now, and its session
    /// begins anew. It is answered at once if the group need not change for it: if the leader's
    /// assignments are missing, if it offers what it did before; if the leader has assigned,
    /// then too, unless it is the leader. Else its join waits, as in [`Group::join_new`].
    ///
    /// # Errors
    ///
    /// The first that fits, and then nothing changes: [`GroupFault::UnknownMember`],
    /// [`GroupFault::InvalidSessionTimeout`], [`GroupFault::InconsistentProtocol`].
    pub fn join_again(&mut self, number: ClientId, ask: JoinAsk, now: u64) -> Result<(), GroupFault>
        ensures { MatchResult result
            (λ done. (again_refusal self.old number ask ≡ None)
            × (self.new ≡ after_join_again self.old number ask now))
            (λ fault. (again_refusal self.old number ask ≡ Some fault)
            × (self.new ≡ self.old)) }
    {
        if let Some(fault) = self.again_refusal(number, &ask) {
            return Err(fault);
        }
        let waits = self.must_wait(number, &ask.protocols);
        self.protocol_type = self.roster.renew(number, ask, waits, now);
        if waits {
            self.prepare(now);
        }
        Ok(())
    }

    /// The answer to the JoinGroup of this number, once there is one: None while it waits, and
    /// [`GroupFault::UnknownMember`] if it is no member any more. The leader is told each member,
    /// by [`Group::number_at`] and [`Group::metadata_of`], and all are told [`Group::protocol`].
    pub fn joined(&self, number: ClientId) -> Option<Result<Joined, GroupFault>>
        ensures { result ≡ joined_of self.now number }
    {
        let Some(member) = find(self.roster.members(), number) else {
            return Some(Err(GroupFault::UnknownMember));
        };
        if member.waits {
            return None;
        }
        let leader = self.leader?;
        Some(Ok(Joined {
            generation: self.generation,
            leader,
            is_leader: leader == number,
        }))
    }

    /// The name of the protocol that was chosen when the group was settled: that for which most
    /// members vote, each for the first of its own that all offer; of several what the leader votes
    /// for, else what the member votes for that joined first.
    pub fn protocol(&self) -> &[u8]
        ensures { result.now ≡ self.now.protocol }
    {
        self.protocol.as_slice()
    }

    /// The number of the member at this place, in joining order from 0 on; None behind the last.
    pub fn number_at(&self, place: usize) -> Option<ClientId>
        ensures { result ≡ option_map (λ m. m.number) (slice_get self.now.roster.members place) }
    {
        let member = self.roster.members().get(place)?;
        Some(member.number)
    }

    /// The number of the member with this id, compared whole. None if no member has it.
    pub fn number_of(&self, id: &[u8]) -> Option<ClientId>
        ensures { result ≡ number_of self.now id.now }
    {
        let member = find_id(self.roster.members(), id)?;
        Some(member.number)
    }

    /// The id of a member; no bytes if it is no member.
    pub fn id_of(&self, number: ClientId) -> &[u8]
        ensures { result.now ≡ id_of self.now number }
    {
        match find(self.roster.members(), number) {
            None => &[],
            Some(member) => member.id.as_slice(),
        }
    }

    /// What a member says under the protocol that was chosen; no bytes if it is no member.
    pub fn metadata_of(&self, number: ClientId) -> &[u8]
        ensures { result.now ≡ metadata_of self.now number }
    {
        match find(self.roster.members(), number) {
            None => &[],
            Some(member) => {
                match named(self.protocol.as_slice(), member.protocols.as_slice()) {
                    None => &[],
                    Some(protocol) => protocol.metadata.as_slice(),
                }
            }
        }
    }

    // Whether all members have joined, or nobody is left and the core is to be told.
    fn is_ready(&self) -> bool
        ensures { result ≡ is_ready self.now }
    {
        match self.phase {
            Phase::Empty => !self.roster.gone().is_empty(),
            Phase::Preparing(_) => !any_goes(self.roster.members(), &Going::Silent),
            Phase::Completing | Phase::Stable => false,
        }
    }

    // Whether the deadline of those that have to join again has passed.
    fn is_past(&self, now: u64) -> bool
        ensures { result ≡ is_past self.now.phase now }
    {
        match self.phase {
            Phase::Preparing(until) => until <= now,
            Phase::Empty | Phase::Completing | Phase::Stable => false,
        }
    }

    /// Whether the core is to be told of the group's members now: all members have joined, or
    /// nobody is left and the core still counts some. Members that haven't joined by the deadline
    /// are gone. If so the caller tells the core of [`Group::gone`] and [`Group::new_at`], and makes
    /// no other step of the group until it is settled.
    pub fn due(&mut self, now: u64) -> bool
        ensures answered { result ≡ is_ready (after_due self.old now) }
        ensures noted { self.new ≡ after_due self.old now }
    {
        if self.is_past(now) {
            self.part(Going::Silent, now);
        }
        self.is_ready()
    }

    /// Whether all members have to join again: a JoinGroup waits, and until the group is settled no
    /// other JoinGroup has it move on.
    pub fn is_preparing(&self) -> bool
        ensures { result ≡ is_preparing self.now.phase }
    {
        matches!(self.phase, Phase::Preparing(_))
    }

    /// The numbers of those gone that the core still counts: it is told that they leave.
    pub fn gone(&self) -> &[ClientId]
        ensures { result.now ≡ self.now.roster.gone }
    {
        self.roster.gone()
    }

    /// The number of the member at this place, if the core doesn't count it yet: it is told that
    /// the member joins.
    pub fn new_at(&self, place: usize) -> Option<ClientId>
        ensures { result ≡ new_at self.now place }
    {
        let member = self.roster.members().get(place)?;
        if member.is_counted {
            return None;
        }
        Some(member.number)
    }

    /// The core was told who left and who joined, and answered this generation, which is the
    /// group's from now on. No join waits any more, sessions begin anew, nothing is assigned yet;
    /// the leader leads on if it is there, else the first member leads. Nothing changes unless the
    /// group is due.
    ///
    /// # Errors
    ///
    /// Only if memory runs out, and then nothing changes: the group may be settled with this
    /// generation again.
    pub fn settle(&mut self, alloc: Global, generation: i32, now: u64) -> Result<(), AllocError>
        ensures { MatchResult result (λ done. self.new ≡ after_settle self.old generation now)
            (λ err. self.new ≡ self.old) }
    {
        if !self.is_ready() {
            return Ok(());
        }
        let members = self.roster.members();
        let leader = led_by(members, self.leader);
        let protocol = protocol_by(alloc, leader, members)?;
        let protocol = Vec::from_slice(alloc, protocol)?;
        self.phase = if members.is_empty() {
            Phase::Empty
        } else {
            Phase::Completing
        };
        self.generation = generation;
        self.leader = number_of(leader);
        self.protocol = Bytes::from_vec(protocol);
        self.assignments = Assignments::none(alloc);
        self.roster.settle(now);
        Ok(())
    }

    // Why a request of a member is refused that says its generation.
    fn fence(&self, number: ClientId, generation: i32) -> Option<GroupFault>
        ensures { result ≡ fence self.now number generation }
    {
        if !has(self.roster.members(), number) {
            return Some(GroupFault::UnknownMember);
        }
        if self.generation != generation {
            return Some(GroupFault::IllegalGeneration);
        }
        match self.phase {
            Phase::Preparing(_) => Some(GroupFault::RebalanceInProgress),
            Phase::Empty | Phase::Completing | Phase::Stable => None,
        }
    }

    /// A member of the group's generation says that it is there: its session begins anew.
    ///
    /// # Errors
    ///
    /// The first that fits: [`GroupFault::UnknownMember`] and [`GroupFault::IllegalGeneration`],
    /// which leave all as before; [`GroupFault::RebalanceInProgress`] while members are joining.
    pub fn heartbeat(
        &mut self,
        number: ClientId,
        generation: i32,
        now: u64,
    ) -> Result<(), GroupFault>
        ensures answered { MatchResult result (λ done. fence self.old number generation ≡ None)
            (λ fault. fence self.old number generation ≡ Some fault) }
        ensures noted { self.new ≡ after_heartbeat self.old number generation now }
    {
        let fault = self.fence(number, generation);
        if has(self.roster.members(), number) && self.generation == generation {
            self.roster.hear(number, now);
        }
        match fault {
            None => Ok(()),
            Some(fault) => Err(fault),
        }
    }

    // Whether the leader's assignments are missing, and these are its.
    fn takes(&self, number: ClientId, generation: i32) -> bool
        ensures { result ≡ takes self.now number generation }
    {
        has(self.roster.members(), number)
            && self.generation == generation
            && matches!(self.phase, Phase::Completing)
            && self.leads(number)
    }

    // Whether the member has to wait for the leader's assignments.
    fn asks(&self, number: ClientId, generation: i32) -> bool
        ensures { result ≡ asks self.now number generation }
    {
        has(self.roster.members(), number)
            && self.generation == generation
            && matches!(self.phase, Phase::Completing)
    }

    /// A member asks for what is assigned to it, and its session begins anew; before the leader has
    /// assigned it waits, and its session doesn't end. The leader's assignments are taken once, and
    /// then all sessions begin anew; a member that it doesn't name is assigned no bytes. What is
    /// answered, [`Group::synced`] says.
    ///
    /// # Errors
    ///
    /// As [`Group::heartbeat`].
    pub fn sync(
        &mut self,
        number: ClientId,
        generation: i32,
        assignments: Assignments,
        now: u64,
    ) -> Result<(), GroupFault>
        ensures answered { MatchResult result (λ done. fence self.old number generation ≡ None)
            (λ fault. fence self.old number generation ≡ Some fault) }
        ensures noted { self.new ≡ after_sync self.old number generation assignments now }
    {
        if !self.asks(number, generation) {
            return self.heartbeat(number, generation, now);
        }
        if self.takes(number, generation) {
            self.phase = Phase::Stable;
            self.roster.wake(now);
            self.assignments = assignments;
        } else {
            self.roster.ask(number, now);
        }
        Ok(())
    }

    /// What the leader assigned to a member of this generation, which answers its SyncGroup: None
    /// until it has, or the fault as of [`Group::heartbeat`].
    pub fn synced(&self, number: ClientId, generation: i32) -> Option<Result<&[u8], GroupFault>>
        ensures { MatchOption result (synced_of self.now number generation ≡ None)
            (λ answer. MatchResult answer
            (λ bytes. synced_of self.now number generation ≡ Some (Ok bytes.now))
            (λ fault. synced_of self.now number generation ≡ Some (Err fault))) }
    {
        if let Some(fault) = self.fence(number, generation) {
            return Some(Err(fault));
        }
        match self.phase {
            Phase::Stable => Some(Ok(self.assignments.of(number))),
            Phase::Empty | Phase::Preparing(_) | Phase::Completing => None,
        }
    }

    /// A member of this generation commits offsets, in a transaction or outside: its session begins
    /// anew. While the members join again, those of the present generation may go on.
    ///
    /// # Errors
    ///
    /// The first that fits, and then nothing changes: [`GroupFault::UnknownMember`];
    /// [`GroupFault::IllegalGeneration`]; [`GroupFault::RebalanceInProgress`] outside a transaction
    /// until the leader has assigned.
    pub fn commit(
        &mut self,
        number: ClientId,
        generation: i32,
        in_transaction: bool,
        now: u64,
    ) -> Result<(), GroupFault>
        ensures answered { MatchResult result
            (λ done. commit_fault self.old number generation in_transaction ≡ None)
            (λ fault. commit_fault self.old number generation in_transaction ≡ Some fault) }
        ensures noted { self.new ≡ after_commit self.old number generation in_transaction now }
    {
        if !has(self.roster.members(), number) {
            return Err(GroupFault::UnknownMember);
        }
        if generation != self.generation {
            return Err(GroupFault::IllegalGeneration);
        }
        if let (Phase::Completing, false) = (self.phase, in_transaction) {
            return Err(GroupFault::RebalanceInProgress);
        }
        self.roster.hear(number, now);
        Ok(())
    }

    /// The connection over which a member's JoinGroup or SyncGroup waits has ended: the member waits
    /// no more, and has a session to come back. One that joins for the first time is gone, since it
    /// never learnt its id.
    pub fn end_wait(&mut self, number: ClientId, now: u64)
        ensures { self.new ≡ after_end self.old number now }
    {
        if self.is_lost(number) {
            self.part(Going::Number(number), now);
        } else {
            self.roster.cut_off(number, now);
        }
    }

    // Whether this is a member that waits and that the core doesn't count yet.
    fn is_lost(&self, number: ClientId) -> bool
        ensures { result ≡ is_lost (find (is_numbered number) self.now.roster.members) }
    {
        match find(self.roster.members(), number) {
            None => false,
            Some(member) => member.waits && !member.is_counted,
        }
    }

    /// A member leaves, and the others have to join again.
    ///
    /// # Errors
    ///
    /// [`GroupFault::UnknownMember`], and then nothing changes.
    pub fn leave(&mut self, number: ClientId, now: u64) -> Result<(), GroupFault>
        ensures answered { MatchResult result
            (λ done. IsTrue (has number self.old.roster.members))
            (λ fault. (fault ≡ GroupFault.UnknownMember)
            × (has number self.old.roster.members ≡ false)) }
        ensures noted { self.new ≡ after_leave self.old number now }
    {
        if !has(self.roster.members(), number) {
            return Err(GroupFault::UnknownMember);
        }
        self.part(Going::Number(number), now);
        Ok(())
    }

    /// Time has gone on: members whose session has ended, and which wait for no answer, are gone, and
    /// the others have to join again.
    pub fn tick(&mut self, now: u64)
        ensures { self.new ≡ after_tick self.old now }
    {
        if any_goes(self.roster.members(), &Going::Ended(now)) {
            self.part(Going::Ended(now), now);
        }
    }

    // When the barrier is complete.
    fn due_time(&self) -> Option<u64>
        ensures { result ≡ due_time self.now }
    {
        if self.is_ready() {
            return Some(0);
        }
        match self.phase {
            Phase::Preparing(until) => Some(until),
            Phase::Empty | Phase::Completing | Phase::Stable => None,
        }
    }

    /// The earliest time at which [`Group::due`] or [`Group::tick`] may do something, if there is
    /// one: 0 if the group is due already.
    pub fn next_time(&self) -> Option<u64>
        ensures { result ≡ next_of self.now }
    {
        let mut time = self.due_time();
        let members = self.roster.members();
        for member in members {
            time = sooner(time, member);
        }
        time
    }
}

// The earlier of a time and that at which the session of a member ends that doesn't wait.
fn sooner(time: Option<u64>, member: &Member) -> Option<u64>
    ensures { result ≡ sooner time member.now }
{
    if member.is_waiting() {
        return time;
    }
    match time {
        None => Some(member.ends),
        Some(least) => Some(least.min(member.ends)),
    }
}

// The protocol that is chosen under a leader.
fn protocol_by<'a>(
    alloc: Global,
    leader: Option<&'a Member>,
    members: &'a [Member],
) -> Result<&'a [u8], AllocError>
    ensures { IfOk result (λ name.
        name.now ≡ protocol_by (option_copied leader.entry) members.now) }
{
    match leader {
        None => Ok(&[]),
        Some(leader) => chosen_by(alloc, leader, members),
    }
}

// The number of a member, if there is one.
fn number_of(member: Option<&Member>) -> Option<ClientId>
    ensures { result ≡ option_map (λ m. m.number) (option_copied member.entry) }
{
    let member = member?;
    Some(member.number)
}
