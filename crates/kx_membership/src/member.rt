//! One member, and what a list of members says.
ghost use Rattle.std.specs.Prelude.{◌≡◌, ◌≤◌, ◌+◌, ◌++◌, ◌||◌, length, map, vec_capacity, vec_len};
ghost use Rattle.std.specs.Option.{option_copied};
ghost use Rattle.std.specs.List.{find};
ghost use Rattle.kx_membership.specs.Internal.Places.{IsPlaceOf};
ghost use Rattle.kx_membership.specs.Roster.{any_goes, asking, begun, counted, cut_off, goes};
ghost use Rattle.kx_membership.specs.Roster.{gone_numbers, has, has_id, has_others, has_same};
ghost use Rattle.kx_membership.specs.Roster.{is_numbered, joining, led_by, longest, renewed, woken};

use crate::ask::{JoinAsk, Protocols, milliseconds};
use kx_message::{Bytes, ClientId};

// A member of a group.
#[derive(Drop)]
pub(crate) struct Member {
    pub(crate) number: ClientId,
    // The id that its client was answered.
    pub(crate) id: Bytes,
    // After how many milliseconds without a word of it it is gone.
    pub(crate) session: u64,
    // How many milliseconds it may take to join again.
    pub(crate) rebalance: u64,
    pub(crate) protocols: Protocols,
    // When its session ends.
    pub(crate) ends: u64,
    // Whether a JoinGroup of it waits for the others.
    pub(crate) waits: bool,
    // Whether a SyncGroup of it waits for the leader's assignments.
    pub(crate) syncs: bool,
    // Whether the core counts it.
    pub(crate) is_counted: bool,
}

// Which members go.
#[derive(Clone, Copy)]
pub(crate) enum Going {
    // The one with this number.
    Number(ClientId),
    // Those that don't wait.
    Silent,
    // Those that wait for no answer and whose session has ended by this time.
    Ended(u64),
}

impl Member {
    // A member that joins, and its protocol type.
    pub(crate) fn joining(number: ClientId, id: Bytes, ask: JoinAsk, now: u64) -> (Member, Bytes)
        ensures member { result.0 ≡ joining number id ask now }
        ensures protocol_type { result.1 ≡ ask.protocol_type }
    {
        let JoinAsk {
            session_timeout,
            rebalance_timeout,
            protocol_type,
            protocols,
        } = ask;
        let session = milliseconds(session_timeout);
        let member = Member {
            number,
            id,
            session,
            rebalance: milliseconds(rebalance_timeout),
            protocols,
            ends: now.saturating_add(session),
            waits: true,
            syncs: false,
            is_counted: false,
        };
        (member, protocol_type)
    }

    // It joins again: what it says now holds, and its session begins anew. Returns the type of its
    // protocols.
    pub(crate) fn renew(&mut self, ask: JoinAsk, waits: bool, now: u64) -> Bytes
        ensures member { self.new ≡ renewed ask waits now self.old }
        ensures protocol_type { result ≡ ask.protocol_type }
    {
        let JoinAsk {
            session_timeout,
            rebalance_timeout,
            protocol_type,
            protocols,
        } = ask;
        self.session = milliseconds(session_timeout);
        self.rebalance = milliseconds(rebalance_timeout);
        self.protocols = protocols;
        self.begin(now);
        self.waits = waits;
        self.syncs = false;
        protocol_type
    }

    // Its session begins anew.
    pub(crate) fn begin(&mut self, now: u64)
        ensures { self.new ≡ begun now self.old }
    {
        self.ends = now.saturating_add(self.session);
    }

    // It asks for what is assigned to it, and waits for that.
    pub(crate) fn ask(&mut self, now: u64)
        ensures { self.new ≡ asking now self.old }
    {
        self.begin(now);
        self.syncs = true;
    }

    // Its connection has ended: nobody waits for an answer to it.
    pub(crate) fn cut_off(&mut self, now: u64)
        ensures { self.new ≡ cut_off now self.old }
    {
        if self.waits || self.syncs {
            self.begin(now);
            self.waits = false;
            self.syncs = false;
        }
    }

    // Whether an answer is owed to it.
    pub(crate) fn is_waiting(&self) -> bool
        ensures { result ≡ (self.now.waits || self.now.syncs) }
    {
        self.waits || self.syncs
    }
}

impl Going {
    // Whether a member goes.
    pub(crate) fn goes(&self, member: &Member) -> bool
        ensures { result ≡ goes self.now member.now }
    {
        match self {
            Going::Number(number) => member.number == *number,
            Going::Silent => !member.waits,
            Going::Ended(now) => !member.is_waiting() && member.ends <= *now,
        }
    }
}

// The member with this number.
#[tactic(auto, using(crate::proofs::Finds::find_here, crate::proofs::Finds::find_more))]
pub(crate) fn find(members: &[Member], number: ClientId) -> Option<&Member>
    ensures { option_copied result ≡ find (is_numbered number) members.now }
{
    for member in members {
        if member.number == number {
            return Some(member);
        }
    }
    None
}

// The member with this id, compared whole.
#[tactic(auto, using(crate::proofs::Finds::find_here, crate::proofs::Finds::find_more))]
pub(crate) fn find_id<'a>(members: &'a [Member], id: &[u8]) -> Option<&'a Member>
    ensures { option_copied result ≡ find (has_id id.now) members.now }
{
    for member in members {
        if member.id.as_slice() == id {
            return Some(member);
        }
    }
    None
}

// Whether one has this number.
pub(crate) fn has(members: &[Member], number: ClientId) -> bool
    ensures { result ≡ has number members.now }
{
    find(members, number).is_some()
}

// Whether there is one of another number.
pub(crate) fn has_others(members: &[Member], number: ClientId) -> bool
    ensures { result ≡ has_others number members.now }
{
    for member in members {
        if member.number != number {
            return true;
        }
    }
    false
}

// Whether the member with this number has these protocols.
pub(crate) fn has_same(members: &[Member], number: ClientId, protocols: &Protocols) -> bool
    ensures { result ≡ has_same number protocols.now members.now }
{
    match find(members, number) {
        None => false,
        Some(member) => member.protocols.is_same(protocols),
    }
}

// Whether one of them goes.
pub(crate) fn any_goes(members: &[Member], going: &Going) -> bool
    ensures { result ≡ any_goes going.now members.now }
{
    for member in members {
        if going.goes(member) {
            return true;
        }
    }
    false
}

// The greatest rebalance timeout.
pub(crate) fn longest(members: &[Member]) -> u64
    ensures { result ≡ longest members.now }
{
    let mut most = 0;
    for member in members {
        most = member.rebalance.max(most);
    }
    most
}

// Who leads them: who led before, if it is there, else the first.
pub(crate) fn led_by(members: &[Member], before: Option<ClientId>) -> Option<&Member>
    ensures { option_copied result ≡ led_by before members.now }
{
    if let Some(number) = before {
        if let Some(member) = find(members, number) {
            return Some(member);
        }
    }
    members.first()
}

// The place of the member with this number, where a change of it is made.
pub(crate) fn place_of(members: &[Member], number: ClientId) -> Option<usize>
    ensures { IsPlaceOf number members.now result }
{
    for place in 0..members.len() {
        if members[place].number == number {
            return Some(place);
        }
    }
    None
}

// Adds the numbers of those that go and that the core counts.
pub(crate) fn note_gone(members: &[Member], going: &Going, gone: &mut Vec<ClientId>)
    requires { vec_len gone.old + length members.now ≤ vec_capacity gone.old }
    ensures items { gone.new.items ≡ gone.old.items ++ gone_numbers going.now members.now }
    ensures room { (vec_capacity gone.old ≤ vec_capacity gone.new)
        × (vec_len gone.new ≤ vec_len gone.old + length members.now) }
{
    for member in members {
        if going.goes(member) && member.is_counted {
            gone.push(member.number).unwrap();
        }
    }
}

// The members wait for their assignments no longer, and their sessions begin anew at this time.
pub(crate) fn wake_all(members: &mut [Member], now: u64)
    ensures { members.new ≡ map (woken now) members.old }
{
    for place in 0..members.len() {
        let member = &mut members[place];
        member.begin(now);
        member.syncs = false;
    }
}

// The core counts each of the members; none waits, and their sessions begin anew at this time.
pub(crate) fn count_all(members: &mut [Member], now: u64)
    ensures { members.new ≡ map (counted now) members.old }
{
    for place in 0..members.len() {
        let member = &mut members[place];
        member.begin(now);
        member.waits = false;
        member.syncs = false;
        member.is_counted = true;
    }
}
