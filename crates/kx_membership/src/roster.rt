//! The members of a group, and the numbers of those gone that the core still counts.
ghost use Rattle.std.specs.Prelude.{◌≡◌, ◌++◌, ◌∷◌, [], IsOk, MatchResult};
ghost use Rattle.kx_membership.specs.Roster.{all_woken, asked, heard, left_alone, nobody, parted};
ghost use Rattle.kx_membership.specs.Roster.{pushed, said_anew, settled};

use crate::ask::JoinAsk;
use crate::member::{Going, Member, count_all, note_gone, place_of, wake_all};
use kx_message::{Bytes, ClientId};
use std::alloc::{AllocError, Global};
use std::marker::Model;

// The members in joining order, and the numbers of those gone that the core still counts. There is
// always room for the numbers of all members, so that one can go without taking memory.
#[derive(Drop)]
pub(crate) struct Roster {
    members: Vec<Member>,
    gone: Vec<ClientId>,
}

impl Model for Roster {
    ghost use Rattle.std.specs.Prelude.{◌+◌, ◌≤◌, vec_capacity, vec_len};
    ghost use Rattle.kx_membership.specs.Roster.{RosterState};

    ghost Value = { RosterState };

    ghost view = { λ r. record { members = r.members.items; gone = r.gone.items } };

    ghost invariant = { λ r. vec_len r.gone + vec_len r.members ≤ vec_capacity r.gone };
}

impl Roster {
    // Nobody.
    pub(crate) fn new(alloc: Global) -> Roster
        ensures { result ≡ nobody }
    {
        Roster {
            members: Vec::new(alloc),
            gone: Vec::new(alloc),
        }
    }

    // The members, in joining order.
    pub(crate) fn members(&self) -> &[Member]
        ensures { result.now ≡ self.now.members }
    {
        &self.members
    }

    // The numbers of those gone that the core still counts.
    pub(crate) fn gone(&self) -> &[ClientId]
        ensures { result.now ≡ self.now.gone }
    {
        &self.gone
    }

    // One more, the last in joining order.
    pub(crate) fn push(&mut self, member: Member) -> Result<(), AllocError>
        ensures { MatchResult result (λ done. self.new ≡ pushed member self.old)
            (λ err. self.new ≡ self.old) }
    {
        self.members.reserve(1)?;
        self.gone.reserve(self.members.len() + 1)?;
        self.members.push(member).unwrap();
        Ok(())
    }

    // A member was heard: its session begins anew.
    pub(crate) fn hear(&mut self, number: ClientId, now: u64)
        ensures { self.new ≡ heard number now self.old }
    {
        if let Some(place) = place_of(&self.members, number) {
            self.members[place].begin(now);
        }
    }

    // A member asks for what is assigned to it, and waits for that.
    pub(crate) fn ask(&mut self, number: ClientId, now: u64)
        ensures { self.new ≡ asked number now self.old }
    {
        if let Some(place) = place_of(&self.members, number) {
            self.members[place].ask(now);
        }
    }

    // The connection of a member has ended: nobody waits for an answer to it.
    pub(crate) fn cut_off(&mut self, number: ClientId, now: u64)
        ensures { self.new ≡ left_alone number now self.old }
    {
        if let Some(place) = place_of(&self.members, number) {
            self.members[place].cut_off(now);
        }
    }

    // The members wait for their assignments no longer, and their sessions begin anew at this time.
    pub(crate) fn wake(&mut self, now: u64)
        ensures { self.new ≡ all_woken now self.old }
    {
        wake_all(&mut self.members, now);
    }

    // A member says its timeouts and protocols anew. Returns the type of its protocols.
    pub(crate) fn renew(&mut self, number: ClientId, ask: JoinAsk, waits: bool, now: u64) -> Bytes
        ensures members { self.new ≡ said_anew number ask waits now self.old }
        ensures protocol_type { result ≡ ask.protocol_type }
    {
        match place_of(&self.members, number) {
            Some(place) => self.members[place].renew(ask, waits, now),
            None => ask.protocol_type,
        }
    }

    // Members go; the numbers of those that the core counts are kept.
    pub(crate) fn part(&mut self, going: Going)
        ensures { self.new ≡ parted going self.old }
    {
        note_gone(&self.members, &going, &mut self.gone);
        self.members.retain(|member| !going.goes(member));
    }

    // The core counts the members and nobody else; none waits, and sessions begin anew.
    pub(crate) fn settle(&mut self, now: u64)
        ensures { self.new ≡ settled now self.old }
    {
        count_all(&mut self.members, now);
        self.gone.clear();
    }
}
