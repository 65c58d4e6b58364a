//! What is kept of one consumer group.
ghost use Rattle.std.specs.Prelude.{◌≡◌, ◌<◌, pos, true, false, OnOk};
ghost use Rattle.kx_members.specs.Standing.{changes_by, drop_verdict, is_among, join_verdict};
ghost use Rattle.kx_members.specs.Standing.{joined, leave_verdict, unknown, went};
ghost use Rattle.kx_members.specs.Table.{verdict_of};
ghost use Rattle.kx_model.specs.Groups.{greatest_generation};
ghost use Rattle.kx_offsets.specs.Facts.{defined};

use crate::membership::Membership;
use indexmap::IndexSet;
use kx_message::{ClientId, ErrorCode, GroupId};
use kx_offsets::Fact;
use std::alloc::{AllocError, Global};
use std::marker::Model;

// How many members a group may have.
const MEMBER_LIMIT: usize = 16;

/// What is kept of one consumer group.
#[derive(Drop)]
pub(crate) struct Group {
    generation: u32,
    members: Vec<ClientId>,
    gone: IndexSet<ClientId>,
}

impl Model for Group {
    ghost use Rattle.std.specs.Prelude.{◌≤◌, ◌-◌, ◌&&◌, nat_lt, vec_capacity, vec_len};
    ghost use Rattle.indexmap.specs.IndexSet.{spare};
    ghost use Rattle.kx_members.specs.Table.{GroupState};
    ghost use Rattle.kx_model.specs.Groups.{greatest_generation};

    ghost Value = { GroupState };

    ghost view = { λ g. record {
      standing = record {
        generation = g.generation;
        members = g.members.items;
        gone = g.gone.keys;
      };
      has_room = nat_lt 0 (vec_capacity g.members - vec_len g.members)
          && nat_lt 0 (spare g.gone);
    } };

    ghost invariant = { λ g. g.generation ≤ greatest_generation };
}

impl Group {
    /// A group of which nothing is known.
    pub(crate) fn new(alloc: Global) -> Group
        ensures { result.standing ≡ unknown }
    {
        Group {
            generation: 0,
            members: Vec::new(alloc),
            gone: IndexSet::new(alloc),
        }
    }

    /// How often its membership has changed.
    pub(crate) fn generation(&self) -> i32
        ensures { result ≡ pos self.now.standing.generation }
    {
        self.generation as i32
    }

    /// Its members, in joining order.
    pub(crate) fn members(&self) -> &[ClientId]
        ensures { result.now ≡ self.now.standing.members }
    {
        self.members.as_slice()
    }

    // Whether the client is a member.
    fn has(&self, member: ClientId) -> bool
        ensures { result ≡ is_among member self.now.standing.members }
    {
        self.members.as_slice().contains(&member)
    }

    // The change, if there is a generation for it.
    fn changes(&self, change: Fact) -> Membership
        ensures { verdict_of result ≡ changes_by self.now.standing (defined change) }
    {
        if self.generation < i32::MAX as u32 {
            Membership::Changes(change)
        } else {
            Membership::Refused(ErrorCode::KafkaStorageError)
        }
    }

    /// What a client that joins this group is answered.
    pub(crate) fn judge_join(&self, group: GroupId, member: ClientId) -> Membership
        ensures { verdict_of result ≡ join_verdict self.now.standing group member }
    {
        if self.has(member) {
            return Membership::Already;
        }
        if self.gone.contains(&member) || MEMBER_LIMIT <= self.members.len() {
            return Membership::Refused(ErrorCode::UnknownMemberId);
        }
        self.changes(Fact::Joined { group, member })
    }

    /// What a member that leaves this group is answered.
    pub(crate) fn judge_leave(&self, group: GroupId, member: ClientId) -> Membership
        ensures { verdict_of result ≡ leave_verdict self.now.standing group member }
    {
        if !self.has(member) {
            return Membership::Refused(ErrorCode::UnknownMemberId);
        }
        self.changes(Fact::Left { group, member })
    }

    /// What is answered if a member is to be dropped from this group.
    pub(crate) fn judge_drop(&self, group: GroupId, member: ClientId) -> Membership
        ensures { verdict_of result ≡ drop_verdict self.now.standing group member }
    {
        if !self.has(member) {
            return Membership::Refused(ErrorCode::UnknownMemberId);
        }
        self.changes(Fact::Dropped { group, member })
    }

    /// Makes room for one more change.
    pub(crate) fn reserve(&mut self) -> Result<(), AllocError>
        ensures same { self.new.standing ≡ self.old.standing }
        ensures room { OnOk result (self.new.has_room ≡ true) }
    {
        self.members.reserve(1)?;
        self.gone.reserve(1)
    }

    /// A client joined.
    pub(crate) fn join(&mut self, member: ClientId)
        requires room { self.old.has_room ≡ true }
        requires fits { self.old.standing.generation < greatest_generation }
        ensures { self.new.standing ≡ joined member self.old.standing }
    {
        self.generation += 1;
        self.members.push(member).unwrap();
    }

    /// A member left, or was dropped.
    pub(crate) fn leave(&mut self, member: ClientId)
        requires room { self.old.has_room ≡ true }
        requires fits { self.old.standing.generation < greatest_generation }
        requires here { is_among member self.old.standing.gone ≡ false }
        ensures { self.new.standing ≡ went member self.old.standing }
    {
        self.generation += 1;
        self.members.retain(|other| *other != member);
        // Whether it is new among them is dropped: it is, as `here` says.
        let _ = self.gone.insert(member).unwrap();
    }
}
