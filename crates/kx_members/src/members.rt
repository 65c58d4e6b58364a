//! The members of all groups.
ghost use Rattle.std.specs.Prelude.{◌≡◌, ◌<◌, pos, ℕ, List, bytes_eq, option_copied, true, false};
ghost use Rattle.std.specs.Prelude.{OnOk};
ghost use Rattle.std.specs.Map.{lookup};
ghost use Rattle.kx_members.specs.Standing.{after, drop_verdict, is_among, join_verdict};
ghost use Rattle.kx_members.specs.Standing.{leave_verdict, unknown};
ghost use Rattle.kx_members.specs.Table.{CanNote, group_in, has_room, standing_in, verdict_of};
ghost use Rattle.kx_model.specs.Groups.{Joined, Left, greatest_generation};
ghost use Rattle.kx_offsets.specs.Facts.{defined};

use crate::group::Group;
use crate::membership::Membership;
use indexmap::IndexMap;
use kx_message::{ClientId, ErrorCode, GroupId};
use kx_offsets::Fact;
use std::alloc::{AllocError, Global};
use std::marker::Model;

/// What is kept of the members of consumer groups, each group found by its name in constant time
/// (Kafka's group coordinator): how often its membership has changed, its members, and those that
/// left or were dropped.
#[derive(Drop)]
pub struct Members {
    alloc: Global,
    groups: IndexMap<GroupId, Group>,
}

impl Model for Members {
    ghost use Rattle.std.specs.Prelude.{bytes_eq};
    ghost use Rattle.indexmap.specs.IndexMap.{IsUnique};
    ghost use Rattle.kx_members.specs.Table.{Table};

    ghost Value = { Table };

    ghost view = { λ m. m.groups.entries };

    ghost invariant = { λ m. IsUnique bytes_eq m.groups };
}

impl Members {
    /// Of no group anything is known. It takes memory from `alloc` as groups come.
    pub fn new(alloc: Global) -> Members
        ensures { (group : List ℕ) → standing_in result group ≡ unknown }
    {
        Members {
            alloc,
            groups: IndexMap::new(alloc),
        }
    }

    // What is kept of a group.
    fn group(&self, group: GroupId) -> Option<&Group>
        ensures { option_copied result ≡ lookup (bytes_eq group) self.now }
    {
        self.groups.get(&group)
    }

    /// A group's generation, 0 to 2^31 - 1: how often its membership has changed. No memory is
    /// asked for.
    pub fn generation(&self, group: GroupId) -> i32
        ensures { result ≡ pos (standing_in self.now group).generation }
    {
        match self.group(group) {
            Some(known) => known.generation(),
            None => 0,
        }
    }

    /// A group's members, in joining order, at most 16. No memory is asked for.
    pub fn members(&self, group: GroupId) -> &[ClientId]
        ensures { result.now ≡ (standing_in self.now group).members }
    {
        match self.group(group) {
            Some(known) => known.members(),
            None => &[],
        }
    }

    /// What a client is answered that asks to join a group. One that left, or was dropped, joins
    /// no more. No memory is asked for.
    pub fn judge_join(&self, group: GroupId, member: ClientId) -> Membership
        ensures { verdict_of result ≡ join_verdict (standing_in self.now group) group member }
    {
        match self.group(group) {
            Some(known) => known.judge_join(group, member),
            None => Membership::Changes(Fact::Joined { group, member }),
        }
    }

    /// What a client is answered that asks to leave a group. No memory is asked for.
    pub fn judge_leave(&self, group: GroupId, member: ClientId) -> Membership
        ensures { verdict_of result ≡ leave_verdict (standing_in self.now group) group member }
    {
        match self.group(group) {
            Some(known) => known.judge_leave(group, member),
            None => Membership::Refused(ErrorCode::UnknownMemberId),
        }
    }

    /// What is answered if a client is to be dropped from a group. No memory is asked for.
    pub fn judge_drop(&self, group: GroupId, member: ClientId) -> Membership
        ensures { verdict_of result ≡ drop_verdict (standing_in self.now group) group member }
    {
        match self.group(group) {
            Some(known) => known.judge_drop(group, member),
            None => Membership::Refused(ErrorCode::UnknownMemberId),
        }
    }

    /// Makes room for one more change of a group, so that noting it asks for no memory. What is
    /// known of each group stays.
    ///
    /// # Errors
    ///
    /// Only if memory runs out.
    pub fn reserve(&mut self, group: GroupId) -> Result<(), AllocError>
        ensures same { (other : List ℕ)
            → standing_in self.new other ≡ standing_in self.old other }
        ensures room { OnOk result (has_room self.new group ≡ true) }
    {
        if let Some(known) = self.groups.get_mut(&group) {
            return known.reserve();
        }
        let mut fresh = Group::new(self.alloc);
        fresh.reserve()?;
        self.groups.insert(group, fresh)?;
        Ok(())
    }

    // A client joined this group.
    fn join(&mut self, group: GroupId, member: ClientId)
        requires room { has_room self.old group ≡ true }
        requires fits { (standing_in self.old group).generation < greatest_generation }
        ensures { (other : List ℕ) → standing_in self.new other
            ≡ after (Joined group member) other (standing_in self.old other) }
    {
        self.groups.get_mut(&group).unwrap().join(member);
    }

    // A member of this group left, or was dropped.
    fn leave(&mut self, group: GroupId, member: ClientId)
        requires room { has_room self.old group ≡ true }
        requires fits { (standing_in self.old group).generation < greatest_generation }
        requires here { is_among member (standing_in self.old group).gone ≡ false }
        ensures { (other : List ℕ) → standing_in self.new other
            ≡ after (Left group member) other (standing_in self.old other) }
    {
        self.groups.get_mut(&group).unwrap().leave(member);
    }

    /// Notes a change that was appended to the offsets partition. An offset changes nothing.
    pub fn note(&mut self, change: Fact)
        requires room { has_room self.old (group_in (defined change)) ≡ true }
        requires made { CanNote (standing_in self.old (group_in (defined change)))
            (defined change) }
        ensures { (group : List ℕ) → standing_in self.new group
            ≡ after (defined change) group (standing_in self.old group) }
    {
        match change {
            Fact::Offset { .. } => {}
            Fact::Joined { group, member } => self.join(group, member),
            Fact::Left { group, member } | Fact::Dropped { group, member } => {
                self.leave(group, member);
            }
        }
    }
}
