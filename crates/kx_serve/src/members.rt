//! Which members the groups of the offsets partition have when a server begins.
use indexmap::IndexMap;
use kx_batch::{BatchView, RecordView};
use kx_group::Groups;
use kx_log::Store;
use kx_machines::BrokerMachine;
use kx_message::{ClientId, GroupId};
use kx_offsets::Fact;
use kx_server::Member;
use std::alloc::{AllocError, Global};

// The group that a client joins, if it does.
fn joined_of(fact: &Fact) -> Option<GroupId> {
    match fact {
        Fact::Joined { group, .. } => Some(*group),
        _ => None,
    }
}

// The group that a client joins, by a record.
fn joined_in(record: &RecordView<'_>) -> Option<GroupId> {
    let fact = Fact::read(record)?;
    joined_of(&fact)
}

// Adds the groups that clients join, by the records of a batch.
fn add_joined(found: &mut IndexMap<GroupId, ()>, batch: &BatchView<'_>) -> Result<(), AllocError> {
    for record in batch.records() {
        if let Some(group) = joined_in(&record) {
            if found.insert(group, ()).is_err() {
                return Err(AllocError);
            }
        }
    }
    Ok(())
}

// The groups that a client ever joined.
fn joined_groups<S: Store>(
    alloc: Global,
    groups: &Groups<S>,
) -> Result<IndexMap<GroupId, ()>, AllocError> {
    let mut found = IndexMap::new(alloc);
    for batch in groups.partition().batches() {
        add_joined(&mut found, &batch)?;
    }
    Ok(found)
}

// Adds the members of a group.
fn add_members(
    members: &mut Vec<Member>,
    group: GroupId,
    clients: &[ClientId],
) -> Result<(), AllocError> {
    for client in clients {
        members.push(Member {
            group,
            client: *client,
        })?;
    }
    Ok(())
}

// The members of all groups.
fn members_in<S: Store>(alloc: Global, groups: &Groups<S>) -> Result<Vec<Member>, AllocError> {
    let mut members = Vec::new(alloc);
    let found = joined_groups(alloc, groups)?;
    for (group, _) in found.iter() {
        add_members(&mut members, *group, groups.members(*group))?;
    }
    Ok(members)
}

/// The members of all groups of the offsets partition, whose server this is; none of another
/// machine.
pub(crate) fn members_of<S: Store>(
    alloc: Global,
    machine: &BrokerMachine<S>,
) -> Result<Vec<Member>, AllocError> {
    match machine {
        BrokerMachine::Offsets(machine) => members_in(alloc, machine.groups()),
        _ => Ok(Vec::new(alloc)),
    }
}
