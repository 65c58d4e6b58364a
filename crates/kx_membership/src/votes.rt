//! Which protocol a group chooses.
ghost use Rattle.std.specs.Prelude.{◌≡◌, IfOk, map};
ghost use Rattle.std.specs.List.{fold};
ghost use Rattle.std.specs.Option.{option_copied};
ghost use Rattle.kx_membership.specs.Internal.Counting.{all_now, better_of, count_of, first_of};
ghost use Rattle.kx_membership.specs.Internal.Counting.{is_listed, offered};
ghost use Rattle.kx_membership.specs.Votes.{all_offer, chosen_by, common_of, is_offered};

use crate::ask::{Protocol, named};
use crate::member::Member;
use kx_message::ClientId;
use std::alloc::{AllocError, Global};

// Whether each member but this one offers the protocol of this name.
fn is_offered(name: &[u8], number: ClientId, members: &[Member]) -> bool
    ensures { result ≡ is_offered name.now number members.now }
{
    for member in members {
        if member.number != number && named(name, member.protocols.as_slice()).is_none() {
            return false;
        }
    }
    true
}

// The first of a member's protocols that each other member offers.
#[tactic(auto, using(crate::proofs::Finds::find_here, crate::proofs::Finds::find_more))]
pub(crate) fn common_of<'a>(
    protocols: &'a [Protocol],
    number: ClientId,
    members: &[Member],
) -> Option<&'a Protocol>
    ensures { option_copied result ≡ common_of protocols.now number members.now }
{
    for protocol in protocols {
        if is_offered(protocol.name.as_slice(), number, members) {
            return Some(protocol);
        }
    }
    None
}

// Whether each member offers the protocol of this name.
fn all_offer(name: &[u8], members: &[Member]) -> bool
    ensures { result ≡ all_offer name.now members.now }
{
    for member in members {
        if named(name, member.protocols.as_slice()).is_none() {
            return false;
        }
    }
    true
}

// The names of the leader's protocols that all members offer.
fn offered<'a>(
    alloc: Global,
    leader: &'a Member,
    members: &[Member],
) -> Result<Vec<&'a [u8]>, AllocError>
    ensures { IfOk result (λ names. all_now names.items ≡ offered leader.now members.now) }
{
    let mut names = Vec::new(alloc);
    for protocol in leader.protocols.as_slice() {
        let name = protocol.name.as_slice();
        if all_offer(name, members) {
            names.push(name)?;
        }
    }
    Ok(names)
}

// Whether a name is one of these.
fn is_listed(name: &[u8], names: &[&[u8]]) -> bool
    ensures { result ≡ is_listed name.now (all_now names.now) }
{
    for listed in names {
        if *listed == name {
            return true;
        }
    }
    false
}

// The first of a member's protocols whose name is one of these; no bytes if there is none.
fn first_of<'a>(names: &[&[u8]], member: &'a Member) -> &'a [u8]
    ensures { result.now ≡ first_of (all_now names.now) member.now }
{
    for protocol in member.protocols.as_slice() {
        if is_listed(protocol.name.as_slice(), names) {
            return protocol.name.as_slice();
        }
    }
    &[]
}

// What each member votes for, in joining order.
fn all_votes<'a>(
    alloc: Global,
    names: &[&[u8]],
    members: &'a [Member],
) -> Result<Vec<&'a [u8]>, AllocError>
    ensures { IfOk result (λ all. all_now all.items ≡ map (first_of (all_now names.now)) members.now) }
{
    let mut all = Vec::with_capacity(alloc, members.len())?;
    for member in members {
        all.push(first_of(names, member))?;
    }
    Ok(all)
}

// How many votes are for this name.
fn count(name: &[u8], all: &[&[u8]]) -> usize
    ensures { result ≡ count_of name.now (all_now all.now) }
{
    let mut count = 0;
    for vote in all {
        if *vote == name {
            count += 1;
        }
    }
    count
}

// The better of two names: the second only if it has more votes.
fn better<'a>(best: &'a [u8], name: &'a [u8], all: &[&[u8]]) -> &'a [u8]
    ensures { result.now ≡ better_of (all_now all.now) best.now name.now }
{
    if count(best, all) < count(name, all) {
        name
    } else {
        best
    }
}

// The best of a name and all that are voted for: of several with as many votes the first.
fn best_of<'a>(name: &'a [u8], all: &[&'a [u8]]) -> &'a [u8]
    ensures { result.now ≡ fold (better_of (all_now all.now)) name.now (all_now all.now) }
{
    let mut best = name;
    for place in 0..all.len() {
        best = better(best, all[place], all);
    }
    best
}

// The name that most members vote for; of several what the leader votes for, else what the member
// votes for that joined first.
pub(crate) fn chosen_by<'a>(
    alloc: Global,
    leader: &'a Member,
    members: &'a [Member],
) -> Result<&'a [u8], AllocError>
    ensures { IfOk result (λ name. name.now ≡ chosen_by leader.now members.now) }
{
    let names = offered(alloc, leader, members)?;
    let all = all_votes(alloc, names.as_slice(), members)?;
    Ok(best_of(first_of(names.as_slice(), leader), all.as_slice()))
}
