//! What a client says when it joins, and what a leader assigns.
ghost use Rattle.std.specs.Prelude.{◌≡◌, []};
ghost use Rattle.std.specs.List.{find};
ghost use Rattle.std.specs.Option.{option_copied};
ghost use Rattle.kx_membership.specs.Protocols.{assigned_to, is_named};
ghost use Rattle.kx_membership.specs.Protocols.{milliseconds, same_protocols};

use kx_message::{Bytes, ClientId};
use std::alloc::Global;
use std::marker::Model;

/// A way of assigning partitions that a client offers, as it says it.
#[derive(PartialEq, Eq, Drop)]
pub struct Protocol {
    /// Its name, such as `range`.
    pub name: Bytes,
    /// What the client says to the leader under this protocol (KIP-62).
    pub metadata: Bytes,
}

/// The protocols of a client, the one that it prefers first.
#[derive(Drop)]
pub struct Protocols {
    list: Vec<Protocol>,
}

impl Model for Protocols {
    ghost use Rattle.std.specs.Prelude.{List};
    ghost use Rattle.kx_membership.specs.declared.ask.Protocol.{Protocol};

    ghost Value = { List Protocol };

    ghost view = { λ protocols. protocols.list.items };
}

impl Protocols {
    /// These protocols, the one that is preferred first.
    pub fn from_vec(list: Vec<Protocol>) -> Self
        ensures { result ≡ list.items }
    {
        Protocols { list }
    }

    // The protocols, borrowed.
    pub(crate) fn as_slice(&self) -> &[Protocol]
        ensures { result.now ≡ self.now }
    {
        &self.list
    }

    // Whether both are the same protocols in the same order.
    pub(crate) fn is_same(&self, other: &Protocols) -> bool
        ensures { result ≡ same_protocols self.now other.now }
    {
        self.list == other.list
    }
}

/// What a leader assigns to one member.
#[derive(Drop)]
pub struct Assignment {
    /// The member's number.
    pub member: ClientId,
    /// What the member is to be answered.
    pub bytes: Bytes,
}

/// What a leader assigns. A member that it names twice is assigned what comes first.
#[derive(Drop)]
pub struct Assignments {
    list: Vec<Assignment>,
}

impl Model for Assignments {
    ghost use Rattle.std.specs.Prelude.{List};
    ghost use Rattle.kx_membership.specs.declared.ask.Assignment.{Assignment};

    ghost Value = { List Assignment };

    ghost view = { λ assignments. assignments.list.items };
}

impl Assignments {
    /// These assignments.
    pub fn from_vec(list: Vec<Assignment>) -> Self
        ensures { result ≡ list.items }
    {
        Assignments { list }
    }

    // Nothing is assigned.
    pub(crate) fn none(alloc: Global) -> Self
        ensures { result ≡ [] }
    {
        Assignments {
            list: Vec::new(alloc),
        }
    }

    // What is assigned to a member: no bytes if the leader doesn't name it.
    #[tactic(auto, using(crate::proofs::Finds::find_here, crate::proofs::Finds::find_more))]
    pub(crate) fn of(&self, member: ClientId) -> &[u8]
        ensures { result.now ≡ assigned_to member self.now }
    {
        let list = self.list.as_slice();
        for assignment in list {
            if assignment.member == member {
                return assignment.bytes.as_slice();
            }
        }
        &[]
    }
}

/// A client's JoinGroup.
#[derive(Drop)]
pub struct JoinAsk {
    /// After how many milliseconds without a word of it the member is gone.
    pub session_timeout: i32,
    /// How many milliseconds it may take to join again; below 0 counts as 0.
    pub rebalance_timeout: i32,
    /// What its protocols are for, such as `consumer`.
    pub protocol_type: Bytes,
    /// What it offers.
    pub protocols: Protocols,
}

// The milliseconds of a timeout; below 0 counts as 0.
pub(crate) fn milliseconds(timeout: i32) -> u64
    ensures { result ≡ milliseconds timeout }
{
    if timeout < 0 { 0 } else { timeout as u64 }
}

// The protocol of this name.
#[tactic(auto, using(crate::proofs::Finds::find_here, crate::proofs::Finds::find_more))]
pub(crate) fn named<'a>(name: &[u8], protocols: &'a [Protocol]) -> Option<&'a Protocol>
    ensures { option_copied result ≡ find (is_named name.now) protocols.now }
{
    for protocol in protocols {
        if protocol.name.as_slice() == name {
            return Some(protocol);
        }
    }
    None
}
