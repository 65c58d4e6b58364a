//! Why a request of a member is refused.
ghost use Rattle.std.specs.Prelude.{◌≡◌, pos};
ghost use Rattle.kx_membership.specs.Faults.{number_of};
ghost use Rattle.kx_membership.specs.declared.fault.GroupFault.{GroupFault};

use std::alloc::AllocError;
use thiserror::Error;

/// Why a request of a member is refused, with the number of the Kafka protocol guide's table "Error
/// Codes". The group is as before, but that a member which is answered
/// [`GroupFault::RebalanceInProgress`] begins its session anew.
#[derive(Clone, Copy, Debug, PartialEq, Eq, Error)]
pub enum GroupFault {
    /// Memory ran out; Kafka's number says that the group's coordinator isn't there yet, so a
    /// client asks again.
    #[error("out of memory")]
    Memory = 15,
    /// The request says another generation than the group's.
    #[error("the group has another generation")]
    IllegalGeneration = 22,
    /// A JoinGroup has no protocol type or no protocol, another protocol type than the other
    /// members have, or no protocol that they all have.
    #[error("no protocol that all members have")]
    InconsistentProtocol = 23,
    /// The number is none of a member, or, of a member that joins, one that the group has or the
    /// core still counts.
    #[error("no member has this number")]
    UnknownMember = 25,
    /// A JoinGroup says a session timeout outside 1 to 1,800,000 milliseconds.
    #[error("a session timeout is 1 to 1800000 milliseconds")]
    InvalidSessionTimeout = 26,
    /// Members are joining: the client has to join again.
    #[error("members are joining")]
    RebalanceInProgress = 27,
    /// The group has 100 members.
    #[error("the group has 100 members")]
    GroupFull = 81,
}

impl GroupFault {
    /// The number of the fault as it goes over the wire, an int16.
    pub fn number(self) -> i16
        ensures { result ≡ pos (number_of self) }
    {
        self as i16
    }
}

/// Out of memory is [`GroupFault::Memory`].
impl From<AllocError> for GroupFault {
    ghost from_gives = { λ refused fault. fault ≡ GroupFault.Memory };

    fn from(_refused: AllocError) -> Self {
        GroupFault::Memory
    }
}
