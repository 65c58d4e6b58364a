//! What a change of a group's members that is asked for comes to.

use kx_message::ErrorCode;
use kx_offsets::Fact;

/// What a change of a group's members that is asked for comes to (Kafka's protocol guide,
/// "JoinGroup", "LeaveGroup").
#[derive(Clone, Copy, Debug, PartialEq, Eq)]
pub enum Membership {
    /// The client is a member already. Nothing is to be changed.
    Already,
    /// The request is refused, with this code. Nothing changes.
    Refused(ErrorCode),
    /// This is to be appended to the offsets partition.
    Changes(Fact),
}
