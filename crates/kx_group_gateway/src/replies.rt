//! What the core's replies mean for a group.
ghost use Rattle.std.specs.Prelude.{◌≡◌, ◌↔◌, pos, Option, Some};
ghost use Rattle.kx_group_gateway.specs.Replies.{alone_code, generation_in};
ghost use Rattle.kx_message.specs.declared.code.ErrorCode.{ErrorCode};

use crate::code::GroupCode;
use kx_message::{ErrorCode, JoinReply};

/// The generation of a group after a member has joined: what the core replied, if its code is 0.
pub fn generation_in(reply: &JoinReply) -> Option<i32>
    ensures { result ≡ generation_in reply.now.code reply.now.generation }
{
    match reply.code {
        ErrorCode::NoError => Some(reply.generation),
        _ => None,
    }
}

/// The code of each offset in a response to an OffsetCommit, for which the server has a transaction
/// of its own: by what the core replied to the offsets, and to the transaction's end, if it was
/// asked to end it. It is 0 only if both were answered with 0; 22 and 25 are the core's; any other
/// refusal is told by 15, after which clients ask again.
pub fn alone_code(offsets: ErrorCode, end: Option<ErrorCode>) -> i16
    ensures { result ≡ pos (alone_code offsets end) }
{
    match (offsets, end) {
        (ErrorCode::NoError, Some(ErrorCode::NoError)) => 0,
        (ErrorCode::IllegalGeneration | ErrorCode::UnknownMemberId, _) => offsets.number(),
        _ => GroupCode::CoordinatorNotAvailable.number(),
    }
}

/// A law: an offset that is committed outside of a client's transaction is answered with 0 exactly
/// if the core took it and committed its transaction.
pub fn zero_is_committed()
    ensures { (offsets : ErrorCode) (end : Option ErrorCode) → (alone_code offsets end ≡ 0)
        ↔ ((offsets ≡ ErrorCode.NoError) × (end ≡ Some ErrorCode.NoError)) }
{}
