//! The ids of members.
ghost use Rattle.std.specs.Prelude.{◌≡◌, IfOk};
ghost use Rattle.kx_membership.specs.MemberId.{member_id_of};

use kx_message::ClientId;
use std::alloc::{AllocError, Global};

/// The id of a member: its client's id, a dash and its number in decimal.
///
/// # Errors
///
/// Only if memory runs out.
pub fn member_id(alloc: Global, client_id: &[u8], number: ClientId) -> Result<Vec<u8>, AllocError>
    ensures { IfOk result (λ id. id.items ≡ member_id_of client_id.now number) }
{
    let number = number.get();
    let digits = format!(in alloc; "{number}")?;
    let mut id = Vec::from_slice(alloc, client_id)?;
    id.push(b'-')?;
    id.extend_from_slice(digits.as_bytes())?;
    Ok(id)
}
