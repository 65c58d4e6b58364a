//! What a caller's proof learns of the values of the wire: of a conversion and of the way back, of
//! comparisons, of keys and of text. The steps on values go through these functions.
ghost use Rattle.std.specs.Prelude.{◌≡◌, ◌↔◌, ◌<◌, ℕ, IsTrue, IfOk, unwrap_or, nat_eq};
ghost use Rattle.std.specs.Prelude.{string_bytes};
ghost use Rattle.std.specs.Ordering.{nat_cmp};
ghost use Rattle.std.specs.Cmp.Lexicographic.{pointwise, slice_cmp};
ghost use Rattle.std.specs.BTreeMap as tree;
ghost use Rattle.std.specs.HashMap as table;
ghost use Rattle.kx_wire.specs.Ranges.{IsDataPartition, IsTimeout, offsets_partition};
ghost use Rattle.kx_wire.specs.Ranges.{partition_text};
ghost use Rattle.kx_message.specs.declared.fault.ValueFault.{ValueFault};

use kx_wire::{
    Epoch, ErrorCode, GroupId, Outcome, PartitionId, ProducerId, Timeout, TxnId, ValueFault,
};
use std::alloc::{AllocError, Global};
use std::collections::{BTreeMap, HashMap};

/// The data partition of a number below 16.
pub fn data_partition(number: u16) -> PartitionId
    requires { IsDataPartition number }
    ensures { result ≡ number }
{
    PartitionId::try_from(number).unwrap()
}

/// The offsets partition.
pub fn offsets() -> PartitionId
    ensures { result ≡ offsets_partition }
{
    PartitionId::OFFSETS
}

/// The milliseconds of a timeout of this number.
pub fn millis_of(number: u32) -> Result<u32, ValueFault>
    ensures ok { IsTimeout number → result ≡ Ok number }
    ensures err { number ≡ 0 → result ≡ Err ValueFault.Timeout }
{
    let timeout: Timeout = number.try_into()?;
    Ok(timeout.get())
}

/// The id that the number of an id is.
pub fn reread_id(id: ProducerId) -> Result<ProducerId, ValueFault>
    ensures { result ≡ Ok id }
{
    ProducerId::try_from(id.get())
}

/// The transactional id that the bytes of one are.
pub fn reread_txn(id: TxnId) -> Result<TxnId, ValueFault>
    ensures { result ≡ Ok id }
{
    TxnId::try_from(id.as_bytes())
}

/// The outcome that the byte of one is.
pub fn reread_outcome(outcome: Outcome) -> Result<Outcome, ValueFault>
    ensures { result ≡ Ok outcome }
{
    Outcome::try_from(outcome.get())
}

/// The error code that the number of one is.
pub fn reread_code(code: ErrorCode) -> Result<ErrorCode, ValueFault>
    ensures { result ≡ Ok code }
{
    ErrorCode::try_from(code.number())
}

/// Whether the first epoch is above the second.
pub fn is_newer(a: Epoch, b: Epoch) -> bool
    ensures { IsTrue result ↔ (b < a) }
{
    a > b
}

/// Whether both are one transactional id.
pub fn is_same(a: TxnId, b: TxnId) -> bool
    ensures { IsTrue result ↔ (a ≡ b) }
{
    a == b
}

/// What is kept of a transactional id, 0 if nothing is.
pub fn count_in(counts: &BTreeMap<TxnId, u64>, id: TxnId) -> u64
    ensures { result ≡ unwrap_or (tree.get (slice_cmp nat_cmp) counts.now id) 0 }
{
    counts.get(&id).copied().unwrap_or(0)
}

/// What is kept of a producer, 0 if nothing is.
pub fn last_in(lasts: &BTreeMap<ProducerId, u64>, id: ProducerId) -> u64
    ensures { result ≡ unwrap_or (tree.get nat_cmp lasts.now id) 0 }
{
    lasts.get(&id).copied().unwrap_or(0)
}

/// What is kept of a group, 0 if nothing is.
pub fn members_in(members: &HashMap<GroupId, u64>, group: GroupId) -> u64
    ensures { result ≡ unwrap_or (table.get (pointwise nat_eq) members.now group) 0 }
{
    members.get(&group).copied().unwrap_or(0)
}

/// A partition as it is printed.
pub fn text_of(alloc: Global, partition: PartitionId) -> Result<String, AllocError>
    ensures { IfOk result (λ text. string_bytes text ≡ partition_text partition) }
{
    format!(in alloc; "{partition}")
}
