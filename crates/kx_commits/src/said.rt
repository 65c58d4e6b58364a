//! An offset that a batch says.

use kx_message::{GroupId, PartitionId};

/// An offset of a group and an input partition that a batch of a transaction says (KIP-447).
#[derive(Clone, Copy, Debug, PartialEq, Eq)]
pub struct SaidOffset {
    /// The group.
    pub group: GroupId,
    /// The partition that the group reads.
    pub partition: PartitionId,
    /// The offset, any i64.
    pub offset: i64,
    /// The offset of the batch in the offsets partition's log.
    pub at: u64,
}
