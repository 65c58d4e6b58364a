//! What a line of a script asks for that is no event.
use kx_message::{GroupId, NodeId, PartitionId};
use kx_text::Mode;

/// What an append that fails leaves in the store.
#[derive(Clone, Copy, Debug, PartialEq, Eq)]
pub enum Left {
    /// `none`: none of its bytes.
    Nothing,
    /// `whole`: all of them.
    Whole,
}

/// What a line of a script asks for that is no event: it changes no node.
#[derive(Drop)]
pub enum Order {
    /// `fail NODE MODE`: the next append of the node, but for that of a restart, fails.
    Fail(NodeId, Left),
    /// `fetch P FROM MODE [MAX]`: the records of a data partition from an offset on, in whole
    /// batches of at most this many bytes; all of them, or the committed ones.
    Fetch(PartitionId, i64, Mode, u32),
    /// `offset G Q MODE`: a group's committed offset of a data partition, and whether it has to be
    /// stable.
    Offset(GroupId, PartitionId, bool),
    /// `rows`: the rows of the coordinator.
    Rows,
}
