//! Which appends of nodes are to fail.
//!
//! The mark is told to the store anew in each step, so a schedule is all that has to be said of a
//! run.
ghost use Rattle.std.specs.Prelude.{◌≡◌, ℕ, Option};
ghost use Rattle.kx_machine.specs.Stores.{IsMode};
ghost use Rattle.kx_model.specs.Disk.{Store};
ghost use Rattle.kx_script.specs.Session.{mark_at, no_marks, store_of, with_mark};

use crate::order::Left;
use kx_machine::StoreMode;
use kx_message::NodeId;

/// Of each node what its next append leaves in its store, if it is to fail. What a restart
/// appends doesn't count.
#[derive(Drop)]
pub struct Marks {
    /// Of the coordinator.
    pub coordinator: Option<Left>,
    /// Of the data partitions.
    pub partitions: [Option<Left>; 16],
    /// Of the offsets partition.
    pub offsets: Option<Left>,
}

impl Marks {
    /// Marks by which no append fails.
    pub fn none() -> Marks
        ensures { result ≡ no_marks }
    {
        Marks {
            coordinator: None,
            partitions: [None; 16],
            offsets: None,
        }
    }

    /// What the next append of a node is to leave, if it is to fail.
    pub fn at(&self, node: &NodeId) -> Option<Left>
        ensures { result ≡ mark_at self.now node.now }
    {
        match node {
            NodeId::Coordinator => self.coordinator,
            NodeId::Partition(partition) if !partition.is_data() => self.offsets,
            NodeId::Partition(partition) => self.partitions[partition.get() as usize],
            NodeId::Client(_) => None,
        }
    }

    /// Lets the next append of a node fail, or takes that back.
    pub fn set(&mut self, node: &NodeId, mark: Option<Left>)
        ensures { self.new ≡ with_mark self.old node.now mark }
    {
        match node {
            NodeId::Coordinator => self.coordinator = mark,
            NodeId::Partition(partition) if !partition.is_data() => self.offsets = mark,
            NodeId::Partition(partition) => self.partitions[partition.get() as usize] = mark,
            NodeId::Client(_) => {}
        }
    }
}

// What a node's store does in a step, if its next append is to fail or not.
pub(crate) fn mode_of(mark: Option<Left>) -> StoreMode
    ensures { (size : Option ℕ) (store : Store) → IsMode result size store
        → store ≡ store_of mark }
{
    match mark {
        None => StoreMode::Works,
        Some(Left::Nothing) => StoreMode::Fails { keep: 0 },
        Some(Left::Whole) => StoreMode::Fails { keep: u64::MAX },
    }
}
