//! Steps that whoever runs a server asks for, and no client may.
use crate::hub::Hub;
use kx_machine::Input;
use kx_message::{ClientId, GroupId, NodeId, PartitionId};
use kx_published::book::Naming;
use kx_publishing::Readable;
use std::sync::{Arc, Wait};

/// Takes steps of a server's nodes that no client may ask for.
#[derive(Drop)]
pub struct Operator<L: Readable, J: Naming, R: Wait + Drop> {
    hub: Arc<Hub<L, J, R>>,
}

impl<L: Readable, J: Naming, R: Wait + Drop> Operator<L, J, R> {
    // Of the server whose threads share this.
    pub(crate) fn of(hub: Arc<Hub<L, J, R>>) -> Self {
        Operator { hub }
    }

    /// Drops a member of a group, as a coordinator of groups does with one that was silent for too
    /// long. Says whether there was memory for the step.
    pub fn drop_member(&self, rt: &R, group: GroupId, member: ClientId) -> bool {
        let offsets = NodeId::Partition(PartitionId::OFFSETS);
        self.hub
            .step(rt, offsets, Input::Drop(group, member))
            .is_some()
    }
}
