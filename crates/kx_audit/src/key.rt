//! Names of nodes as keys of hash tables.
use kx_message::{ClientId, NodeId, PartitionId};

/// A node's name, by which hash tables find it.
#[derive(Clone, Copy, PartialEq, Eq, Hash)]
pub(crate) enum NodeKey {
    /// The coordinator.
    Coordinator,
    /// A partition.
    Partition(PartitionId),
    /// A client.
    Client(ClientId),
}

/// The key of a name.
impl From<NodeId> for NodeKey {
    ghost use Rattle.std.specs.Prelude.{◌≡◌};
    ghost use Rattle.kx_audit.specs.Keys.{key_of};

    ghost from_gives = { λ node key. key ≡ key_of node };

    fn from(node: NodeId) -> Self {
        match node {
            NodeId::Coordinator => NodeKey::Coordinator,
            NodeId::Partition(number) => NodeKey::Partition(number),
            NodeId::Client(number) => NodeKey::Client(number),
        }
    }
}
