//! What a node answers to whoever hands it an input.
use kx_machine::{Input, Taken};
use kx_message::NodeId;

/// What a step answers its caller.
#[derive(Drop)]
pub struct Receipt {
    /// The node that took the input.
    pub node: NodeId,
    /// The step's place in the node's trace, from 0; 0 if the node keeps no trace.
    pub place: usize,
    /// The caller's own input.
    pub input: Input,
    /// What the node answered.
    pub taken: Taken,
}
