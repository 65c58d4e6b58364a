//! Nodes whose logs are published: beside the machine, under the node's one lock, stands the
//! writer's end of its published log. Who holds a reader takes pages of the log without that lock.
//!
//! What is published is the machine's log as it is at the publish: after each step of a server's
//! node, and else when it is asked for.
#![tactic(auto)]

mod fault;
mod growing;
mod logging;
mod node;
mod opened;
mod published_machine;
mod readable;

pub use fault::PublishFault;
pub use logging::Logging;
pub use node::PublishedNode;
pub use opened::wrote_itself;
pub use published_machine::{PublishedMachine, Publishes, Served, Tended, marker_comes_right};
pub use readable::Readable;
