//! Nodes that threads share: each machine under a lock of its own, alone or with the trace of what
//! it took. A trace begins with the value by which its node was made, and has each input with the
//! mark of what the node's store did. So from the traces and the receipts it can be found out,
//! after the fact, that what the threads did was one schedule.
#![tactic(auto)]

mod fault;
mod gate;
mod handle;
mod join_set;
mod laws;
mod locked;
mod made;
mod mark;
mod node;
mod receipt;
mod shared;
mod trace;
mod traced;
mod untraced;
mod workers;

pub use fault::{HandFault, NodeFault};
pub use gate::Gate;
pub use handle::Handle;
pub use join_set::JoinSet;
pub use laws::{alike_nodes_answer_alike, traces_run_again, traces_tell_answers_and_logs};
pub use locked::Locked;
pub use made::{Made, ProcessorMaking};
pub use mark::Mark;
pub use node::Node;
pub use receipt::Receipt;
pub use trace::{Step, Trace};
pub use traced::{MOST_STEPS, Traced};
pub use untraced::Untraced;
pub use workers::Workers;
