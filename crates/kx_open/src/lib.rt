//! What a partition keeps of the transactions that are open in its log: whose they are, and the
//! offsets at which they begin. The earliest of these is the log's last stable offset.
#![tactic(auto)]

mod fault;
mod law;
mod open;

pub use fault::BeginFault;
pub use law::the_list_follows_the_log;
pub use open::{OPEN_LIMIT, OpenTxn, OpenTxns};
