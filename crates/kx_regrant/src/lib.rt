//! What a stock Kafka producer with a transactional id holds after a restart, read from the
//! coordinator's log.
#![tactic(auto)]

mod laws;
mod regrant;

pub use laws::{the_coordinator_raises_pairs, the_last_grant_is_read_again};
pub use regrant::{Regrant, granted_again};
