//! Worlds that are watched while events happen in them, so that a page can show what ran.
//!
//! `world` watches the events of a world, `events` a list of them, `script` the events of a script, and `server`
//! the steps of a server whose clients are outside, with what of its messages is on the way (`transit`).
#![tactic(auto)]

mod events;
mod script;
mod server;
mod transit;
mod world;

pub use events::run_of_events;
pub use script::run_of_script;
pub use world::{Watched, all_partitions};
