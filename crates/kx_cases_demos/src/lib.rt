//! Demonstrations as cases: what each has to print, and what happened in it, by its trace.
#![tactic(auto)]

mod demos;
mod events;
mod happened;

pub use demos::try_demo;
pub use happened::Happened;
