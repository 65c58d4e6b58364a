//! Scripts over one node whose log is published: what readers get of the published log, on one
//! thread and on many.
#![tactic(auto)]

pub use shown::try_shown;

mod crowd;
mod locked;
mod pages;
mod puts;
mod seen;
mod session;
mod shown;
