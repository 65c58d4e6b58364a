//! The demonstration: what was played over loopback is audited, and what the audited run has is
//! counted and printed.
//!
//! `counting` and `report` count and print, `fault` is what may fail, `events` writes down what
//! happened, with `arrivals`, which messages came to their nodes, and `pages` draws it.
#![tactic(auto)]

mod arrivals;
mod counting;
mod events;
mod fault;
mod pages;
mod report;

pub use counting::{Counts, Found, count};
pub use events::write_run;
pub use fault::DemoFault;
pub use pages::write_page;
pub use report::demo;
