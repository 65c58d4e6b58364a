//! Whole numbers within bounds that their type names.
#![tactic(auto)]

mod bounded;

pub use bounded::Bounded;
