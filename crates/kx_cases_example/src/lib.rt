//! Cases of the example of `docs/USING.md` (`kx_example`).
#![tactic(auto)]

pub use files::try_example;

mod example;
mod files;
