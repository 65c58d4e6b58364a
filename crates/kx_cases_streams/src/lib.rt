//! Cases of streams of frames that a machine serves (`kx_stream`).
#![tactic(auto)]

pub use files::try_streams;

mod ends;
mod files;
mod streams;
