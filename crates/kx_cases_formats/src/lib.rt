//! Cases of what bytes spell: numbers (`kx_varint`), the values, messages and frames of the wire
//! (`kx_wire`), and record batches (`kx_batch`).
#![tactic(auto)]

pub use files::try_formats;
pub use frames::message_of;

mod batches;
mod conversions;
mod files;
mod frames;
mod numbers;
mod values;
