//! Cases of clients (`kx_client`).
#![tactic(auto)]

pub use files::try_clients;

mod client;
mod files;
