//! Cases of what logs keep: the open and the aborted transactions of a partition (`kx_open`,
//! `kx_aborted`), its producers (`kx_producer`), its log (`kx_log`), and the entries and the log of
//! the transaction coordinator (`kx_txnlog`).
#![tactic(auto)]

pub use files::try_logs;

mod aborted;
mod entries;
mod files;
mod logs;
mod open;
mod producers;
mod stores;
mod sweeps;
mod txnlogs;
mod words;
