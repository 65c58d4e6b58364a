//! What is asked for.
use kx_bounded::Bounded;
use kx_relay::{Holding, Losses};

/// How many threads serve the nodes of the core, 1 to 16.
pub type WorkerCount = Bounded<1, 16>;

/// How many records each input partition has, 1 to 10,000.
pub type Records = Bounded<1, 10_000>;

/// What is asked for.
#[derive(Clone, Copy)]
pub struct PlayOptions {
    /// How many threads serve the nodes of the core.
    pub workers: WorkerCount,
    /// How many records each of the two input partitions has.
    pub records: Records,
    /// What the lost frames are drawn from, any u64.
    pub seed: u64,
    /// How many frames of a hundred are lost.
    pub lose: Losses,
    /// How many further frames go between a frame and its copy.
    pub hold: Holding,
}
