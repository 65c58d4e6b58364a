//! Bytes as stores hold them: in memory, and in memory that is made to fail.
use kx_log::{FaultStore, MemStore};

/// A store in memory that fails if it is told to.
pub type FailingStore = FaultStore<MemStore>;

/// A store that holds these bytes, and whose `nth` append fails and leaves `keep` bytes; none for
/// 0.
pub fn failing(bytes: Vec<u8>, nth: u64, keep: u64) -> FailingStore {
    FaultStore::new(MemStore::new(bytes), nth, keep)
}
