//! The log of what is under a node's lock, as a published log grows by it.
use crate::readable::Readable;
use kx_log::LogSlices;
use kx_published::log::GrownLog;

// The log of record batches of what is under a lock.
#[derive(Drop)]
pub(crate) struct Growing<'a, L: Readable> {
    pub(crate) locked: &'a L,
}

impl<'a, L: Readable> GrownLog for Growing<'a, L> {
    ghost log = { λ g. L.log g.locked.now };

    fn end(&self) -> i64 {
        self.locked.log_end()
    }

    fn batches_from(&self, from: i64, max: u32) -> LogSlices<'_> {
        self.locked.batches_from(from, max)
    }
}
