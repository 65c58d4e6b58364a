//! The readers of a published log, which connections take in turn.
use crate::hub::ServedNode;
use kx_published::book::Naming;
use kx_published::ends::PageReader;
use kx_publishing::{PublishedNode, Readable};
use std::alloc::{AllocError, Global};
use std::sync::{Condvar, Mutex, Wait};

/// The most readers of one published log. Each publish looks at every reader, and a reader is taken
/// for no longer than it takes to copy a page, so there are few of them, however many connections
/// there are.
pub const MOST_READERS: usize = 16;

/// The readers of a published log that no connection has. None of them is in the log.
#[derive(Drop)]
pub struct Readers<J: Naming> {
    idle: Mutex<Vec<PageReader<J>>>,
    returned: Condvar,
}

impl<J: Naming> Readers<J> {
    /// This many readers of a node's published log.
    ///
    /// # Errors
    ///
    /// If they can't be had.
    pub fn of<L: Readable, R: Wait + Drop>(
        rt: &R,
        alloc: Global,
        node: &ServedNode<L, J, R>,
        count: usize,
    ) -> Result<Readers<J>, AllocError> {
        let mut idle = Vec::new(alloc);
        for _ in 0..count {
            let Ok(reader) = node.reader(rt) else {
                return Err(AllocError);
            };
            idle.push(reader)?;
        }
        Ok(Readers {
            idle: Mutex::new(idle),
            returned: Condvar::new(),
        })
    }

    /// Waits until a reader is idle, and takes it. Whoever takes one gives it back, and waits for
    /// nothing meanwhile.
    pub(crate) fn take<R: Wait>(&self, rt: &R) -> Option<PageReader<J>> {
        let mut idle = self
            .returned
            .wait_while(rt, self.idle.lock(rt), |idle| idle.is_empty());
        idle.pop()
    }

    /// Gives a reader back, which leaves the log.
    pub(crate) fn give_back<R: Wait>(&self, rt: &R, mut reader: PageReader<J>) {
        reader.leave();
        // There is room for it: it was one of these.
        let _ = self.idle.lock(rt).push(reader);
        self.returned.notify_one();
    }
}
