//! A gate that holds one step until another is answered.
use kx_nodes::{Gate, NodeFault, Receipt};
use std::alloc::{AllocError, Global};
use std::sync::Arc;
use std::sync::atomic::{AtomicBool, Ordering};
use std::thread;

// How often the gate looks before it lets a step pass all the same.
const TURNS: u32 = 1_000_000;

/// Holds the step of one ticket until that of another is answered, or until it has looked often
/// enough. No step has ticket 0.
#[derive(Drop)]
pub(crate) struct Hold {
    held: u64,
    until: u64,
    answered: AtomicBool,
    late: Arc<AtomicBool>,
}

impl Hold {
    /// A gate that has let nothing pass, and whether it ever gave up.
    pub(crate) fn new(
        alloc: Global,
        held: u64,
        until: u64,
    ) -> Result<(Hold, Arc<AtomicBool>), AllocError> {
        let late = Arc::new(alloc, AtomicBool::new(false))?;
        let gate = Hold {
            held,
            until,
            answered: AtomicBool::new(false),
            late: Arc::try_clone(&late)?,
        };
        Ok((gate, late))
    }
}

impl Gate for Hold {
    fn pass(&self, ticket: u64) {
        if ticket != self.held {
            return;
        }
        for _ in 0..TURNS {
            if self.answered.load(Ordering::SeqCst) {
                return;
            }
            thread::yield_now();
        }
        self.late.store(true, Ordering::SeqCst);
    }

    fn answered(&self, ticket: u64, answer: &Result<Receipt, NodeFault>) {
        if ticket == self.until && answer.is_ok() {
            self.answered.store(true, Ordering::SeqCst);
        }
    }
}
