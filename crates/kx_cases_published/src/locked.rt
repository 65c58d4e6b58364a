//! Pages of a log that is under a lock alone, to compare with pages of a published one.
use crate::crowd::Crowd;
use crate::puts::{VALUE, values_of};
use crate::seen::{Look, Pace, Source, tell_pages};
use kx_broker::PartitionMachine;
use kx_cases::StepFault;
use kx_log::Store;
use kx_machine::{Input, Machine};
use kx_nodes::{Made, Traced};
use std::alloc::{AllocError, Global};
use std::sync::{Arc, Mutex, Wait};
use std::thread::Threads;

/// A machine of whose log pages can be taken.
pub(crate) trait Paged: Machine {
    /// Where a page of committed records from 0 ends, which has at most `max` bytes.
    fn page_end(&self, max: u32) -> Option<i64>;
}

impl<S: Store> Paged for PartitionMachine<S> {
    fn page_end(&self, max: u32) -> Option<i64> {
        match self.partition().fetch(0, max, true) {
            Ok(page) => Some(page.next()),
            Err(_) => None,
        }
    }
}

// A node under a lock. It keeps the handle, since a look waits for the lock.
#[derive(Drop)]
struct Shared<M: Paged, B: Made, R: Wait + Drop> {
    rt: R,
    node: Arc<Mutex<Traced<M, B>>>,
}

// A page is taken under the lock.
impl<M: Paged, B: Made, R: Wait + Drop> Source for Shared<M, B, R> {
    fn look(&mut self, max: u32) -> Option<Look> {
        let locked = self.node.lock(&self.rt);
        let machine = locked.machine();
        Some(Look {
            number: 0,
            end: machine.log_end(),
            page: machine.page_end(max),
        })
    }
}

// Starts threads that take pages under the lock.
fn join_in<
    M: Paged + Send + Sync + 'static,
    B: Made + Send + Sync + 'static,
    R: Threads + Wait + Copy + Send + 'static,
>(
    rt: R,
    node: &Arc<Mutex<Traced<M, B>>>,
    crowd: &mut Crowd<R>,
    readers: usize,
) -> Result<(), AllocError> {
    for _ in 0..readers {
        let node = Arc::try_clone(node)?;
        if !crowd.add(Shared { rt, node }, Pace::Fast) {
            return Err(AllocError);
        }
    }
    Ok(())
}

// Puts batches under the lock.
fn grow<M: Machine, B: Made, R: Wait>(
    rt: &R,
    alloc: Global,
    node: &Mutex<Traced<M, B>>,
    count: u64,
) -> Result<(), AllocError> {
    for _ in 0..count {
        let input = Input::Put(values_of(alloc, VALUE)?);
        if let Err(_) = node.lock(rt).record(input) {
            return Err(AllocError);
        }
    }
    Ok(())
}

/// Has threads take pages under a node's lock, while batches are put under it, and
/// reports how many they took.
pub(crate) fn compare<
    M: Paged + Send + Sync + 'static,
    B: Made + Send + Sync + 'static,
    R: Threads + Wait + Copy + Send + 'static,
>(
    rt: R,
    alloc: Global,
    node: Traced<M, B>,
    readers: usize,
    count: u64,
) -> Result<String, StepFault> {
    let node = Arc::new(alloc, Mutex::new(node))?;
    let mut crowd = Crowd::new(rt, alloc)?;
    let mut done = join_in(rt, &node, &mut crowd, readers);
    if done.is_ok() {
        done = grow(&rt, alloc, &node, count);
    }
    let seen = crowd.end(alloc)?;
    done?;
    let mut told = String::new(alloc);
    tell_pages(&mut told, seen.as_slice())?;
    Ok(told)
}
