//! Who waits for something to be appended to a partition.
use kx_message::{NodeId, PartitionId};
use std::alloc::{AllocError, Global};
use std::sync::{Arc, Condvar, Mutex, Wait};
use std::time::{Clock, Duration};

/// Wakes the thread that waits for it.
#[derive(Drop)]
pub struct Waker {
    number: usize,
    is_woken: Mutex<bool>,
    moved: Condvar,
}

impl Waker {
    /// The waker of the connection of this number, which wasn't woken.
    pub fn new(number: usize) -> Waker {
        Waker {
            number,
            is_woken: Mutex::new(false),
            moved: Condvar::new(),
        }
    }

    /// Wakes whoever waits, now or at the next wait.
    pub fn wake<R: Wait>(&self, rt: &R) {
        *self.is_woken.lock(rt) = true;
        self.moved.notify_all();
    }

    /// Forgets that it was woken.
    pub fn reset<R: Wait>(&self, rt: &R) {
        *self.is_woken.lock(rt) = false;
    }

    /// Waits until it is woken, or for this long.
    pub fn wait<R: Wait + Clock>(&self, rt: &R, patience: Duration) {
        let _ = self.moved.wait_timeout_while(
            rt,
            self.is_woken.lock(rt),
            patience,
            |is_woken| !*is_woken,
        );
    }
}

// Who waits for one partition.
#[derive(Drop)]
struct Watch {
    partition: PartitionId,
    wakers: Mutex<Vec<Arc<Waker>>>,
}

/// Who waits for something to be appended to which data partition.
#[derive(Drop)]
pub(crate) struct Watches {
    watches: Vec<Watch>,
}

impl Watches {
    /// Nobody waits.
    pub(crate) fn new(alloc: Global) -> Result<Watches, AllocError> {
        let mut watches = Vec::new(alloc);
        for number in 0..PartitionId::DATA_COUNT {
            if let Ok(partition) = PartitionId::try_from(number) {
                watches.push(Watch {
                    partition,
                    wakers: Mutex::new(Vec::new(alloc)),
                })?;
            }
        }
        Ok(Watches { watches })
    }

    // The watch of a partition.
    fn of(&self, partition: PartitionId) -> Option<&Watch> {
        self.watches
            .iter()
            .find(|watch| watch.partition == partition)
    }

    /// The next append to the partition wakes this waker, once.
    pub(crate) fn add<R: Wait>(
        &self,
        rt: &R,
        partition: PartitionId,
        waker: Arc<Waker>,
    ) -> Result<(), AllocError> {
        let Some(watch) = self.of(partition) else {
            return Ok(());
        };
        Ok(watch.wakers.lock(rt).push(waker)?)
    }

    /// No append to the partition wakes the waker of this connection any more.
    pub(crate) fn remove<R: Wait>(&self, rt: &R, partition: PartitionId, number: usize) {
        if let Some(watch) = self.of(partition) {
            watch.wakers.lock(rt).retain(|waker| waker.number != number);
        }
    }

    /// Wakes whoever waits for the partition of this name.
    pub(crate) fn wake<R: Wait>(&self, rt: &R, name: NodeId) {
        let NodeId::Partition(partition) = name else {
            return;
        };
        let Some(watch) = self.of(partition) else {
            return;
        };
        let mut wakers = watch.wakers.lock(rt);
        for waker in wakers.iter() {
            waker.wake(rt);
        }
        wakers.clear();
    }
}
