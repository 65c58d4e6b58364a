//! Threads that look at a log while it grows.
use crate::seen::{Pace, Seen, Source, watch};
use std::alloc::{AllocError, Global};
use std::sync::atomic::{AtomicBool, Ordering};
use std::sync::{Arc, Wait};
use std::thread;
use std::thread::{JoinHandle, Threads};

/// Running threads that look at a log until it is over. They are ended by [`end`](Crowd::end).
pub(crate) struct Crowd<R: Threads + Wait> {
    rt: R,
    over: Arc<AtomicBool>,
    handles: Vec<JoinHandle<Seen>>,
}

impl<R: Threads + Wait + Copy> Crowd<R> {
    /// A crowd without readers.
    pub(crate) fn new(rt: R, alloc: Global) -> Result<Crowd<R>, AllocError> {
        Ok(Crowd {
            rt,
            over: Arc::new(alloc, AtomicBool::new(false))?,
            handles: Vec::new(alloc),
        })
    }

    /// Starts a thread that looks at this pace, and says whether it did.
    pub(crate) fn add<S: Source + Send + 'static>(&mut self, source: S, pace: Pace) -> bool {
        let Ok(over) = Arc::try_clone(&self.over) else {
            return false;
        };
        if self.handles.reserve(1).is_err() {
            return false;
        }
        let Ok(handle) = thread::spawn(&self.rt, move || watch(source, &over, pace)) else {
            return false;
        };
        self.handles.push_reserved(handle);
        true
    }

    /// Lets it be over, and gives what each thread saw.
    ///
    /// # Errors
    ///
    /// Only if memory runs out; then the threads have ended as well.
    pub(crate) fn end(self, alloc: Global) -> Result<Vec<Seen>, AllocError> {
        let Crowd { rt, over, handles } = self;
        over.store(true, Ordering::SeqCst);
        let mut all = Vec::new(alloc);
        let mut fits = true;
        for handle in handles {
            let seen = handle.join(&rt);
            fits = all.push(seen).is_ok() && fits;
        }
        if fits { Ok(all) } else { Err(AllocError) }
    }
}
