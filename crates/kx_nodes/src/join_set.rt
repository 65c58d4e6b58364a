//! Threads that are joined in the end.
ghost use Rattle.std.specs.Prelude.{◌<◌, OnOk, vec_len};
ghost use Rattle.std.specs.Vec.{vec_capacity};

use std::alloc::{AllocError, Global};
use std::sync::Wait;
use std::thread::{JoinHandle, Threads};

/// Threads that are joined in the end.
#[derive(Drop)]
pub struct JoinSet<R: Threads + Wait + Drop> {
    rt: R,
    handles: Vec<JoinHandle<()>>,
}

impl<R: Threads + Wait + Drop> JoinSet<R> {
    /// A set without threads.
    pub fn new(rt: R, alloc: Global) -> Self {
        JoinSet {
            rt,
            handles: Vec::new(alloc),
        }
    }

    /// Makes room for one more thread, so that none that runs is lost.
    pub fn make_room(&mut self) -> Result<(), AllocError>
        ensures { OnOk result (vec_len self.new.handles < vec_capacity self.new.handles) }
    {
        self.handles.reserve(1)
    }

    /// Takes a thread, for which there is room.
    pub fn push(&mut self, handle: JoinHandle<()>)
        requires { vec_len self.old.handles < vec_capacity self.old.handles }
    {
        self.handles.push_reserved(handle);
    }

    /// Waits until all have ended.
    pub fn join(self) {
        let JoinSet { rt, handles } = self;
        for handle in handles {
            handle.join(&rt);
        }
    }
}
