//! The producer ids that the logs of partitions named as the server began. The coordinator may allocate
//! them again, if its own log was missing, and no client is to be given one.
ghost use Rattle.std.specs.Prelude.{◌≡◌};
ghost use Rattle.kx_kafka_server.specs.Named.{is_past};

use kx_message::{Held, ProducerId};
use std::sync::{Mutex, Wait};

/// The ids that were named, and whether the coordinator allocates none of them any more.
#[derive(Drop)]
pub(crate) struct Named {
    // one above the greatest
    above: u64,
    passed: Mutex<bool>,
}

// Whether the ids after this one, which the coordinator allocated, are all above those that were named,
// of which this is one above the greatest.
fn is_past(above: u64, id: ProducerId) -> bool
    ensures { result ≡ is_past above id }
{
    above <= id.get() as u64 + 1
}

impl Named {
    /// The ids below `above`; `left` of them are still to be allocated.
    pub(crate) fn below(above: u64, left: u32) -> Named {
        Named {
            above,
            passed: Mutex::new(left == 0),
        }
    }

    /// Whether the coordinator allocates none of them any more.
    pub(crate) fn are_passed<R: Wait>(&self, rt: &R) -> bool {
        *self.passed.lock(rt)
    }

    /// The coordinator allocated an id.
    pub(crate) fn note<R: Wait>(&self, rt: &R, held: Held) {
        if is_past(self.above, held.id) {
            *self.passed.lock(rt) = true;
        }
    }
}
