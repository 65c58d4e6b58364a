//! What is under a node's lock, as whoever publishes its log reads it.
use crate::logging::Logging;
use kx_log::LogSlices;
use kx_machine::Machine;
use kx_nodes::{Locked, Made, Traced, Untraced};
use kx_recording::Written;
use std::io::Write;

/// What is under a node's lock, whose log of record batches can be read.
pub trait Readable: Locked {
    ghost use Rattle.std.specs.Prelude.{◌≡◌, List, pos};
    ghost use Rattle.kx_log.specs.Slices.{sliced};
    ghost use Rattle.kx_machine.specs.Logs.{batches_of};
    ghost use Rattle.kx_machine.specs.Meaning.{NodeState, is_closed};
    ghost use Rattle.kx_model.specs.Log.{Stored, end, entries};
    ghost use Rattle.kx_model.specs.Produce.{greatest_offset};

    // the record batches of its log
    ghost log: { Self → List Stored };

    /// Whether its log is closed, and waits for a restart.
    fn is_closed(&self) -> bool
        ensures { (state : NodeState) → Self.stands state self.now → result ≡ is_closed state };

    /// The offset after the last record batch of its log, 0 to 2^63 - 1.
    fn log_end(&self) -> i64
        ensures { result ≡ pos (end (entries (log self.now))) };

    /// The record batches of its log, borrowed: from the one that holds an offset on, as many as
    /// have at most `max` bytes in all, and at least one if there is one.
    fn batches_from(&self, from: i64, max: u32) -> LogSlices<'_>
        ensures { result ≡ sliced (log self.now) from (pos greatest_offset) max };

    // The batches are those of each node for which it stands.
    ghost log_is: { (locked : Self) (state : NodeState) → Self.Locked.stands state locked
        → log locked ≡ batches_of state };
}

impl<M: Logging> Readable for Untraced<M> {
    ghost use Rattle.kx_publishing.specs.Readable.{untraced_log_is};

    ghost log = { λ untraced. M.log untraced.machine };

    ghost log_is = { untraced_log_is M.log_is };

    fn is_closed(&self) -> bool {
        self.machine().is_closed()
    }

    fn log_end(&self) -> i64 {
        self.machine().log_end()
    }

    fn batches_from(&self, from: i64, max: u32) -> LogSlices<'_> {
        self.machine().batches_from(from, max)
    }
}

impl<M: Logging, B: Made> Readable for Traced<M, B> {
    ghost use Rattle.kx_publishing.specs.Readable.{traced_log_is};

    ghost log = { λ traced. M.log traced.machine };

    ghost log_is = { traced_log_is B.state M.log_is };

    fn is_closed(&self) -> bool {
        self.machine().is_closed()
    }

    fn log_end(&self) -> i64 {
        self.machine().log_end()
    }

    fn batches_from(&self, from: i64, max: u32) -> LogSlices<'_> {
        self.machine().batches_from(from, max)
    }
}

/// The log of a machine whose steps are written is the machine's own.
impl<M: Logging, W: Write + Drop> Readable for Written<M, W> {
    ghost use Rattle.kx_publishing.specs.Readable.{written_log_is};

    ghost log = { λ written. M.log written.machine.machine };

    ghost log_is = { written_log_is M.log_is };

    fn is_closed(&self) -> bool {
        self.machine().is_closed()
    }

    fn log_end(&self) -> i64 {
        self.machine().log_end()
    }

    fn batches_from(&self, from: i64, max: u32) -> LogSlices<'_> {
        self.machine().batches_from(from, max)
    }
}
