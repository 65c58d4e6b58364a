//! The traces of a server's nodes.
ghost use Rattle.std.specs.Prelude.{◌≡◌, IfOk, IsTrue, MatchOption, false};
ghost use Rattle.kx_recording.specs.Recorded.{GoesOn};
ghost use Rattle.kx_serve.specs.Opening.{StandsForCoordinator};

use crate::fault::ServeFault;
use kx_log::Store;
use kx_machine::Input;
use kx_machines::BrokerMachine;
use kx_recording::{Recording, Written};
use kx_trace::TracedNode;
use kx_trace_files::{
    OpenedTrace, TraceFile, TraceFileFault, TraceName, open_trace, write_reopened,
};
use std::alloc::{AllocError, Global};
use std::fs;
use std::fs::{File, Files};

/// The machine of a node, whose steps are written to a trace, if there is one.
pub(crate) type ServerMachine<S, R> = Recording<BrokerMachine<S>, TraceFile<R>>;

/// What is under the lock of a node, each of whose steps is recorded.
pub(crate) type WrittenMachine<S, R> = Written<BrokerMachine<S>, TraceFile<R>>;

/// A machine whose steps are written to this trace, if there is one.
pub(crate) fn recorded<S: Store, R: Eprint + Drop>(
    alloc: Global,
    machine: BrokerMachine<S>,
    trace: Option<TraceFile<R>>,
) -> ServerMachine<S, R>
    ensures machine { result.machine ≡ machine }
    ensures writes { MatchOption trace (result.writes ≡ false) (λ t. IsTrue result.writes) }
{
    match trace {
        None => Recording::untraced(machine),
        Some(trace) => Recording::traced(alloc, machine, trace),
    }
}

/// Takes the first step of a coordinator's trace, a restart at this time, which sets its clock.
///
/// # Errors
///
/// `Memory` if there was no step.
pub(crate) fn restarted<S: Store, R: Eprint + Drop>(
    mut machine: ServerMachine<S, R>,
    time: u64,
) -> Result<ServerMachine<S, R>, ServeFault>
    ensures stands { StandsForCoordinator machine → IfOk result StandsForCoordinator }
    ensures goes_on { IfOk result (GoesOn machine) }
{
    let restart = Input::Restart(time);
    let taken = machine.record(&restart);
    drop(restart);
    match taken {
        Ok(taken) => {
            drop(taken);
            Ok(machine)
        }
        Err(_) => {
            drop(machine);
            Err(ServeFault::Memory)
        }
    }
}

// A fault of the trace of a node.
fn fault_of(node: &TracedNode, fault: TraceFileFault) -> ServeFault {
    match fault {
        TraceFileFault::Memory => ServeFault::Memory,
        fault => ServeFault::Trace {
            file: TraceName { node: *node },
            fault,
        },
    }
}

/// The folder of the traces of a server's nodes.
#[derive(Drop)]
pub(crate) struct Traces<'a, R: Drop> {
    pub(crate) rt: R,
    pub(crate) alloc: Global,
    pub(crate) dir: &'a str,
    /// whether the logs outlive the process
    pub(crate) outlives: bool,
    /// the time, in milliseconds since 1970
    pub(crate) time: u64,
}

impl<'a, R: Files<File = File> + AllocGlobal + Eprint + Copy + Drop> Traces<'a, R> {
    /// Whether there is a trace of a node.
    pub(crate) fn has(&self, node: &TracedNode) -> Result<bool, AllocError> {
        let path = TraceName { node: *node }.path_in(self.alloc, self.dir)?;
        Ok(fs::metadata(&self.rt, path.as_str()).is_ok())
    }

    /// The trace of a node, which is made if there is none.
    pub(crate) fn open(&self, node: &TracedNode) -> Result<OpenedTrace<R>, ServeFault> {
        match open_trace(&self.rt, self.dir, *node) {
            Ok(trace) => Ok(trace),
            Err(fault) => Err(fault_of(node, fault)),
        }
    }

    // Writes that the node is opened again on a log with this many bytes.
    fn write_restart(
        &self,
        node: &TracedNode,
        trace: &mut TraceFile<R>,
        log_len: u64,
    ) -> Result<(), ServeFault> {
        match write_reopened(self.alloc, trace, self.time, log_len) {
            Ok(()) => Ok(()),
            Err(fault) => Err(fault_of(node, fault)),
        }
    }

    /// The trace of a node goes on: its log is opened again, with this many bytes. Refuses a trace
    /// of a log that was in memory.
    pub(crate) fn go_on(
        &self,
        mut file: TraceFile<R>,
        log_len: u64,
    ) -> Result<TraceFile<R>, ServeFault> {
        let TraceName { node } = file.name();
        if !self.outlives {
            return Err(ServeFault::Gone {
                file: TraceName { node },
            });
        }
        self.write_restart(&node, &mut file, log_len)?;
        Ok(file)
    }

    /// The trace of a node begins on a log with these bytes, which is opened now.
    pub(crate) fn begin_on(
        &self,
        mut file: TraceFile<R>,
        log: &[u8],
    ) -> Result<TraceFile<R>, ServeFault> {
        let TraceName { node } = file.name();
        match file.begin_on(self.alloc, self.time, log) {
            Ok(()) => Ok(file),
            Err(fault) => Err(fault_of(&node, fault)),
        }
    }
}
