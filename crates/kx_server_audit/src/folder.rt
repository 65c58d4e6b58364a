//! The logs that a server left.
ghost use Rattle.std.specs.Prelude.{◌≡◌, ◌≢◌, ◌∷◌, ◌<◌, [], All, IfErr, IfOk, IfSome, MatchOption, OnOk};
ghost use Rattle.std.specs.Prelude.{Some, drop, map, slice_get};
ghost use Rattle.kx_machine.specs.Meaning.{NodeState};
ghost use Rattle.kx_machines.specs.Brokers.{broker_stands};
ghost use Rattle.kx_server_audit.specs.Contents.{CanBeLog};
ghost use Rattle.kx_server_audit.specs.Denials.{IfNo, IsLogDenied, IsOther, IsOtherLogOf};
ghost use Rattle.kx_server_audit.specs.Finding.{AreSeen, HasTrace};
ghost use Rattle.kx_server_audit.specs.Internal.{AreBad, HasBadLog, Notes, head_in};
ghost use Rattle.kx_server_audit.specs.Logs.{LogIs};
ghost use Rattle.kx_server_audit.specs.Telling.{HasLog, HaveLogs};
ghost use Rattle.kx_server_audit.specs.declared.denial.Denial.TheVariants.{OtherLog};
ghost use Rattle.kx_server_audit.specs.declared.file.AuditFile.TheVariants as file;
ghost use Rattle.kx_trace_audit.specs.declared.servers.TraceOf.{TraceOf};

use crate::denial::{Denial, Stop};
use crate::fault::AuditFault;
use crate::file::AuditFile;
use crate::left::{ServerFiles, read_fault};
use crate::logs::{log_is, whole_len};
use kx_machines::{BrokerMachine, LocalStore};
use kx_trace::TracedNode;
use kx_trace_audit::TraceOf;
use std::alloc::Global;
use std::io::Read;

// All that a file has left.
fn bytes_of<I: Read + Drop>(
    alloc: Global,
    mut reader: I,
    file: AuditFile,
) -> Result<Vec<u8>, AuditFault>
    ensures { IfOk result (λ bytes. IfSome (I.remaining reader) (λ all. bytes.items ≡ all)) }
{
    let mut bytes = Vec::new(alloc);
    match reader.read_to_end(&mut bytes) {
        Ok(_) => Ok(bytes),
        Err(error) => Err(read_fault(file, error.kind())),
    }
}

// The bytes of a node's log; none if there is no file.
fn log_bytes<F: ServerFiles>(
    files: &F,
    alloc: Global,
    node: &TracedNode,
) -> Result<Vec<u8>, AuditFault>
    ensures { IfOk result (λ bytes. CanBeLog (F.left files.now (file.Log node.now)) bytes.items) }
{
    match files.open(alloc, AuditFile::Log(*node))? {
        Some(opened) => bytes_of(alloc, opened, AuditFile::Log(*node)),
        None => Ok(Vec::new(alloc)),
    }
}

// The number of the trace of a node.
fn trace_of(of: &[TraceOf], node: &TracedNode) -> Option<usize>
    ensures { MatchOption result (HasTrace of.now node.now → ⊥)
        (λ k. (t : TraceOf) × (slice_get of.now k ≡ Some t) × (t.node ≡ node.now)) }
{
    for number in 0..of.len() {
        if of[number].node == *node {
            return Some(number);
        }
    }
    None
}

// Notes how long the log of a node is whose bytes these are. A log with no trace beside it is empty.
fn note_log(
    alloc: Global,
    of: &mut Vec<TraceOf>,
    node: &TracedNode,
    bytes: Vec<u8>,
) -> Result<(), Stop>
    ensures noted { OnOk result (Notes node.now bytes.items of.old.items of.new.items) }
    ensures no { IfErr result (λ stop. IfNo stop (λ d.
        (d ≡ OtherLog node.now) × AreBad of.old.items node.now bytes.items)) }
{
    let Some(trace) = trace_of(of.as_slice(), node) else {
        if bytes.is_empty() {
            return Ok(());
        }
        return Err(Stop::No(Denial::OtherLog(*node)));
    };
    match whole_len(alloc, *node, bytes)? {
        Some(len) => {
            of[trace].log_len = Some(len);
            Ok(())
        }
        None => Err(Stop::No(Denial::OtherLog(*node))),
    }
}

/// Notes how long the logs of these nodes are.
pub(crate) fn note_logs<F: ServerFiles>(
    files: &F,
    alloc: Global,
    nodes: &[TracedNode],
    of: &mut Vec<TraceOf>,
) -> Result<(), Stop>
    ensures heads { OnOk result (map head_in of.new.items ≡ map head_in of.old.items) }
    ensures seen { OnOk result (AreSeen (F.left files.now) of.new.items nodes.now) }
    ensures no { IfErr result (λ stop. IfNo stop
        (HasBadLog (F.left files.now) nodes.now of.old.items)) }
{
    for node in nodes {
        let bytes = log_bytes(files, alloc, node)?;
        note_log(alloc, of, node, bytes)?;
    }
    Ok(())
}

// Compares these bytes with the log of the machine to which the node's trace led.
fn compare_bytes(
    alloc: Global,
    machine: &mut BrokerMachine<LocalStore>,
    node: TracedNode,
    bytes: Vec<u8>,
) -> Result<(), Stop>
    ensures ok { OnOk result ((state : NodeState) → broker_stands state machine.old
        → LogIs state bytes.items) }
    ensures no { IfErr result (λ stop. IfNo stop (λ d.
        (d ≡ OtherLog node) × IsOther bytes.items machine.old)) }
{
    if log_is(alloc, machine, bytes)? {
        Ok(())
    } else {
        Err(Stop::No(Denial::OtherLog(node)))
    }
}

// Compares a node's log with that of the machine to which its trace led.
fn compare_log<F: ServerFiles>(
    files: &F,
    alloc: Global,
    machine: &mut BrokerMachine<LocalStore>,
    node: &TracedNode,
) -> Result<(), Stop>
    ensures ok { OnOk result (HasLog (F.left files.now) node.now machine.old) }
    ensures no { IfErr result (λ stop. IfNo stop
        (IsOtherLogOf (F.left files.now) machine.old node.now)) }
{
    let bytes = log_bytes(files, alloc, node)?;
    compare_bytes(alloc, machine, *node, bytes)
}

// Compares the log of a machine's node, whose trace is the first of these.
fn compare_first<F: ServerFiles>(
    files: &F,
    alloc: Global,
    machine: &mut BrokerMachine<LocalStore>,
    of: &[TraceOf],
) -> Result<(), Stop>
    ensures ok { OnOk result (HaveLogs (F.left files.now) of.now (machine.old ∷ [])) }
    ensures no { IfErr result (λ stop. IfNo stop
        (IsLogDenied (F.left files.now) (machine.old ∷ []) of.now)) }
{
    match of.first() {
        Some(one) => compare_log(files, alloc, machine, &one.node),
        None => Err(Stop::Fault(AuditFault::NoTraces)),
    }
}

// Compares the log of the first machine. Machines are dropped by a call, since each place where one
// is dropped is proved anew.
fn compare_next<F: ServerFiles>(
    files: &F,
    alloc: Global,
    machine: BrokerMachine<LocalStore>,
    of: &[TraceOf],
) -> Result<(), Stop>
    ensures ok { OnOk result (HaveLogs (F.left files.now) of.now (machine ∷ [])) }
    ensures no { IfErr result (λ stop. IfNo stop
        (IsLogDenied (F.left files.now) (machine ∷ []) of.now)) }
{
    let mut machine = machine;
    let compared = compare_first(files, alloc, &mut machine, of);
    drop(machine);
    compared
}

// All but the first of these traces.
fn after_first(of: &[TraceOf]) -> &[TraceOf]
    ensures { result.now ≡ drop 1 of.now }
{
    if of.is_empty() { of } else { &of[1..] }
}

/// Compares the logs of all nodes with those of the machines to which their traces led.
pub(crate) fn compare_logs<F: ServerFiles>(
    files: &F,
    alloc: Global,
    machines: Vec<BrokerMachine<LocalStore>>,
    of: &[TraceOf],
) -> Result<(), Stop>
    ensures ok { OnOk result (HaveLogs (F.left files.now) of.now machines.items) }
    ensures no { IfErr result (λ stop. IfNo stop
        (IsLogDenied (F.left files.now) machines.items of.now)) }
{
    let mut left = of;
    for machine in machines {
        compare_next(files, alloc, machine, left)?;
        left = after_first(left);
    }
    Ok(())
}
