//! The traces that a server left in a folder.
ghost use Rattle.std.specs.Prelude.{◌≡◌, ◌++◌, IfErr, IfOk, List, OnOk, false};
ghost use Rattle.std.specs.Io.KnownBytes.{Consumes};
ghost use Rattle.kx_server_audit.specs.Denials.{IfNo, IsNoAtOnce};
ghost use Rattle.kx_server_audit.specs.Finding.{AreTraces, all_nodes};
ghost use Rattle.kx_server_audit.specs.Internal.{AddsTrace, FindsTrace, HasOneMore, IsOtherHead};
ghost use Rattle.kx_trace.specs.declared.node.TracedNode.{TracedNode};
ghost use Rattle.kx_trace_files.specs.Beginning.{begun_text};

use crate::denial::{Denial, Stop};
use crate::fault::AuditFault;
use crate::file::AuditFile;
use crate::left::ServerFiles;
use crate::server_node::ServerNode;
use crate::sources::Source;
use kx_message::PartitionId;
use kx_trace::{TraceFault, TracedNode};
use kx_trace_audit::{Server, TraceOf, TraceRefusal};
use kx_trace_files::{TraceFileFault, TraceHead, read_trace_head};
use std::alloc::{AllocError, Global};
use std::io::Read;

/// Traces of which the heads were read.
#[derive(Drop)]
pub(crate) struct Traces<I: Read + Drop> {
    pub(crate) of: Vec<TraceOf>,
    pub(crate) sources: Vec<Source<I>>,
}

/// The nodes that a server may have, in the order in which they are audited: the coordinator, each
/// data partition, and the offsets partition.
pub(crate) fn server_nodes(alloc: Global) -> Result<Vec<TracedNode>, AllocError>
    ensures { IfOk result (λ nodes. nodes.items ≡ all_nodes) }
{
    let mut nodes = Vec::new(alloc);
    nodes.push(TracedNode::Coordinator)?;
    for number in 0..PartitionId::DATA_COUNT {
        let partition = PartitionId::try_from(number).unwrap();
        nodes.push(TracedNode::Partition(partition))?;
    }
    nodes.push(TracedNode::Partition(PartitionId::OFFSETS))?;
    Ok(nodes)
}

// Why a file has no head of a trace.
fn head_fault(file: AuditFile, fault: TraceFileFault) -> AuditFault {
    match fault {
        TraceFileFault::Memory => AuditFault::Memory,
        TraceFileFault::Device => AuditFault::Read(file),
        TraceFileFault::Format(TraceFault::Version) => AuditFault::Version(file),
        _ => AuditFault::NoTrace(file),
    }
}

// Reads a trace's head.
fn head_of<I: Read>(alloc: Global, reader: &mut I, file: AuditFile) -> Result<TraceHead, AuditFault>
    ensures { IfOk result (λ head. Consumes (I.remaining reader.old) (I.remaining reader.new)
        (begun_text head.node head.opened)) }
{
    match read_trace_head(alloc, reader) {
        Ok(head) => Ok(head),
        Err(fault) => Err(head_fault(file, fault)),
    }
}

// Sees that the log can be opened with which a trace begins.
fn check_log(alloc: Global, of: &TraceOf) -> Result<(), AuditFault> {
    match ServerNode::begun(alloc, of) {
        Ok(machine) => {
            drop(machine);
            Ok(())
        }
        Err(TraceRefusal::Memory) => Err(AuditFault::Memory),
        Err(_) => Err(AuditFault::NoTrace(AuditFile::Trace(of.node))),
    }
}

// Puts a trace whose head was read after the others.
fn push<I: Read + Drop>(traces: &mut Traces<I>, one: TraceOf, reader: I) -> Result<(), AllocError>
    ensures { OnOk result (HasOneMore one reader traces.old.of.items traces.old.sources.items
        traces.new.of.items traces.new.sources.items) }
{
    traces.of.push(one)?;
    traces.sources.push(Source::new(reader))?;
    Ok(())
}

// Adds the trace of a node, whose head is read.
fn add_trace<I: Read + Drop>(
    alloc: Global,
    traces: &mut Traces<I>,
    node: TracedNode,
    mut reader: I,
) -> Result<(), Stop>
    ensures added { OnOk result (AddsTrace I.remaining node reader traces.old.of.items
        traces.old.sources.items traces.new.of.items traces.new.sources.items) }
    ensures no { IfErr result (λ stop. IfNo stop (IsOtherHead I.remaining node reader)) }
{
    let head = head_of(alloc, &mut reader, AuditFile::Trace(node))?;
    if head.node != node {
        return Err(Stop::No(Denial::OtherNode(node)));
    }
    let one = TraceOf {
        node,
        opened: head.opened,
        log_len: None,
    };
    if one.opened.is_some() {
        check_log(alloc, &one)?;
    }
    push(traces, one, reader)?;
    Ok(())
}

// Adds the trace of a node, if there is one.
fn find_trace<F: ServerFiles>(
    files: &F,
    alloc: Global,
    node: &TracedNode,
    traces: &mut Traces<F::File>,
) -> Result<(), Stop>
    ensures found { OnOk result (FindsTrace F.File.remaining (F.left files.now) node.now
        traces.old.of.items traces.old.sources.items traces.new.of.items
        traces.new.sources.items) }
    ensures no { IfErr result (λ stop. IfNo stop (IsNoAtOnce (F.left files.now) false)) }
{
    match files.open(alloc, AuditFile::Trace(*node))? {
        Some(opened) => add_trace(alloc, traces, *node, opened),
        None => Ok(()),
    }
}

// Adds the traces of these nodes to those of others; there is one at least then.
fn find_traces<F: ServerFiles>(
    files: &F,
    alloc: Global,
    nodes: &[TracedNode],
    traces: &mut Traces<F::File>,
) -> Result<(), Stop>
    ensures found { OnOk result ((others : List TracedNode) → AreTraces F.File.remaining
        (F.left files.now) others traces.old.of.items traces.old.sources.items
        → AreTraces F.File.remaining (F.left files.now) (others ++ nodes.now)
        traces.new.of.items traces.new.sources.items) }
    ensures no { IfErr result (λ stop. IfNo stop (IsNoAtOnce (F.left files.now) false)) }
{
    for node in nodes {
        find_trace(files, alloc, node, traces)?;
    }
    if traces.of.is_empty() {
        return Err(Stop::Fault(AuditFault::NoTraces));
    }
    Ok(())
}

/// All traces that a server left of these nodes.
pub(crate) fn traces_of<F: ServerFiles>(
    files: &F,
    alloc: Global,
    nodes: &[TracedNode],
) -> Result<Traces<F::File>, Stop>
    ensures found { IfOk result (λ traces. AreTraces F.File.remaining (F.left files.now) nodes.now
        traces.of.items traces.sources.items) }
    ensures no { IfErr result (λ stop. IfNo stop (IsNoAtOnce (F.left files.now) false)) }
{
    let mut traces = Traces {
        of: Vec::new(alloc),
        sources: Vec::new(alloc),
    };
    match find_traces(files, alloc, nodes, &mut traces) {
        Ok(()) => Ok(traces),
        Err(stop) => {
            drop(traces);
            Err(stop)
        }
    }
}
