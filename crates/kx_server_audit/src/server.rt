//! The audit of a server that ran, by what it left.
ghost use Rattle.std.specs.Prelude.{Bool, IfErr, IfOk, IsTrue, OnOk};
ghost use Rattle.kx_server_audit.specs.Contents.{Left};
ghost use Rattle.kx_server_audit.specs.Denials.{IfNo, IsItemOf, IsLogDenied, IsNoAtOnce, IsStopped};
ghost use Rattle.kx_server_audit.specs.Finding.{IsFound};
ghost use Rattle.kx_server_audit.specs.Telling.{AreFindings, HaveLogs, Tells, machines_in};

use crate::auditing::{Ending, ServerAudit, audit_traces};
use crate::denial::{Denial, Stop};
use crate::fault::AuditFault;
use crate::file::AuditFile;
use crate::findings::Findings;
use crate::folder::{compare_logs, note_logs};
use crate::left::ServerFiles;
use crate::report::write_findings;
use crate::traces::{Traces, server_nodes, traces_of};
use kx_trace_audit::TraceOf;
use std::alloc::Global;
use std::io::Write;

/// How a server is audited.
#[derive(Clone, Copy, Debug)]
pub struct AuditOptions {
    /// Whether the logs are compared with those to which the traces lead.
    pub compares_logs: bool,
    /// Whether it is told on standard error how far a long audit is.
    pub tells_progress: bool,
}

/// What it is to an audit of a server where the audit of these traces ends so.
pub(crate) fn stop_at(of: &[TraceOf], ending: Ending) -> Stop
    ensures { IfNo result (IsItemOf of.now ending) }
{
    match ending {
        Ending::Refused(refused) => match of.get(refused.trace) {
            Some(one) => Stop::No(Denial::Item {
                node: one.node,
                item: refused.item,
                why: refused.why,
            }),
            None => Stop::Fault(AuditFault::NoTraces),
        },
        Ending::Read(trace) => match of.get(trace) {
            Some(one) => Stop::Fault(AuditFault::Read(AuditFile::Trace(one.node))),
            None => Stop::Fault(AuditFault::NoTraces),
        },
        Ending::Memory => Stop::Fault(AuditFault::Memory),
    }
}

// Compares the logs, if they are to be compared.
fn compare<F: ServerFiles>(
    files: &F,
    alloc: Global,
    compares_logs: bool,
    audit: ServerAudit,
    of: &[TraceOf],
) -> Result<(), Stop>
    ensures ok { OnOk result (IsTrue compares_logs
        → HaveLogs (F.left files.now) of.now (machines_in audit)) }
    ensures no { IfErr result (λ stop. IfNo stop (λ d. IsTrue compares_logs
        × IsLogDenied (F.left files.now) (machines_in audit) of.now d)) }
{
    if compares_logs {
        let machines = audit.into_machines()?;
        compare_logs(files, alloc, machines, of)
    } else {
        drop(audit);
        Ok(())
    }
}

/// Finds all traces, and how long the logs are, if they are to be compared.
pub(crate) fn find<F: ServerFiles>(
    files: &F,
    alloc: Global,
    compares_logs: bool,
) -> Result<Traces<F::File>, Stop>
    ensures found { IfOk result (λ traces. IsFound F.File.remaining (F.left files.now)
        compares_logs traces.of.items traces.sources.items) }
    ensures no { IfErr result (λ stop. IfNo stop
        (IsNoAtOnce (F.left files.now) compares_logs)) }
{
    let nodes = server_nodes(alloc)?;
    let mut traces = traces_of(files, alloc, nodes.as_slice())?;
    if !compares_logs {
        return Ok(traces);
    }
    match note_logs(files, alloc, nodes.as_slice(), &mut traces.of) {
        Ok(()) => Ok(traces),
        Err(stop) => {
            drop(traces);
            Err(stop)
        }
    }
}

// What is found by an audit that was stopped so.
fn stopped(found: Findings, stop: Stop) -> Result<Findings, AuditFault>
    ensures { IfOk result (IsStopped stop found) }
{
    match stop {
        Stop::No(denial) => Ok(Findings {
            denial: Some(denial),
            ..found
        }),
        Stop::Fault(fault) => Err(fault),
    }
}

// Tells whoever runs the audit of which traces it can't see the beginnings. Nobody may watch.
fn tell_of_later<R: Eprint>(rt: &R, of: &[TraceOf]) {
    for one in of {
        if let Some(opened) = &one.opened {
            let file = AuditFile::Trace(one.node);
            let len = opened.log.len();
            let _ = eprintln!(rt; "{file}: begun on a log of {len} bytes, which is not audited");
        }
    }
}

// Audits traces that were found.
fn audit_in<R: AllocGlobal + Eprint, F: ServerFiles>(
    rt: &R,
    files: &F,
    options: AuditOptions,
    traces: &mut Traces<F::File>,
) -> Result<Findings, AuditFault>
    ensures { IsFound F.File.remaining (F.left files.now) options.compares_logs
        traces.old.of.items traces.old.sources.items
        → IfOk result (AreFindings (F.left files.now) options.compares_logs) }
{
    let of = traces.of.as_slice();
    tell_of_later(rt, of);
    let sources = &mut traces.sources;
    let audited = audit_traces(rt, rt.alloc(), of, sources, options.tells_progress);
    let Ok((audit, ended)) = audited else {
        return Err(AuditFault::Memory);
    };
    let found = Findings {
        counts: audit.counts(),
        transactions: audit.transactions(),
        denial: None,
    };
    if let Err(ending) = ended {
        drop(audit);
        return stopped(found, stop_at(of, ending));
    }
    match compare(files, rt.alloc(), options.compares_logs, audit, of) {
        Ok(()) => Ok(found),
        Err(stop) => stopped(found, stop),
    }
}

// Audits what was found. Traces are dropped by a call, since each place where they are dropped is
// proved anew.
fn audit_found<R: AllocGlobal + Eprint, F: ServerFiles>(
    rt: &R,
    files: &F,
    options: AuditOptions,
    mut traces: Traces<F::File>,
) -> Result<Findings, AuditFault>
    ensures { IsFound F.File.remaining (F.left files.now) options.compares_logs traces.of.items
        traces.sources.items
        → IfOk result (AreFindings (F.left files.now) options.compares_logs) }
{
    let found = audit_in(rt, files, options, &mut traces);
    drop(traces);
    found
}

// What is found by an audit that was stopped before it began.
fn stopped_at_once(stop: Stop) -> Result<Findings, AuditFault>
    ensures { (left : Left) (compares : Bool) → IfNo stop (IsNoAtOnce left compares)
        → IfOk result (AreFindings left compares) }
{
    match stop {
        Stop::No(denial) => Ok(Findings::at_once(denial)),
        Stop::Fault(fault) => Err(fault),
    }
}

// What an audit of what a server left finds.
fn findings_of<R: AllocGlobal + Eprint, F: ServerFiles>(
    rt: &R,
    files: &F,
    options: AuditOptions,
) -> Result<Findings, AuditFault>
    ensures { IfOk result (AreFindings (F.left files.now) options.compares_logs) }
{
    match find(files, rt.alloc(), options.compares_logs) {
        Ok(traces) => audit_found(rt, files, options, traces),
        Err(stop) => stopped_at_once(stop),
    }
}

// Writes what an audit found, and says whether it said yes.
fn tell<W: Write>(alloc: Global, out: &mut W, findings: Findings) -> Result<bool, AuditFault>
    ensures { (left : Left) (compares : Bool) → AreFindings left compares findings
        → Tells left compares (W.contents out.old) (W.contents out.new) result }
{
    match write_findings(alloc, out, &findings) {
        Ok(()) => match findings.denial {
            None => Ok(true),
            Some(_) => Ok(false),
        },
        Err(fault) => Err(fault),
    }
}

/// Audits all traces that a server left, and compares its logs with those to which they lead, if
/// that is asked for. It prints `steps`, `messages` and `transactions`, each with how many of them
/// there were, and `audit yes`; or else `audit no` and a number, and a line that says where and
/// why. Says whether the audit said yes.
///
/// # Errors
///
/// As [`AuditFault`] has them.
pub fn audit_server<R: AllocGlobal + Eprint, F: ServerFiles, W: Write>(
    rt: &R,
    files: &F,
    options: AuditOptions,
    out: &mut W,
) -> Result<bool, AuditFault>
    // What it printed is so of these files: of a yes, what was counted in the audit of all of them.
    ensures { Tells (F.left files.now) options.compares_logs (W.contents out.old)
        (W.contents out.new) result }
{
    match findings_of(rt, files, options) {
        Ok(findings) => tell(rt.alloc(), out, findings),
        Err(fault) => Err(fault),
    }
}
