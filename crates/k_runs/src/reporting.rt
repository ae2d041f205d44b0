//! The ends of runs of traces that stand as text, and their reports.
ghost use Rattle.std.specs.Prelude.{IfOk};
ghost use Rattle.k_text.specs.Named.{AreNamed};
ghost use Rattle.k_trace.specs.Meaning.{meaning_of};
ghost use Rattle.k_trace.specs.Rules.{IsTrace};

use k_check::{Verdict, check_report};
use k_io::{Gate, MemSink};
use k_reader::read_trace;
use k_report::report;
use k_run::{Outcome, replay_trace, run_trace};
use k_trace::Trace;
use std::alloc::Global;
use std::sync::Wait;
use std::test::Fail;
use std::thread::Threads;

/// A header with a tree of limits and two processes. More processes can stand behind it, and then the shared heap.
const HEADER: &str = "kaffe 1
kernel 200 2
type Node ref ref int
limit root 1000
limit a root hard 120
limit b root soft 400
proc p1 a
proc p2 b
";

/// The most bytes of a report here.
const MOST_BYTES: usize = 100_000;

/// The trace with these operations behind the header. The lines `more` declare more processes.
pub(crate) fn trace_text(alloc: Global, more: &str, operations: &str) -> Result<String, Fail> {
    Ok(format!(in alloc; "{HEADER}{more}shared s\n{operations}")?)
}

/// The trace that the text spells.
pub(crate) fn trace_of(alloc: Global, text: &str) -> Result<Trace, Fail>
    ensures { IfOk result (λ trace. IsTrace (meaning_of trace)) }
{
    let trace = read_trace(alloc, text.as_bytes())?;
    Ok(trace)
}

/// The report of the end of a run.
pub(crate) fn report_of(alloc: Global, end: &Outcome) -> Result<MemSink, Fail>
    requires { AreNamed end.now.names end.now.setup }
{
    let mut out = MemSink::make(alloc, MOST_BYTES, Vec::new(alloc))?;
    report(&mut out, &end.names, end)?;
    Ok(out)
}

/// The end of a run of the trace on threads, with the gate.
fn run_end<G: Gate, R: Threads + Wait + Sync>(
    rt: &R,
    alloc: Global,
    text: &str,
    gate: &G,
) -> Result<Outcome, Fail>
    ensures { IfOk result (λ end. AreNamed end.names end.setup) }
{
    let trace = trace_of(alloc, text)?;
    let end = run_trace(rt, alloc, trace, gate)?;
    Ok(end)
}

/// The end of the trace's operations, done in the order of the lines.
fn replay_end(alloc: Global, text: &str) -> Result<Outcome, Fail>
    ensures { IfOk result (λ end. AreNamed end.names end.setup) }
{
    let trace = trace_of(alloc, text)?;
    let end = replay_trace(alloc, trace)?;
    Ok(end)
}

/// Drops the end of a run. A function that has one is proved to drop all its parts wherever it may return; so the others lend theirs, and
/// end here.
pub(crate) fn let_go(_end: Outcome) {}

/// The report of a run of the trace on threads, with the gate.
pub(crate) fn run_report<G: Gate, R: Threads + Wait + Sync>(
    rt: &R,
    alloc: Global,
    text: &str,
    gate: &G,
) -> Result<MemSink, Fail> {
    let end = run_end(rt, alloc, text, gate)?;
    let report = report_of(alloc, &end);
    let_go(end);
    report
}

/// The report of the trace's operations, done in the order of the lines.
pub(crate) fn replay_report(alloc: Global, text: &str) -> Result<MemSink, Fail> {
    let end = replay_end(alloc, text)?;
    let report = report_of(alloc, &end);
    let_go(end);
    report
}

/// What the check of reports says of the report, as one of the trace.
fn verdict_of(alloc: Global, trace: &Trace, report: &MemSink) -> Result<Verdict, Fail>
    requires { IsTrace (meaning_of trace.now) }
{
    let bytes = report.bytes();
    if bytes.len() > MOST_BYTES {
        return Err(Fail::new("a long report"));
    }
    let verdict = check_report(alloc, trace, bytes)?;
    Ok(verdict)
}

/// The same, of a trace that stands as text.
pub(crate) fn verdict_on(alloc: Global, text: &str, report: &MemSink) -> Result<Verdict, Fail> {
    let trace = trace_of(alloc, text)?;
    verdict_of(alloc, &trace, report)
}

/// The lines of the events of a report, and those of the state that they left.
pub(crate) fn parts(report: &MemSink) -> Result<(&str, &str), Fail> {
    let text = str::from_utf8(report.bytes())?;
    let lines = text.strip_prefix("report 1\n").ok_or("no report")?;
    let parts = lines.split_once("graph\n").ok_or("no state")?;
    Ok(parts)
}

/// The lines of a state from the graph to the shares, and its charges: all but the faults, which go by the order of the operations.
pub(crate) fn heaps_and_charges(state: &str) -> Result<(&str, &str), Fail> {
    let (heaps, rest) = state.split_once("faults\n").ok_or("no faults")?;
    let (_, charges) = rest.split_once("charges\n").ok_or("no charges")?;
    Ok((heaps, charges))
}
