//! Runs that are opened and ended, with nothing done between: all is left to the end, which does it one process after the other.
ghost use Rattle.std.specs.Prelude.{IfOk, None, ◌≡◌};
ghost use Rattle.k_run.specs.k_outcome.Listed.{AreRoomsFor};
ghost use Rattle.k_run.specs.Runs.{IsRunOf};
ghost use Rattle.k_run.specs.k_outcome.k_process.Heaps.{value_of};
ghost use Rattle.k_run.specs.k_outcome.k_process.BetweenSteps.{AllStand};
ghost use Rattle.k_run.specs.Opening.{IsSetupOf};
ghost use Rattle.k_text.specs.Named.{AreNamed};
ghost use Rattle.k_trace.specs.Meaning.{meaning_of};
ghost use Rattle.k_trace.specs.Rules.{IsTrace};

use crate::reporting::{let_go, report_of, trace_of, trace_text, verdict_on};
use crate::serving::server_trace;
use k_check::Verdict;
use k_io::{MemSink, NoMemory};
use k_run::{Outcome, Still, World, WorldName, finish, open, open_still};
use k_trace::Trace;
use std::alloc::Global;
use std::marker::Brand;
use std::process::Abort;
use std::sync::Wait;
use std::test::Fail;

/// Every sharer pays in full.
const SHARERS: &str = "p1 share s
p1 snew r0 s Node
p1 snew r1 s Node
p1 store r0 0 r1
p1 freeze s r0
p2 attach r0 s
";

/// Its report.
const SHARERS_REPORT: &str = "report 1
p1 share s = ok
p1 snew r0 s Node = s.1
p1 snew r1 s Node = s.2
p1 store r0 0 r1 = ok
p1 freeze s r0 = ok
p2 attach r0 s = s.1
graph
kernel.1 kernel directory null null
s.1 s Node s.2 null 0
s.2 s Node null null 0
roots
p1 r0 s.1
p1 r1 s.2
p2 r0 s.1
exits
shares
p1 s
p2 s
faults
p1 0
p2 0
charges
kernel 32 of 200
limit root 200 of 1000
limit a 80 of 120
limit b 80 of 400
process p1 80
process p2 80
shared s 80 frozen s.1
end
";

/// A dead process's object, which another process holds.
const DEAD: &str = "p1 new r0 Node
p1 new r1 Node
p1 store r0 0 r1
p1 dir r2
p1 store r2 0 r0
p2 dir r0
p2 load r1 r0 0
p1 exit
p2 load r2 r1 0
p2 store r0 0 r3
p2 kcollect
";

/// Its report, where the first process has ended before the second begins.
const DEAD_REPORT: &str = "report 1
p1 new r0 Node = p1.1
p1 new r1 Node = p1.2
p1 store r0 0 r1 = ok
p1 dir r2 = kernel.1
p1 store r2 0 r0 = ok
p1 exit = ok
p2 dir r0 = kernel.1
p2 load r1 r0 0 = p1.1
p2 load r2 r1 0 = p1.2
p2 store r0 0 r3 = ok
p2 kcollect = ok
ended kernel 0 0 0 0
graph
kernel.1 kernel directory null null
p1.1 kernel Node p1.2 null 0
p1.2 kernel Node null null 0
roots
p2 r0 kernel.1
p2 r1 p1.1
p2 r2 p1.2
exits
shares
faults
p1 0
p2 0
charges
kernel 112 of 200
limit root 120 of 1000
limit a 0 of 120
limit b 0 of 400
process p1 0
process p2 0
shared s 0 unmade
end
";

/// The end of a server's report, whose workers attach when the table's maker has ended.
const SERVER_END: &str = "absorbed table
closing
ended kernel 100 3200 0 0
graph
kernel.1 kernel directory null null null null
roots
exits
shares
faults
m0 0
w1 0
w2 0
w3 0
w4 0
charges
kernel 48 of 4096
limit root 400000 of 1000000
limit m 0 of 100000
limit w 0 of 400000
process m0 0
process w1 0
process w2 0
process w3 0
process w4 0
shared table 0 absorbed
end
";

/// Puts the run behind its locks, and ends it.
fn end_opened<W: WorldName, R: Wait>(
    rt: &R,
    alloc: Global,
    still: Still,
) -> Result<Outcome, NoMemory>
    requires stands { AllStand W.world (value_of still.cells.heaps) }
    requires setup { IsSetupOf still.cells.setup W.world }
    requires rooms { AreRoomsFor W.world.trace still.rooms }
    requires alone { W.watched ≡ None }
    ensures { IfOk result (λ outcome. IsRunOf (record { names = still.cells.names; trace = W.world.trace }) outcome) }
{
    let world: World<W> = open(rt, alloc, still)?;
    Ok(finish(world))
}

/// The end of a run of the trace of which threads do nothing.
fn end_of<R: Wait>(rt: &R, alloc: Global, trace: Trace) -> Result<Outcome, NoMemory>
    requires { IsTrace (meaning_of trace) }
    ensures { IfOk result (IsRunOf (meaning_of trace)) }
{
    let still = open_still(alloc, trace)?;
    end_opened::<Brand, R>(rt, alloc, still)
}

/// The same, of a trace that stands as text.
fn unrun_end<R: Wait>(rt: &R, alloc: Global, text: &str) -> Result<Outcome, Fail>
    ensures { IfOk result (λ end. AreNamed end.names end.setup) }
{
    let trace = trace_of(alloc, text)?;
    let end = end_of(rt, alloc, trace)?;
    Ok(end)
}

/// The report of a run of the trace of which threads do nothing.
fn unrun_report<R: Wait>(rt: &R, alloc: Global, text: &str) -> Result<MemSink, Fail> {
    let end = unrun_end(rt, alloc, text)?;
    let report = report_of(alloc, &end);
    let_go(end);
    report
}

/// Compares how the report of the trace ends, and has it checked.
fn check_end<R: Abort>(
    rt: &R,
    alloc: Global,
    text: &str,
    report: &MemSink,
    want: &str,
) -> Result<(), Fail> {
    assert!(rt; report.bytes().ends_with(want.as_bytes()));
    assert_eq!(rt; verdict_on(alloc, text, report)?, Verdict::Good);
    Ok(())
}

/// The same of a run of the trace of which threads do nothing.
pub(crate) fn check_unrun<R: Wait + Abort>(
    rt: &R,
    alloc: Global,
    text: &str,
    want: &str,
) -> Result<(), Fail> {
    let report = unrun_report(rt, alloc, text)?;
    check_end(rt, alloc, text, &report, want)
}

#[test]
fn the_end_alone_has_every_sharer_pay(rt: HostRuntime) -> Result<(), Fail> {
    let trace = trace_text(rt.alloc(), "", SHARERS)?;
    check_unrun(&rt, rt.alloc(), &trace, SHARERS_REPORT)
}

#[test]
fn the_end_alone_leaves_a_dead_process_its_object(rt: HostRuntime) -> Result<(), Fail> {
    let trace = trace_text(rt.alloc(), "", DEAD)?;
    check_unrun(&rt, rt.alloc(), &trace, DEAD_REPORT)
}

#[test]
fn the_end_alone_serves_a_shared_table(rt: HostRuntime) -> Result<(), Fail> {
    let trace = server_trace(rt.alloc())?;
    check_unrun(&rt, rt.alloc(), &trace, SERVER_END)
}
