//! What a host prints of itself, which a check accepts.
ghost use Rattle.k_trace.specs.Meaning.{meaning_of};
ghost use Rattle.k_trace.specs.Rules.{IsTrace};

use crate::usual::{NODE, P1, P2, USUAL, load, new, rooms, share, store};
use k_check::{Verdict, check_report};
use k_chronicle::{ChronicleError, HostError, Keeper, PrintError, Printed, Rooms, chronicle};
use k_io::MemSink;
use k_reader::read_trace;
use k_trace::Trace;
use k_types::{Event, Op, Pid, Reg};
use std::alloc::Global;
use std::process::Abort;
use std::test::Fail;

/// The most bytes of a report here.
const MOST_BYTES: usize = 100_000;

/// The events of the usual keeper.
const EVENTS: u32 = 100;

/// Drops the keeper, which tests only lend.
fn let_go(_keeper: Keeper) {}

/// Drops what was printed.
fn put_away(_printed: Printed) {}

fn operate(keeper: &mut Keeper, pid: Pid, op: &Op) -> Result<Event, HostError> {
    keeper.operate(pid, op)
}

fn publish(keeper: &mut Keeper) {
    keeper.publish();
}

/// The report.
fn report_of(alloc: Global, printed: &Printed) -> Result<MemSink, Fail> {
    let mut out = MemSink::make(alloc, MOST_BYTES, Vec::new(alloc))?;
    printed.write_report(&mut out)?;
    Ok(out)
}

/// What a check says of the report, as one of the trace.
fn verdict_of(alloc: Global, trace: &Trace, report: &MemSink) -> Result<Verdict, Fail>
    requires { IsTrace (meaning_of trace.now) }
{
    let bytes = report.bytes();
    if bytes.len() > MOST_BYTES {
        return Err(Fail::new("a long report"));
    }
    let verdict = check_report(alloc, trace, bytes)?;
    Ok(verdict)
}

/// What a check says of both texts, of which it reads the trace.
fn verdict(alloc: Global, printed: &Printed) -> Result<Verdict, Fail> {
    let text = printed.trace_text(alloc)?;
    let trace = read_trace(alloc, &text)?;
    let report = report_of(alloc, printed)?;
    verdict_of(alloc, &trace, &report)
}

/// What a check says of what the host prints now.
fn said(alloc: Global, keeper: &Keeper) -> Result<Verdict, Fail> {
    let printed = chronicle(alloc, keeper)?;
    let verdict = verdict(alloc, &printed);
    put_away(printed);
    verdict
}

/// Why the host prints nothing now.
fn refusal(alloc: Global, keeper: &Keeper) -> Option<ChronicleError> {
    match chronicle(alloc, keeper) {
        Ok(printed) => {
            put_away(printed);
            None
        }
        Err(why) => Some(why),
    }
}

/// Both processes work, one shares a heap and is killed by the host, and each heap is collected.
fn live(keeper: &mut Keeper) -> Result<(), Fail> {
    operate(keeper, P1, &new(0))?;
    operate(keeper, P1, &new(1))?;
    operate(keeper, P1, &store(0, 0, 1))?;
    operate(keeper, P1, &load(2, 0, 0))?;
    operate(keeper, P1, &share())?;
    operate(keeper, P2, &new(0))?;
    keeper.collect(P1)?;
    keeper.kill(P1)?;
    keeper.collect_kernel(P2)?;
    operate(keeper, P2, &load(1, 0, 1))?;
    Ok(())
}

/// What is printed before the last operation is published is accepted, and so is what is printed after.
fn print_twice<R: Abort>(rt: &R, alloc: Global, keeper: &mut Keeper) -> Result<(), Fail> {
    assert_eq!(rt; said(alloc, keeper)?, Verdict::Good);
    live(keeper)?;
    assert_eq!(rt; said(alloc, keeper)?, Verdict::Good);
    publish(keeper);
    assert_eq!(rt; said(alloc, keeper)?, Verdict::Good);
    Ok(())
}

#[test]
fn a_check_accepts_what_is_printed(rt: HostRuntime) -> Result<(), Fail> {
    let mut keeper = Keeper::read(rt.alloc(), USUAL, NODE, 10, rooms(EVENTS))?;
    let end = print_twice(&rt, rt.alloc(), &mut keeper);
    let_go(keeper);
    end
}

/// The last field that a line can have is 15, and an operation on another one is not done: it would bar each report from then on.
fn ask_far<R: Abort>(rt: &R, alloc: Global, keeper: &mut Keeper) -> Result<(), Fail> {
    operate(keeper, P1, &new(0))?;
    let far = Op::Get {
        base: Reg(0),
        field: 15,
    };
    operate(keeper, P1, &far)?;
    publish(keeper);
    assert_eq!(rt; said(alloc, keeper)?, Verdict::Good);
    let past = Op::Get {
        base: Reg(0),
        field: 16,
    };
    assert_eq!(rt; operate(keeper, P1, &past).err(), Some(HostError::Unknown));
    publish(keeper);
    assert_eq!(rt; said(alloc, keeper)?, Verdict::Good);
    Ok(())
}

#[test]
fn a_field_above_fifteen_is_unknown(rt: HostRuntime) -> Result<(), Fail> {
    let mut keeper = Keeper::read(rt.alloc(), USUAL, NODE, 10, rooms(EVENTS))?;
    let end = ask_far(&rt, rt.alloc(), &mut keeper);
    let_go(keeper);
    end
}

/// Of two events one is kept.
fn forget<R: Abort>(rt: &R, alloc: Global, keeper: &mut Keeper) -> Result<(), Fail> {
    operate(keeper, P1, &new(0))?;
    assert_eq!(rt; said(alloc, keeper)?, Verdict::Good);
    operate(keeper, P1, &new(0))?;
    assert_eq!(rt; refusal(alloc, keeper), Some(ChronicleError::Forgotten));
    Ok(())
}

#[test]
fn a_journal_that_has_forgotten_is_not_printed(rt: HostRuntime) -> Result<(), Fail> {
    let kept = Rooms {
        kept: 1,
        ..rooms(EVENTS)
    };
    let mut keeper = Keeper::read(rt.alloc(), USUAL, NODE, 10, kept)?;
    let end = forget(&rt, rt.alloc(), &mut keeper);
    let_go(keeper);
    end
}

/// Where every process has ended no last collection stands in the journal.
fn end_all<R: Abort>(rt: &R, alloc: Global, keeper: &mut Keeper) -> Result<(), Fail> {
    keeper.kill(P1)?;
    assert_eq!(rt; said(alloc, keeper)?, Verdict::Good);
    keeper.kill(P2)?;
    let over = ChronicleError::Print(PrintError::Over);
    assert_eq!(rt; refusal(alloc, keeper), Some(over));
    Ok(())
}

#[test]
fn a_host_that_is_over_is_not_printed(rt: HostRuntime) -> Result<(), Fail> {
    let mut keeper = Keeper::read(rt.alloc(), USUAL, NODE, 10, rooms(EVENTS))?;
    let end = end_all(&rt, rt.alloc(), &mut keeper);
    let_go(keeper);
    end
}
