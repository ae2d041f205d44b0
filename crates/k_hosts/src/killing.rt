//! Kills and resizes on a host: what a process may do to those below it.
use crate::driving::{begin_heap, begin_kernel, charge, operate, settle_heap, settle_kernel};
use crate::usual::{NODE, dir, let_go, name, new, rooms, store};
use k_chronicle::{Host, HostError, Twin};
use k_io::NoMemory;
use k_types::{Event, Fault, LimitId, Op, Pid, Reply};
use std::alloc::Global;
use std::process::Abort;
use std::test::Fail;

/// A process at the root, one below it at a hard limit and one at a soft limit.
const BELOW: &[u8] =
    b"kaffe 2\nkernel 200 2\ntype Node ref ref int\nlimit root 1000\nlimit a root hard 120\nlimit b root soft 400\nproc p0 root\nproc p1 a\nproc p2 b\n";

const P0: Pid = Pid(0);

const P1: Pid = Pid(1);

const P2: Pid = Pid(2);

const ROOT: LimitId = LimitId(0);

const A: LimitId = LimitId(1);

const B: LimitId = LimitId(2);

fn kill(target: Pid) -> Op {
    Op::Kill { target }
}

fn resize(limit: LimitId, max: u64) -> Op {
    Op::Resize { limit, max }
}

/// Whether the event is a step of the machine on one thread too.
fn take(twin: &mut Twin, alloc: Global, event: &Event) -> Result<bool, NoMemory> {
    twin.take(alloc, event)
}

/// The operation of the process is answered with that, by the machine on one thread too.
fn check_reply<R: Abort>(
    rt: &R,
    alloc: Global,
    host: &mut Host,
    twin: &mut Twin,
    pid: Pid,
    op: Op,
    wanted: Reply,
) -> Result<(), Fail> {
    let event = operate(host, pid, &op)?;
    assert_eq!(rt;
        event,
        Event::Done {
            pid,
            op,
            reply: wanted
        }
    );
    assert!(rt; take(twin, alloc, &event)?);
    Ok(())
}

/// The operation of the process is refused with that error.
fn check_lacks<R: Abort>(rt: &R, host: &mut Host, pid: Pid, op: &Op, why: HostError) {
    assert_eq!(rt; operate(host, pid, op).err(), Some(why));
}

/// What a process has done inside its heap is not lost where another ends it, and nobody kills a process that is not below it.
fn end_others<R: Abort>(
    rt: &R,
    alloc: Global,
    host: &mut Host,
    twin: &mut Twin,
) -> Result<(), Fail> {
    for pid in [P1, P2] {
        let made = operate(host, pid, &new(0))?;
        assert!(rt; take(twin, alloc, &made)?);
        check_reply(rt, alloc, host, twin, pid, store(0, 0, 0), Reply::Done)?;
    }
    let below = Reply::Refused(Fault::ProcNotBelow(P1));
    check_reply(rt, alloc, host, twin, P2, kill(P1), below)?;
    check_reply(rt, alloc, host, twin, P1, kill(P1), below)?;
    check_reply(rt, alloc, host, twin, P1, store(0, 1, 0), Reply::Done)?;
    check_reply(rt, alloc, host, twin, P0, kill(P1), Reply::Done)?;
    assert_eq!(rt; host.has_ended(P1), Some(true));
    assert_eq!(rt; charge(host, P1), Some(0));
    check_lacks(rt, host, P1, &new(0), HostError::Ended);
    check_lacks(rt, host, P1, &kill(P2), HostError::Ended);
    check_reply(rt, alloc, host, twin, P0, kill(P1), Reply::Done)?;
    let directory = Reply::Loaded(Some(name(0, 1)));
    check_reply(rt, alloc, host, twin, P0, dir(0), directory)?;
    check_lacks(rt, host, P0, &kill(Pid(3)), HostError::Unknown);
    assert_eq!(rt; host.has_ended(P2), Some(false));
    Ok(())
}

/// The maximum of a limit below is set; a hard one is reserved from the limit above it.
fn set_maxima<R: Abort>(
    rt: &R,
    alloc: Global,
    host: &mut Host,
    twin: &mut Twin,
) -> Result<(), Fail> {
    let own = Reply::Refused(Fault::LimitNotBelow(A));
    check_reply(rt, alloc, host, twin, P1, resize(A, 80), own)?;
    let top = Reply::Refused(Fault::LimitNotBelow(ROOT));
    check_reply(rt, alloc, host, twin, P0, resize(ROOT, 80), top)?;
    check_reply(rt, alloc, host, twin, P0, resize(A, 80), Reply::Done)?;
    assert_eq!(rt; host.max_of(A), Some(80));
    assert_eq!(rt; host.use_of(ROOT), Some(80));
    let full = Reply::Refused(Fault::LimitFull(ROOT));
    check_reply(rt, alloc, host, twin, P0, resize(A, 1001), full)?;
    let made = operate(host, P2, &new(0))?;
    assert!(rt; take(twin, alloc, &made)?);
    let used = Reply::Refused(Fault::InUse(B));
    check_reply(rt, alloc, host, twin, P0, resize(B, 39), used)?;
    check_reply(rt, alloc, host, twin, P0, resize(B, 40), Reply::Done)?;
    let filled = Reply::Refused(Fault::LimitFull(B));
    check_reply(rt, alloc, host, twin, P2, new(1), filled)?;
    check_lacks(rt, host, P0, &resize(B, 1 << 40), HostError::Unknown);
    check_lacks(rt, host, P0, &resize(LimitId(3), 1), HostError::Unknown);
    Ok(())
}

/// No process ends beside a collection of its heap, and none beside one of the kernel's.
fn wait<R: Abort>(rt: &R, host: &mut Host) -> Result<(), Fail> {
    begin_heap(host, P1)?;
    check_lacks(rt, host, P0, &kill(P1), HostError::Phase);
    settle_heap(host, P1)?;
    begin_kernel(host, P2)?;
    check_lacks(rt, host, P0, &kill(P1), HostError::Phase);
    operate(host, P2, &kill(P1))?;
    settle_kernel(host)?;
    operate(host, P0, &kill(P1))?;
    assert_eq!(rt; host.has_ended(P1), Some(true));
    Ok(())
}

/// There is room for one event more than the two that are unpublished.
fn fill<R: Abort>(rt: &R, host: &mut Host) -> Result<(), Fail> {
    operate(host, P1, &new(0))?;
    operate(host, P1, &store(0, 0, 0))?;
    operate(host, P1, &store(0, 1, 0))?;
    check_lacks(rt, host, P0, &kill(P1), HostError::Full);
    assert_eq!(rt; host.has_ended(P1), Some(false));
    operate(host, P2, &kill(P1))?;
    Ok(())
}

#[test]
fn a_process_ends_those_below_it(rt: HostRuntime) -> Result<(), Fail> {
    let mut host = Host::read(rt.alloc(), BELOW, NODE, 100, rooms(2000))?;
    let mut twin = host.twin(rt.alloc())?;
    let end = end_others(&rt, rt.alloc(), &mut host, &mut twin);
    let_go(host);
    end
}

#[test]
fn a_process_resizes_what_is_below_it(rt: HostRuntime) -> Result<(), Fail> {
    let mut host = Host::read(rt.alloc(), BELOW, NODE, 100, rooms(2000))?;
    let mut twin = host.twin(rt.alloc())?;
    let end = set_maxima(&rt, rt.alloc(), &mut host, &mut twin);
    let_go(host);
    end
}

#[test]
fn a_kill_waits_for_collections(rt: HostRuntime) -> Result<(), Fail> {
    let mut host = Host::read(rt.alloc(), BELOW, NODE, 100, rooms(2000))?;
    let end = wait(&rt, &mut host);
    let_go(host);
    end
}

#[test]
fn a_kill_has_room_for_all_or_changes_nothing(rt: HostRuntime) -> Result<(), Fail> {
    let mut host = Host::read(rt.alloc(), BELOW, NODE, 100, rooms(3))?;
    let end = fill(&rt, &mut host);
    let_go(host);
    end
}
