//! What a host refuses, and with which errors.
use crate::driving::{
    absorb, begin_heap, begin_kernel, exit, meet, operate, publish, settle_kernel,
};
use crate::usual::{NODE, P1, P2, S, USUAL, clear, let_go, new, rooms, share, usual};
use k_chronicle::{Host, HostError};
use k_types::{Op, Pid, Reg};
use std::process::Abort;
use std::test::Fail;

/// The operation of the process is refused with that error.
fn check_refused<R: Abort>(rt: &R, host: &mut Host, pid: Pid, op: &Op, why: HostError) {
    assert_eq!(rt; operate(host, pid, op).err(), Some(why));
}

/// Of a process that there is not, with a register that there is not, with a call of its own, and beside a collection.
fn refuse<R: Abort>(rt: &R, host: &mut Host) -> Result<(), Fail> {
    check_refused(rt, host, Pid(2), &new(0), HostError::Unknown);
    assert_eq!(rt; meet(host, Pid(2)).err(), Some(HostError::Unknown));
    check_refused(rt, host, P1, &new(16), HostError::Unknown);
    check_refused(rt, host, P1, &Op::Exit, HostError::OwnCall);
    begin_heap(host, P1)?;
    check_refused(rt, host, P1, &new(0), HostError::Phase);
    Ok(())
}

#[test]
fn operations_are_refused(rt: HostRuntime) -> Result<(), Fail> {
    let mut host = usual(rt.alloc())?;
    let end = refuse(&rt, &mut host);
    let_go(host);
    end
}

/// An allocation in the kernel's heap beside its collection, and any operation of a process that has ended.
fn refuse_later<R: Abort>(rt: &R, host: &mut Host) -> Result<(), Fail> {
    let allocates = Op::KNew {
        reg: Reg(0),
        ty: NODE,
    };
    begin_kernel(host, P2)?;
    check_refused(rt, host, P1, &allocates, HostError::Phase);
    settle_kernel(host)?;
    exit(host, P1)?;
    check_refused(rt, host, P1, &new(0), HostError::Ended);
    Ok(())
}

#[test]
fn the_kernel_and_the_dead_refuse(rt: HostRuntime) -> Result<(), Fail> {
    let mut host = usual(rt.alloc())?;
    let end = refuse_later(&rt, &mut host);
    let_go(host);
    end
}

/// The one body of a supply, beside which another is made, and the room for three events; where nothing is unpublished, publishing
/// needs none.
fn run_out<R: Abort>(rt: &R, host: &mut Host) -> Result<(), Fail> {
    operate(host, P1, &new(0))?;
    assert_eq!(rt; host.bodies_left(P1), Some(0));
    operate(host, P1, &new(1))?;
    operate(host, P2, &new(0))?;
    check_refused(rt, host, P2, &clear(0), HostError::Full);
    assert_eq!(rt; begin_heap(host, P1).err(), Some(HostError::Full));
    publish(host, P2)?;
    Ok(())
}

#[test]
fn what_runs_out_is_told(rt: HostRuntime) -> Result<(), Fail> {
    let mut host = Host::read(rt.alloc(), USUAL, NODE, 1, rooms(3))?;
    let end = run_out(&rt, &mut host);
    let_go(host);
    end
}

/// A heap that a process shares is not absorbed; once it is an orphan, the kernel's collection waits until it is absorbed.
fn orphan<R: Abort>(rt: &R, host: &mut Host) -> Result<(), Fail> {
    operate(host, P1, &share())?;
    assert_eq!(rt; absorb(host, S).err(), Some(HostError::Orphan));
    exit(host, P1)?;
    assert_eq!(rt; begin_kernel(host, P2).err(), Some(HostError::Orphan));
    absorb(host, S)?;
    begin_kernel(host, P2)?;
    Ok(())
}

#[test]
fn an_orphan_is_absorbed_first(rt: HostRuntime) -> Result<(), Fail> {
    let mut host = usual(rt.alloc())?;
    let end = orphan(&rt, &mut host);
    let_go(host);
    end
}
