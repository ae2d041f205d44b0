//! Operations inside one heap.
use crate::driving::{local, operate, publish};
use crate::usual::{P1, let_go, new, usual};
use k_chronicle::Host;
use k_types::{Op, Reg, Reply};
use std::process::Abort;
use std::test::Fail;

/// An object is made, and a move and a put are done inside its heap.
fn work_inside<R: Abort>(rt: &R, host: &mut Host) -> Result<(), Fail> {
    let moves = Op::Move {
        reg: Reg(1),
        from: Reg(0),
    };
    let puts = Op::Put {
        base: Reg(0),
        field: 2,
        number: 5,
    };
    operate(host, P1, &new(0))?;
    assert_eq!(rt; local(host, P1, &moves)?, Some(Reply::Done));
    assert_eq!(rt; local(host, P1, &puts)?, Some(Reply::Done));
    Ok(())
}

/// The journal has so many events, and lacks so many of the first process.
fn check_lengths<R: Abort>(rt: &R, host: &Host, published: u64, waiting: u32) {
    assert_eq!(rt; host.len(), published);
    assert_eq!(rt; host.unpublished(P1), Some(waiting));
}

/// What is done inside the heap waits until it is published. A collection is not done inside the heap alone.
fn waits<R: Abort>(rt: &R, host: &mut Host) -> Result<(), Fail> {
    work_inside(rt, host)?;
    assert_eq!(rt; local(host, P1, &Op::Collect)?, None);
    check_lengths(rt, host, 1, 2);
    publish(host, P1)?;
    check_lengths(rt, host, 3, 0);
    Ok(())
}

#[test]
fn events_wait_until_they_are_published(rt: HostRuntime) -> Result<(), Fail> {
    let mut host = usual(rt.alloc())?;
    let end = waits(&rt, &mut host);
    let_go(host);
    end
}
