//! The write barrier, with no read barrier.
use crate::driving::operate;
use crate::usual::{P1, P2, dir, let_go, load, name, new, store, usual};
use k_chronicle::Host;
use k_types::{Event, Fault, Op, Pid, Reply};
use std::process::Abort;
use std::test::Fail;

/// An object of the first process is found in the directory by the second one.
fn steps() -> [(Pid, Op, Reply); 8] {
    let directory = Reply::Loaded(Some(name(0, 1)));
    [
        (P1, new(0), Reply::Made(name(1, 1))),
        (P1, dir(1), directory),
        (P1, store(1, 0, 0), Reply::Done),
        (P2, dir(1), directory),
        (P2, load(2, 1, 0), Reply::Loaded(Some(name(1, 1)))),
        (P2, new(0), Reply::Made(name(2, 1))),
        (P2, store(0, 0, 2), Reply::Refused(Fault::Segv)),
        (P2, load(3, 2, 0), Reply::Refused(Fault::Foreign)),
    ]
}

/// Each step is answered.
fn answered<R: Abort>(rt: &R, host: &mut Host) -> Result<(), Fail> {
    for (pid, op, reply) in steps() {
        let event = operate(host, pid, &op)?;
        assert_eq!(rt; event, Event::Done { pid, op, reply });
    }
    Ok(())
}

/// Each step stands in the journal. The directory's exit item is one entry of the object, and the register one pin.
fn recorded<R: Abort>(rt: &R, host: &Host) {
    let steps = steps();
    assert_eq!(rt; host.len(), 8);
    for number in 0..8u64 {
        let (pid, op, reply) = steps[number as usize];
        assert_eq!(rt; host.event(number), Some(Event::Done { pid, op, reply }));
    }
    assert_eq!(rt; host.entries(name(1, 1)), 1);
    assert_eq!(rt; host.pins(name(1, 1)), 1);
}

/// Another process's object is loaded from the directory, and may be held; it can't be stored, and its fields can't be loaded.
fn hold<R: Abort>(rt: &R, host: &mut Host) -> Result<(), Fail> {
    answered(rt, host)?;
    recorded(rt, host);
    Ok(())
}

#[test]
fn a_foreign_object_is_held_and_not_stored(rt: HostRuntime) -> Result<(), Fail> {
    let mut host = usual(rt.alloc())?;
    let end = hold(&rt, &mut host);
    let_go(host);
    end
}
