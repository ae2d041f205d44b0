//! Whole collections, and what a process is charged between them.
use crate::collections::ended;
use crate::driving::{charge, collect, collect_kernel, exit, meet, operate};
use crate::usual::{EVENTS, NODE, P1, P2, USUAL, let_go, name, new, rooms, usual};
use k_chronicle::{Freed, Host, HostError};
use k_types::{Heap, Name};
use std::process::Abort;
use std::test::Fail;

/// The name of the one object that was freed; none where there were more or fewer.
fn only(freed: &Freed) -> Option<Name> {
    match freed.names() {
        [one] => Some(*one),
        _ => None,
    }
}

/// Of two objects the first is dropped and collected, and the other goes with its process, at the kernel's collection. The list has the
/// name of the one, and then that of the other.
fn collect_both<R: Abort>(rt: &R, host: &mut Host, freed: &mut Freed) -> Result<(), Fail> {
    operate(host, P1, &new(0))?;
    operate(host, P1, &new(0))?;
    meet(host, P1)?;
    assert_eq!(rt; charge(host, P1), Some(80));
    assert_eq!(rt; collect(host, P1, freed)?, ended(Heap::User(P1), 1, 40, 0));
    assert_eq!(rt; only(freed), Some(name(1, 1)));
    assert_eq!(rt; charge(host, P1), Some(40));
    exit(host, P1)?;
    assert_eq!(rt; charge(host, P1), Some(0));
    assert_eq!(rt;
        collect_kernel(host, P2, freed)?,
        ended(Heap::Kernel, 1, 40, 0)
    );
    assert_eq!(rt; only(freed), Some(name(1, 2)));
    Ok(())
}

#[test]
fn what_is_collected_is_not_charged(rt: HostRuntime) -> Result<(), Fail> {
    let mut host = usual(rt.alloc())?;
    let mut freed = Freed::make(rt.alloc(), EVENTS)?;
    let end = collect_both(&rt, &mut host, &mut freed);
    let_go(host);
    end
}

/// With room for one event no collection begins: an operation can still be done, which it could not beside an open one.
fn collect_without_room<R: Abort>(rt: &R, host: &mut Host, freed: &mut Freed) -> Result<(), Fail> {
    operate(host, P1, &new(0))?;
    operate(host, P1, &new(0))?;
    assert_eq!(rt; collect(host, P1, freed).err(), Some(HostError::Full));
    assert_eq!(rt;
        collect_kernel(host, P1, freed).err(),
        Some(HostError::Full)
    );
    operate(host, P1, &new(0))?;
    Ok(())
}

#[test]
fn no_collection_stops_half_way(rt: HostRuntime) -> Result<(), Fail> {
    let mut host = Host::read(rt.alloc(), USUAL, NODE, 100, rooms(3))?;
    let mut freed = Freed::make(rt.alloc(), EVENTS)?;
    let end = collect_without_room(&rt, &mut host, &mut freed);
    let_go(host);
    end
}
