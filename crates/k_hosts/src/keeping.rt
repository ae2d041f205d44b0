//! A keeper of which one operation has used up all but the reserve.
use crate::usual::{NODE, P1, P2, S, USUAL, new, rooms, share};
use k_chronicle::{HostError, Keeper, OpenError};
use k_types::{Event, Op, Pid, SharedId};
use std::alloc::Global;
use std::process::Abort;
use std::test::Fail;

/// Three events for each of two processes, one for the shared heap and three.
const FEWEST: u32 = 10;

fn opened(alloc: Global, events: u32) -> Result<Keeper, OpenError> {
    Keeper::read(alloc, USUAL, NODE, 100, rooms(events))
}

/// Drops the keeper, which tests only lend.
fn let_go(_keeper: Keeper) {}

fn operate(keeper: &mut Keeper, pid: Pid, op: &Op) -> Result<Event, HostError> {
    keeper.operate(pid, op)
}

fn collect(keeper: &mut Keeper, pid: Pid) -> Result<Event, HostError> {
    keeper.collect(pid)
}

fn collect_kernel(keeper: &mut Keeper, pid: Pid) -> Result<Event, HostError> {
    keeper.collect_kernel(pid)
}

fn absorb(keeper: &mut Keeper, id: SharedId) -> Result<Event, HostError> {
    keeper.absorb(id)
}

fn kill(keeper: &mut Keeper, pid: Pid) -> Result<Event, HostError> {
    keeper.kill(pid)
}

fn left(keeper: &Keeper) -> u64 {
    keeper.left()
}

fn len(keeper: &Keeper) -> u64 {
    keeper.host().len()
}

/// The second operation is refused, and so is a third collection; each heap is collected once, and both processes end.
fn end_in_order<R: Abort>(rt: &R, keeper: &mut Keeper) -> Result<(), Fail> {
    operate(keeper, P1, &new(0))?;
    assert_eq!(rt;
        operate(keeper, P2, &new(0)).err(),
        Some(HostError::Reserved)
    );
    collect(keeper, P1)?;
    collect(keeper, P2)?;
    assert_eq!(rt; collect(keeper, P1).err(), Some(HostError::Reserved));
    assert_eq!(rt; left(keeper), 3);
    kill(keeper, P1)?;
    collect_kernel(keeper, P2)?;
    assert_eq!(rt; collect_kernel(keeper, P2).err(), Some(HostError::Reserved));
    kill(keeper, P2)?;
    assert_eq!(rt; kill(keeper, P2).err(), Some(HostError::Ended));
    assert_eq!(rt; len(keeper), 9);
    Ok(())
}

#[test]
fn each_heap_is_collected_once_more(rt: HostRuntime) -> Result<(), Fail> {
    let mut keeper = opened(rt.alloc(), FEWEST)?;
    let end = end_in_order(&rt, &mut keeper);
    let_go(keeper);
    end
}

/// The shared heap is an orphan once its process has ended; the kernel's collection absorbs it by the last event that is left.
fn end_with_an_orphan<R: Abort>(rt: &R, keeper: &mut Keeper) -> Result<(), Fail> {
    operate(keeper, P1, &share())?;
    collect(keeper, P1)?;
    collect(keeper, P2)?;
    kill(keeper, P1)?;
    collect_kernel(keeper, P2)?;
    assert_eq!(rt; left(keeper), 0);
    kill(keeper, P2)?;
    Ok(())
}

#[test]
fn orphans_are_absorbed_out_of_the_reserve(rt: HostRuntime) -> Result<(), Fail> {
    let mut keeper = opened(rt.alloc(), FEWEST)?;
    let end = end_with_an_orphan(&rt, &mut keeper);
    let_go(keeper);
    end
}

/// With one event more an orphan is absorbed by itself. The kernel's collection then has none to absorb.
fn absorb_and_collect<R: Abort>(rt: &R, keeper: &mut Keeper) -> Result<(), Fail> {
    operate(keeper, P1, &share())?;
    assert_eq!(rt; absorb(keeper, S).err(), Some(HostError::Orphan));
    kill(keeper, P1)?;
    absorb(keeper, S)?;
    assert_eq!(rt; absorb(keeper, S).err(), Some(HostError::Orphan));
    collect_kernel(keeper, P2)?;
    assert_eq!(rt; left(keeper), 5);
    assert_eq!(rt; absorb(keeper, SharedId(1)).err(), Some(HostError::Unknown));
    Ok(())
}

#[test]
fn an_orphan_is_absorbed_by_itself(rt: HostRuntime) -> Result<(), Fail> {
    let mut keeper = opened(rt.alloc(), FEWEST + 1)?;
    let end = absorb_and_collect(&rt, &mut keeper);
    let_go(keeper);
    end
}

#[test]
fn too_few_events_open_no_keeper(rt: HostRuntime) -> Result<(), Fail> {
    match opened(rt.alloc(), FEWEST - 1) {
        Ok(keeper) => {
            let_go(keeper);
            assert!(rt; false);
        }
        Err(why) => assert_eq!(rt; why, OpenError::Terms),
    }
    Ok(())
}
