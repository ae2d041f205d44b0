//! Hosts with little room for one thing each.
use crate::driving::operate;
use crate::usual::{NODE, P1, USUAL, clear, let_go, new, rooms, store};
use k_chronicle::{Host, HostError, Keeper, Rooms, Taken};
use k_types::{Op, Reg};
use std::process::Abort;
use std::test::Fail;

/// The journal has so many events, and lacks so many of the first process.
fn check_lengths<R: Abort>(rt: &R, host: &Host, published: u64, waiting: u32) {
    assert_eq!(rt; host.len(), published);
    assert_eq!(rt; host.unpublished(P1), Some(waiting));
}

/// The second event inside the heap fills the row of unpublished ones, and both are published.
fn fill_a_row<R: Abort>(rt: &R, host: &mut Host) -> Result<(), Fail> {
    operate(host, P1, &clear(0))?;
    check_lengths(rt, host, 0, 1);
    operate(host, P1, &clear(0))?;
    check_lengths(rt, host, 2, 0);
    Ok(())
}

#[test]
fn a_full_row_is_published(rt: HostRuntime) -> Result<(), Fail> {
    let two = Rooms {
        tail: 2,
        ..rooms(100)
    };
    let mut host = Host::read(rt.alloc(), USUAL, NODE, 1, two)?;
    let end = fill_a_row(&rt, &mut host);
    let_go(host);
    end
}

/// Of two allocations the second is refused for want of room for its object, and of two kept events the first is forgotten.
fn make_one_object<R: Abort>(rt: &R, host: &mut Host) -> Result<(), Fail> {
    let first = operate(host, P1, &new(0))?;
    assert_eq!(rt; host.event(0), Some(first));
    assert_eq!(rt; operate(host, P1, &new(1)).err(), Some(HostError::Objects));
    operate(host, P1, &Op::Dir { reg: Reg(1) })?;
    assert_eq!(rt; host.event(0), None);
    assert!(rt; host.event(1).is_some());
    Ok(())
}

#[test]
fn a_full_heap_is_told(rt: HostRuntime) -> Result<(), Fail> {
    let one = Rooms {
        kept: 1,
        objects: 1,
        ..rooms(100)
    };
    let mut host = Host::read(rt.alloc(), USUAL, NODE, 2, one)?;
    let end = make_one_object(&rt, &mut host);
    let_go(host);
    end
}

/// A reference into the kernel's heap needs an exit item, of which there is none.
fn refer_out<R: Abort>(rt: &R, host: &mut Host) -> Result<(), Fail> {
    operate(host, P1, &new(0))?;
    operate(host, P1, &Op::Dir { reg: Reg(1) })?;
    assert_eq!(rt;
        operate(host, P1, &store(0, 0, 1)).err(),
        Some(HostError::Items)
    );
    Ok(())
}

#[test]
fn the_want_of_items_is_told(rt: HostRuntime) -> Result<(), Fail> {
    let none = Rooms {
        exits: 0,
        ..rooms(100)
    };
    let mut host = Host::read(rt.alloc(), USUAL, NODE, 2, none)?;
    let end = refer_out(&rt, &mut host);
    let_go(host);
    end
}

fn take(keeper: &mut Keeper) -> Option<Taken> {
    keeper.take()
}

fn make(keeper: &mut Keeper, reg: u8) -> Result<(), Fail> {
    keeper.operate(P1, &new(reg))?;
    Ok(())
}

/// The number of the next event; none where there is none.
fn number(taken: Option<Taken>) -> Option<u64> {
    Some(taken?.number)
}

/// The first event is taken out at once, and of the next two, of which one is kept, the second.
fn take_in_order<R: Abort>(rt: &R, keeper: &mut Keeper) -> Result<(), Fail> {
    assert_eq!(rt; number(take(keeper)), None);
    make(keeper, 0)?;
    assert_eq!(rt; number(take(keeper)), Some(0));
    assert_eq!(rt; number(take(keeper)), None);
    make(keeper, 0)?;
    make(keeper, 0)?;
    assert_eq!(rt; number(take(keeper)), Some(2));
    assert_eq!(rt; number(take(keeper)), None);
    Ok(())
}

/// Drops the keeper, which tests only lend.
fn let_keeper_go(_keeper: Keeper) {}

#[test]
fn each_event_is_taken_out_once(rt: HostRuntime) -> Result<(), Fail> {
    let one = Rooms {
        kept: 1,
        ..rooms(100)
    };
    let mut keeper = Keeper::read(rt.alloc(), USUAL, NODE, 4, one)?;
    let end = take_in_order(&rt, &mut keeper);
    let_keeper_go(keeper);
    end
}
