//! Collections that are open at once, and collections that are settled.
use crate::driving::{
    begin_heap, begin_kernel, end_heap, end_kernel, mark_heap, mark_kernel, operate, settle_heap,
    settle_kernel,
};
use crate::usual::{P1, P2, clear, dir, let_go, new, store, usual};
use k_chronicle::Host;
use k_types::{CellPhase, Event, Heap, Op, Pid, Reply};
use std::process::Abort;
use std::test::Fail;

/// The end of a collection of that heap.
pub(crate) fn ended(heap: Heap, freed_objects: u32, freed_bytes: u64, exits_dropped: u32) -> Event {
    Event::Ended {
        heap,
        freed_objects,
        freed_bytes,
        exits_dropped,
        shares_dropped: 0,
    }
}

/// The operation, done by the process.
fn done(pid: Pid, op: Op) -> Event {
    Event::Done {
        pid,
        op,
        reply: Reply::Done,
    }
}

/// An object of the first process is stored into the directory, dropped, and its reference there overwritten.
fn overwrite_one(host: &mut Host) -> Result<(), Fail> {
    operate(host, P1, &new(0))?;
    operate(host, P1, &dir(1))?;
    operate(host, P1, &store(1, 0, 0))?;
    operate(host, P1, &clear(0))?;
    operate(host, P1, &store(1, 0, 0))?;
    Ok(())
}

/// The open collection of the kernel's heap drops the item of the overwritten reference.
fn drop_one<R: Abort>(rt: &R, host: &mut Host) -> Result<(), Fail> {
    mark_kernel(host)?;
    assert_eq!(rt; end_kernel(host)?, ended(Heap::Kernel, 0, 0, 1));
    Ok(())
}

/// The open collection of the first process's heap frees so many objects.
fn free<R: Abort>(rt: &R, host: &mut Host, objects: u32, bytes: u64) -> Result<(), Fail> {
    mark_heap(host, P1)?;
    assert_eq!(rt;
        end_heap(host, P1)?,
        ended(Heap::User(P1), objects, bytes, 0)
    );
    Ok(())
}

/// The end of the kernel's collection drops an item into a heap that is being collected: that collection frees nothing, since its roots
/// were recorded before, and the next one frees the object.
fn overlap<R: Abort>(rt: &R, host: &mut Host) -> Result<(), Fail> {
    overwrite_one(host)?;
    assert_eq!(rt; begin_heap(host, P1)?, done(P1, Op::Collect));
    assert_eq!(rt; begin_kernel(host, P2)?, done(P2, Op::KCollect));
    drop_one(rt, host)?;
    free(rt, host, 0, 0)?;
    begin_heap(host, P1)?;
    free(rt, host, 1, 40)
}

#[test]
fn two_collections_are_open(rt: HostRuntime) -> Result<(), Fail> {
    let mut host = usual(rt.alloc())?;
    let end = overlap(&rt, &mut host);
    let_go(host);
    end
}

/// The same, where the heap is marked already when the item is dropped.
fn overlap_marked<R: Abort>(rt: &R, host: &mut Host) -> Result<(), Fail> {
    overwrite_one(host)?;
    begin_heap(host, P1)?;
    mark_heap(host, P1)?;
    begin_kernel(host, P2)?;
    drop_one(rt, host)?;
    assert_eq!(rt; end_heap(host, P1)?, ended(Heap::User(P1), 0, 0, 0));
    begin_heap(host, P1)?;
    free(rt, host, 1, 40)
}

#[test]
fn an_item_is_dropped_after_the_marking(rt: HostRuntime) -> Result<(), Fail> {
    let mut host = usual(rt.alloc())?;
    let end = overlap_marked(&rt, &mut host);
    let_go(host);
    end
}

/// The heap of the first process is settled: its open collection has ended, and is the fourth event.
fn settle<R: Abort>(rt: &R, host: &mut Host) -> Result<(), Fail> {
    settle_heap(host, P1)?;
    assert_eq!(rt; host.event(3), Some(ended(Heap::User(P1), 1, 40, 0)));
    assert_eq!(rt; host.len(), 4);
    assert_eq!(rt; host.phase(P1), Some(CellPhase::Idle));
    Ok(())
}

/// An object is made and dropped, and a collection of its heap begins.
fn begin_one(host: &mut Host) -> Result<(), Fail> {
    operate(host, P1, &new(0))?;
    operate(host, P1, &clear(0))?;
    begin_heap(host, P1)?;
    Ok(())
}

/// What has begun is marked and ended, and settling again does nothing.
fn settle_twice<R: Abort>(rt: &R, host: &mut Host) -> Result<(), Fail> {
    begin_one(host)?;
    settle(rt, host)?;
    settle(rt, host)
}

/// What is marked is ended.
fn settle_marked<R: Abort>(rt: &R, host: &mut Host) -> Result<(), Fail> {
    begin_one(host)?;
    mark_heap(host, P1)?;
    settle(rt, host)
}

/// A collection of the kernel's heap begins, and is marked and ended when it is settled.
fn settle_the_kernel<R: Abort>(rt: &R, host: &mut Host) -> Result<(), Fail> {
    begin_kernel(host, P2)?;
    settle_kernel(host)?;
    assert_eq!(rt; host.event(1), Some(ended(Heap::Kernel, 0, 0, 0)));
    assert_eq!(rt; host.len(), 2);
    assert_eq!(rt; host.kernel_phase(), CellPhase::Idle);
    Ok(())
}

#[test]
fn an_open_collection_is_settled(rt: HostRuntime) -> Result<(), Fail> {
    let mut host = usual(rt.alloc())?;
    let end = settle_twice(&rt, &mut host);
    let_go(host);
    end
}

#[test]
fn a_marked_collection_is_settled(rt: HostRuntime) -> Result<(), Fail> {
    let mut host = usual(rt.alloc())?;
    let end = settle_marked(&rt, &mut host);
    let_go(host);
    end
}

#[test]
fn an_open_collection_of_the_kernel_is_settled(rt: HostRuntime) -> Result<(), Fail> {
    let mut host = usual(rt.alloc())?;
    let end = settle_the_kernel(&rt, &mut host);
    let_go(host);
    end
}
