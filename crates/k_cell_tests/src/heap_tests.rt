//! A cell that is made, and has room for an object.
use crate::notes::lone_note;
use k_heap::{CellRooms, HeapCell};
use k_space::Body;
use k_types::{Field, LimitId, Pid, Setup, TypeId, TypeTable};
use std::alloc::Global;
use std::collections::VecDeque;
use std::process::Abort;
use std::test::Fail;

/// Room for one object, one exit item and one event.
const ROOMS: CellRooms = CellRooms {
    objects: 1,
    exits: 1,
    tail: 1,
};

/// The cell of the one process of a setup, with a body of a reference and a number.
fn small_cell(alloc: Global) -> Result<HeapCell, Fail> {
    let note = lone_note(alloc)?;
    let node = Vec::from_array(alloc, [Field::Ref, Field::Int])?;
    let types = TypeTable::make(alloc, &[node])?;
    let mut bodies = VecDeque::with_capacity(alloc, 1)?;
    bodies.push_back_reserved(Body::make(alloc, &types, TypeId(0))?);
    let setup = Setup {
        version: 1,
        ceiling: 0,
        dir_fields: 0,
        types,
        limits: Vec::new(alloc),
        procs: Vec::from_array(alloc, [LimitId(0)])?,
        shared: 0,
    };
    let cell = HeapCell::make(alloc, &setup, Pid(0), bodies, ROOMS, note)?;
    Ok(cell)
}

/// Compares what a process has that has done nothing.
fn check_made<R: Abort>(rt: &R, cell: &HeapCell) {
    assert!(rt; cell.lives());
    assert_eq!(rt; cell.done(), 0);
    assert_eq!(rt; cell.bytes(), 0);
}

// The process lives, has done nothing, and its heap has no object.
#[test]
fn a_cell_is_made(rt: HostRuntime) -> Result<(), Fail> {
    let cell = small_cell(rt.alloc())?;
    check_made(&rt, &cell);
    Ok(())
}
