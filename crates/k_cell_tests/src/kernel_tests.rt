//! The kernel's cell as it is made.
use crate::notes::lone_note;
use k_kernel::KernelCell;
use k_types::{Setup, TypeTable};
use std::alloc::Global;
use std::process::Abort;
use std::test::Fail;

/// A cell whose directory has two fields.
fn small_cell(alloc: Global) -> Result<KernelCell, Fail> {
    let note = lone_note(alloc)?;
    let setup = Setup {
        version: 1,
        ceiling: 0,
        dir_fields: 2,
        types: TypeTable::make(alloc, &[])?,
        limits: Vec::new(alloc),
        procs: Vec::new(alloc),
        shared: 0,
    };
    let cell = KernelCell::make(alloc, &setup, 1, 1, note)?;
    Ok(cell)
}

/// Compares the directory.
fn check_directory<R: Abort>(rt: &R, cell: &KernelCell) {
    let directory = cell.directory().name();
    assert!(rt; cell.has(directory));
    assert_eq!(rt; cell.field_count(cell.directory()), 2);
    assert_eq!(rt; cell.bytes(), 32);
}

// The kernel has the directory of two fields.
#[test]
fn the_directory_is_there(rt: HostRuntime) -> Result<(), Fail> {
    let cell = small_cell(rt.alloc())?;
    check_directory(&rt, &cell);
    Ok(())
}
