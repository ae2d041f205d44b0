//! The cell of the first of two shared heaps, beside one process.
ghost use Rattle.std.specs.Prelude.{◌≡◌, IfOk, length};

use crate::notes::lone_note;
use k_shared::SharedCell;
use k_space::Body;
use k_types::{
    LimitId, LimitRow, Link, NoMemory, Phase, Pid, Seg, Serial, Setup, SharedId, Slot, TypeTable,
};
use std::alloc::Global;
use std::test::Fail;

const DIRECTORY: Link = Link {
    seg: Seg(0),
    slot: Slot(0),
    serial: Serial(1),
};

fn small_setup(alloc: Global) -> Result<Setup, NoMemory>
    ensures procs { IfOk result (λ s. length s.procs.items ≡ 1) }
    ensures shared { IfOk result (λ s. s.shared ≡ 2) }
{
    let root = LimitRow {
        parent: None,
        hard: true,
        max: 100,
    };
    Ok(Setup {
        version: 1,
        ceiling: 50,
        dir_fields: 0,
        types: TypeTable::make(alloc, &[])?,
        limits: vec![in alloc; root]?,
        procs: vec![in alloc; LimitId(0)]?,
        shared: 2,
    })
}

// The heap is filled, frozen, and given away whole.
#[test]
#[tactic(auto, using(k_shared::proofs::Rooms::serial_left))]
fn a_shared_heap_is_filled_and_given_away(rt: HostRuntime) -> Result<(), Fail> {
    let setup = small_setup(rt.alloc())?;
    let note = lone_note(rt.alloc())?;
    let body = Body::directory(rt.alloc(), 1)?;
    let mut cell = SharedCell::make(rt.alloc(), &setup, SharedId(0), 1, 1, note)?;
    assert_eq!(rt; (cell.id(), cell.seg()), (SharedId(0), Seg(2)));
    assert_eq!(rt; cell.phase(), Phase::Unmade);
    cell.set_phase(Phase::Populating(Pid(0)));
    let link = cell.place(body);
    assert_eq!(rt; cell.bytes(), 24);
    assert_eq!(rt; link.name().seg, Seg(2));
    assert!(rt; cell.add_exit(DIRECTORY));
    assert!(rt; cell.has_exit(DIRECTORY.name()));
    cell.set_phase(Phase::Frozen(link.name()));
    assert_eq!(rt; cell.take_into(Seg(0)), Some(DIRECTORY.name()));
    assert!(rt; cell.take_first().is_none());
    let given = cell.take_segment(Seg(2));
    assert!(rt; given.is_some());
    cell.set_phase(Phase::Absorbed);
    assert_eq!(rt; (cell.bytes(), cell.exit_count()), (0, 0));
    assert_eq!(rt; cell.phase(), Phase::Absorbed);
    Ok(())
}
