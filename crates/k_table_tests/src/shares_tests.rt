//! Calls of the table, one after another.
use k_shares::ShareTable;
use k_types::{Phase, Pid, SharedId};
use std::test::Fail;

// A heap whose only sharer goes is an orphan, and no more once it is absorbed.
#[test]
fn a_heap_without_a_sharer_is_an_orphan(rt: HostRuntime) -> Result<(), Fail> {
    let mut table = ShareTable::make(rt.alloc(), 2, 3)?;
    let (pid, heap) = (Pid(1), SharedId(2));
    assert!(rt; table.first_orphan().is_none());
    table.set_phase(heap, Phase::Populating(pid));
    table.grow(heap, 40);
    assert_eq!(rt; table.first_orphan(), Some(heap));
    table.add(pid, heap);
    assert!(rt; table.first_orphan().is_none());
    table.remove(pid, heap);
    assert_eq!(rt; table.living(), 2);
    table.end(pid);
    assert_eq!(rt; table.living(), 1);
    assert_eq!(rt; table.first_orphan(), Some(heap));
    assert_eq!(rt; table.bytes_of(heap), 40);
    table.set_phase(heap, Phase::Absorbed);
    assert_eq!(rt; table.bytes_of(heap), 0);
    assert!(rt; table.first_orphan().is_none());
    Ok(())
}
