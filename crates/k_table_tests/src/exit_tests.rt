//! Targets that are added, marked, arranged and taken.
use k_exit::ExitTable;
use k_types::{Link, Name, Seg, Serial, Slot};
use std::test::Fail;

fn link(seg: u32, serial: u32) -> Link {
    Link {
        seg: Seg(seg),
        slot: Slot(0),
        serial: Serial(serial),
    }
}

// Three targets in a table of room for two chains and more, one of them twice.
#[test]
fn targets_are_added_once_and_taken_in_any_order(rt: HostRuntime) -> Result<(), Fail> {
    let mut table = ExitTable::make(rt.alloc(), 3)?;
    assert!(rt; table.add(link(2, 1)));
    assert!(rt; table.add(link(0, 5)));
    assert!(rt; !table.add(link(2, 1)));
    assert!(rt; table.add(link(0, 2)));
    assert_eq!(rt; table.len(), 3);
    let name = Name {
        seg: Seg(0),
        serial: Serial(5),
    };
    assert!(rt; table.has(name));
    table.mark(name);
    assert!(rt; table.take_into(Seg(2)).is_some());
    assert!(rt; !table.leads_into(Seg(2)));
    assert!(rt; table.take_unmarked().is_some());
    assert!(rt; table.take_unmarked().is_none());
    assert!(rt; table.has(name));
    assert_eq!(rt; table.len(), 1);
    Ok(())
}

// The order of the report: by segment, then by serial.
#[test]
fn arranged_targets_rise_by_segment_and_serial(rt: HostRuntime) -> Result<(), Fail> {
    let mut table = ExitTable::make(rt.alloc(), 3)?;
    table.add(link(2, 1));
    table.add(link(0, 5));
    table.add(link(0, 2));
    table.arrange();
    assert_eq!(rt; table.len(), 3);
    assert_eq!(rt; (table.target(0).seg.0, table.target(0).serial.0), (0, 2));
    assert_eq!(rt; (table.target(1).seg.0, table.target(1).serial.0), (0, 5));
    assert_eq!(rt; (table.target(2).seg.0, table.target(2).serial.0), (2, 1));
    Ok(())
}

// Whatever is left goes by `take_first`, marked or not, and each target once.
#[test]
fn all_targets_can_be_taken(rt: HostRuntime) -> Result<(), Fail> {
    let mut table = ExitTable::make(rt.alloc(), 2)?;
    let marked = link(1, 4);
    table.add(marked);
    table.add(link(3, 6));
    assert!(rt; table.has(marked.name()));
    table.mark(marked.name());
    let one = table.take_first().ok_or("a target")?;
    assert!(rt; !table.has(one.name()));
    assert_eq!(rt; table.len(), 1);
    let other = table.take_first().ok_or("another target")?;
    assert!(rt; one.name() != other.name());
    assert!(rt; table.take_first().is_none());
    Ok(())
}

// A table is made for no target, for one, and for more than 65,536.
#[test]
fn tables_are_made_for_none_and_for_many(rt: HostRuntime) -> Result<(), Fail> {
    let mut none = ExitTable::make(rt.alloc(), 0)?;
    assert!(rt; !none.leads_into(Seg(0)));
    assert!(rt; none.take_first().is_none());
    for room in [1, 70_000] {
        let mut table = ExitTable::make(rt.alloc(), room)?;
        assert!(rt; table.len() < room);
        assert!(rt; table.add(link(0, 1)));
        assert_eq!(rt; table.len(), 1);
    }
    Ok(())
}
