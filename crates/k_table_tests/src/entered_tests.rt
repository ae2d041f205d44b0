//! Calls of both tables, one after another.
use k_book::EnteredTables;
use k_types::{Heap, Link, Name, Pid, Seg, Serial, Slot};
use std::test::Fail;

// An object that is entered and pinned comes to another home on both walks.
#[test]
fn an_object_goes_on_both_walks(rt: HostRuntime) -> Result<(), Fail> {
    let user = Heap::User(Pid(0));
    let homes = vec![in rt.alloc(); Heap::Kernel, user]?;
    let mut tables = EnteredTables::make(rt.alloc(), &homes, 2, 2)?;
    let object = Link {
        seg: Seg(1),
        slot: Slot(0),
        serial: Serial(7),
    };
    tables.enter(object);
    tables.pin(object);
    assert!(rt; tables.first_entry(user).is_some());
    assert!(rt; tables.first_pin(Heap::Kernel).is_none());
    tables.rehome(Seg(1), Heap::Kernel);
    assert!(rt; tables.first_entry(user).is_none());
    assert!(rt; tables.first_pin(Heap::Kernel).is_some());
    assert_eq!(rt; tables.entries(object.name()), 1);
    assert_eq!(rt; tables.pins(object.name()), 1);
    Ok(())
}
