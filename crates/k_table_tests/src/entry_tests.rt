//! Counts that rise and fall, and walks through the objects of a home.
ghost use Rattle.std.specs.Prelude.{◌≡◌};
ghost use Rattle.k_types.specs.Names.{name_of};

use k_entry::EntryTable;
use k_types::{Heap, Link, Name, Pid, Seg, Serial, Slot};
use std::test::Fail;

fn link(seg: u32, serial: u32) -> Link
    ensures { name_of result ≡ record { seg = record { 0 = seg }; serial = record { 0 = serial } } }
{
    Link {
        seg: Seg(seg),
        slot: Slot(0),
        serial: Serial(serial),
    }
}

fn name(seg: u32, serial: u32) -> Name
    ensures { result ≡ record { seg = record { 0 = seg }; serial = record { 0 = serial } } }
{
    Name {
        seg: Seg(seg),
        serial: Serial(serial),
    }
}

// An object that is held once is on the walk of its home, and gone after it is let go.
#[test]
fn an_item_goes_when_its_count_is_zero(rt: HostRuntime) -> Result<(), Fail> {
    let user = Heap::User(Pid(0));
    let homes = vec![in rt.alloc(); Heap::Kernel, user]?;
    let mut table = EntryTable::make(rt.alloc(), &homes, 4)?;
    table.up(link(1, 7));
    assert!(rt; table.first_of(Heap::Kernel).is_none());
    assert!(rt; table.first_of(user).is_some());
    assert_eq!(rt; table.count(name(1, 7)), 1);
    table.down(name(1, 7));
    assert_eq!(rt; table.count(name(1, 7)), 0);
    assert!(rt; table.first_of(user).is_none());
    Ok(())
}

// A walk goes on to each segment of its home, also to one that came to it later, and passes by a segment of
// another heap that has the same walk number. So does a copy, as far as the row has room.
#[test]
fn a_walk_goes_through_each_segment_of_its_home(rt: HostRuntime) -> Result<(), Fail> {
    let user = Heap::User(Pid(0));
    let homes = vec![in rt.alloc(); Heap::User(Pid(4)), user, Heap::Kernel]?;
    let mut table = EntryTable::make(rt.alloc(), &homes, 4)?;
    table.up(link(1, 7));
    table.up(link(0, 5));
    table.up(link(2, 9));
    table.rehome(Seg(2), user);
    let mut serials = [0, 0, 0];
    let mut next = table.first_of(user);
    for i in 0..3 {
        if let Some(at) = next {
            serials[i] = at.serial.0;
            assert!(rt; table.count(at.name()) == 1);
            next = table.next_at(at);
        }
    }
    assert!(rt; next.is_none());
    assert!(rt; serials == [9, 7, 0] || serials == [7, 9, 0]);
    let mut row: Vec<Name> = Vec::with_capacity(rt.alloc(), 3)?;
    assert!(rt; table.copy_of(user, &mut row));
    assert_eq!(rt; row.len(), 2);
    assert!(rt; !table.copy_of(user, &mut row));
    assert_eq!(rt; row.len(), 3);
    Ok(())
}

// A hint that has become wrong is not trusted: the object is found again in the slot that it has now.
#[test]
fn a_walk_goes_on_where_its_hint_is_stale(rt: HostRuntime) -> Result<(), Fail> {
    let homes = vec![in rt.alloc(); Heap::Kernel]?;
    let mut table = EntryTable::make(rt.alloc(), &homes, 2)?;
    table.up(link(0, 1));
    table.up(link(0, 2));
    let first = table.first_of(Heap::Kernel).ok_or("an object")?;
    assert_eq!(rt; first.serial.0, 2);
    table.down(name(0, 2));
    table.down(name(0, 1));
    table.up(link(0, 2));
    table.up(link(0, 1));
    assert_eq!(rt; table.count(first.name()), 1);
    assert!(rt; table.next_at(first).is_none());
    Ok(())
}

// A table is made for no object, and for more than 65,536 objects and segments.
#[test]
fn tables_are_made_for_none_and_for_many(rt: HostRuntime) -> Result<(), Fail> {
    let none = EntryTable::make(rt.alloc(), &[], 0)?;
    assert!(rt; none.first_of(Heap::Kernel).is_none());
    let homes = vec![in rt.alloc(); Heap::Kernel; 70_000]?;
    let many = EntryTable::make(rt.alloc(), &homes, 70_000)?;
    assert_eq!(rt; many.count(name(69_999, 1)), 0);
    assert!(rt; many.first_of(Heap::Kernel).is_none());
    Ok(())
}
