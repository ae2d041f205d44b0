//! Sizes, serials and slots at the corners.
use k_space::{Area, Body, Segment};
use k_types::{Field, Seg, Serial, TypeId, TypeTable};
use std::test::Fail;

// Two objects of 40 bytes, one after the other, where one can live at once: the second lies in the slot of the first, under a
// serial of its own.
#[test]
fn a_slot_used_again_has_a_new_serial(rt: HostRuntime) -> Result<(), Fail> {
    let first = Body::directory(rt.alloc(), 3)?;
    let second = Body::directory(rt.alloc(), 3)?;
    let mut segment = Segment::make(rt.alloc(), Seg(1), 1)?;
    let one = segment.place(first);
    assert_eq!(rt; segment.bytes(), 40);
    assert!(rt; !segment.has_room());
    let gone = segment.free_unmarked();
    assert!(rt; gone.is_some());
    assert_eq!(rt; segment.bytes(), 0);
    assert!(rt; segment.find(one.serial).is_none());
    assert!(rt; segment.has_room());
    let two = segment.place(second);
    assert_eq!(rt; one.serial.0, 1);
    assert_eq!(rt; two.serial.0, 2);
    assert_eq!(rt; one.slot.0, two.slot.0);
    let mut area = Area::make(rt.alloc(), 1)?;
    area.add(segment);
    assert!(rt; area.get(Seg(1)).is_some());
    assert!(rt; area.get(Seg(0)).is_none());
    Ok(())
}

// A full segment of one object gets room for three, and both objects stay where they are found; then it is left with room for two.
#[test]
fn a_full_segment_grows(rt: HostRuntime) -> Result<(), Fail> {
    let first = Body::directory(rt.alloc(), 3)?;
    let second = Body::directory(rt.alloc(), 3)?;
    let mut segment = Segment::make(rt.alloc(), Seg(1), 1)?;
    let one = segment.place(first);
    assert!(rt; !segment.has_room());
    segment.grow(3)?;
    assert!(rt; segment.has_room());
    let two = segment.place(second);
    assert!(rt; segment.has_room());
    assert!(rt; one.slot.0 != two.slot.0);
    assert!(rt;
        segment
            .find(one.serial)
            .is_some_and(|slot| slot.0 == one.slot.0)
    );
    assert!(rt;
        segment
            .find(two.serial)
            .is_some_and(|slot| slot.0 == two.slot.0)
    );
    segment.narrow(2);
    assert!(rt; !segment.has_room());
    Ok(())
}

// An object of two references and an integer takes 40 bytes.
#[test]
fn a_new_object_has_its_type_and_size(rt: HostRuntime) -> Result<(), Fail> {
    let node = Vec::from_array(rt.alloc(), [Field::Ref, Field::Ref, Field::Int])?;
    let types = TypeTable::make(rt.alloc(), &[node])?;
    let body = Body::make(rt.alloc(), &types, TypeId(0))?;
    assert_eq!(rt; body.bytes(), 40);
    assert_eq!(rt; body.type_of(), Some(TypeId(0)));
    Ok(())
}

// An object has from none to 16 fields.
#[test]
fn objects_of_no_and_of_16_fields_are_made(rt: HostRuntime) -> Result<(), Fail> {
    let none = Vec::new(rt.alloc());
    let most = vec![in rt.alloc(); Field::Int; 16]?;
    let types = TypeTable::make(rt.alloc(), &[none, most])?;
    let empty = Body::make(rt.alloc(), &types, TypeId(0))?;
    let full = Body::make(rt.alloc(), &types, TypeId(1))?;
    assert_eq!(rt; empty.bytes(), 16);
    assert_eq!(rt; full.bytes(), 144);
    let empty = Body::directory(rt.alloc(), 0)?;
    let full = Body::directory(rt.alloc(), 16)?;
    assert_eq!(rt; empty.bytes(), 16);
    assert_eq!(rt; full.bytes(), 144);
    Ok(())
}

// A segment or an area may have no room at all.
#[test]
fn tables_without_room_are_made(rt: HostRuntime) -> Result<(), Fail> {
    let segment = Segment::make(rt.alloc(), Seg(0), 0)?;
    assert_eq!(rt; segment.made(), 0);
    assert!(rt; segment.find(Serial(0)).is_none());
    let area = Area::make(rt.alloc(), 0)?;
    assert_eq!(rt; area.len(), 0);
    assert!(rt; area.get(Seg(0)).is_none());
    Ok(())
}
