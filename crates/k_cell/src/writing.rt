//! Changes of one segment of an area.
ghost use Rattle.std.specs.Prelude.{◌≡◌, option_map, slice_get};
ghost use Rattle.k_mark.specs.k_types.Names.{name_of};
ghost use Rattle.k_mark.specs.k_types.State.{Holds, Refers, field_kind};
ghost use Rattle.k_mark.specs.k_space.Areas.{HasDistinct, row_of_name};
ghost use Rattle.k_cell.specs.Looks.{holds_int, holds_ref, row_fields};
ghost use Rattle.k_cell.specs.Placed.{CanPlace, IsIntAt, IsPlacedIn, IsRefAt, IsWrittenIf, IsWrittenIn};

use k_mark::{Area, Body, Link, Seg};
use k_types::Field;

/// Puts an object into the segment of that number.
pub(crate) fn place_in(area: &mut Area, seg: Seg, body: Body) -> Link
    requires distinct { HasDistinct area.old.segments }
    requires room { CanPlace area.old.segments seg.0 }
    ensures { IsPlacedIn area.old area.new seg.0 body result }
{
    let Some(segment) = area.get_mut(seg) else {
        unreachable!()
    };
    // Read so that the proof knows what holds of every segment.
    let _given = segment.made();
    segment.place(body)
}

/// Writes a reference field of an object.
pub(crate) fn write_ref_in(area: &mut Area, at: Link, field: u32, value: Option<Link>)
    requires distinct { HasDistinct area.old.segments }
    requires field { IsRefAt area.old.segments (name_of at) field }
    ensures { IsWrittenIn area.old area.new (name_of at) field (Refers (option_map name_of value)) }
{
    let Some(segment) = area.get_mut(at.seg) else {
        unreachable!()
    };
    // Read so that the proof knows that no two objects lie in one slot.
    let _given = segment.made();
    let Some(slot) = segment.find_near(at.serial, at.slot) else {
        unreachable!()
    };
    segment.write_ref(slot, field, value);
}

/// Stores the reference where the object has the field and that is a reference, and answers the field's kind; none where there is no such
/// field. The object is looked up once.
pub(crate) fn store_in(area: &mut Area, at: Link, field: u32, value: Option<Link>) -> Option<Field>
    requires { HasDistinct area.old.segments }
    ensures kind { result ≡ option_map field_kind (slice_get (row_fields (row_of_name area.old.segments (name_of at))) field) }
    ensures stored { IsWrittenIf (holds_ref (slice_get (row_fields (row_of_name area.old.segments (name_of at))) field)) area.old area.new (name_of at) field (Refers (option_map name_of value)) }
{
    let segment = area.get_mut(at.seg)?;
    let slot = segment.find_near(at.serial, at.slot)?;
    let kind = segment.kind_of(slot, field)?;
    match kind {
        Field::Ref => segment.write_ref(slot, field, value),
        Field::Int => {}
    }
    Some(kind)
}

/// Puts the number where the object has the field and that is an integer, and answers the field's kind; none where there is no such
/// field. The object is looked up once.
pub(crate) fn put_in(area: &mut Area, at: Link, field: u32, value: u64) -> Option<Field>
    requires { HasDistinct area.old.segments }
    ensures kind { result ≡ option_map field_kind (slice_get (row_fields (row_of_name area.old.segments (name_of at))) field) }
    ensures put { IsWrittenIf (holds_int (slice_get (row_fields (row_of_name area.old.segments (name_of at))) field)) area.old area.new (name_of at) field (Holds value) }
{
    let segment = area.get_mut(at.seg)?;
    let slot = segment.find_near(at.serial, at.slot)?;
    let kind = segment.kind_of(slot, field)?;
    match kind {
        Field::Ref => {}
        Field::Int => segment.write_int(slot, field, value),
    }
    Some(kind)
}

/// Writes an integer field of an object.
pub(crate) fn write_int_in(area: &mut Area, at: Link, field: u32, value: u64)
    requires distinct { HasDistinct area.old.segments }
    requires field { IsIntAt area.old.segments (name_of at) field }
    ensures { IsWrittenIn area.old area.new (name_of at) field (Holds value) }
{
    let Some(segment) = area.get_mut(at.seg) else {
        unreachable!()
    };
    // Read so that the proof knows that no two objects lie in one slot.
    let _given = segment.made();
    let Some(slot) = segment.find_near(at.serial, at.slot) else {
        unreachable!()
    };
    segment.write_int(slot, field, value);
}
