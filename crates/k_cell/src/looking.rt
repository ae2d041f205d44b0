//! Look-ups of one object in an area, by its name or by a reference with a hint of its slot, and of room for one more.
ghost use Rattle.std.specs.Prelude.{◌≡◌, ◌↔◌, IsTrue, is_some, length, option_map, slice_get, slice_index_or};
ghost use Rattle.k_mark.specs.k_types.Names.{name_of};
ghost use Rattle.k_mark.specs.k_types.State.{Holds};
ghost use Rattle.k_mark.specs.k_space.Areas.{HasDistinct, row_of_name};
ghost use Rattle.k_mark.specs.k_space.Objects.{content_of};
ghost use Rattle.k_cell.specs.Looks.{row_fields, row_type};
ghost use Rattle.k_cell.specs.Placed.{CanPlace};

use k_mark::{Area, Link, Name, Seg, Stored, TypeId};

/// Whether the object is there.
pub(crate) fn lives_at(area: &Area, at: Name) -> bool
    requires { HasDistinct area.now.segments }
    ensures { result ≡ is_some (row_of_name area.now.segments at) }
{
    match area.get(at.seg) {
        Some(segment) => segment.find(at.serial).is_some(),
        None => false,
    }
}

/// The number of its fields; 0 where it is not there.
pub(crate) fn count_at(area: &Area, at: Link) -> u32
    requires { HasDistinct area.now.segments }
    ensures { result ≡ length (row_fields (row_of_name area.now.segments (name_of at))) }
{
    let Some(segment) = area.get(at.seg) else {
        return 0;
    };
    let Some(slot) = segment.find_near(at.serial, at.slot) else {
        return 0;
    };
    segment.field_count(slot)
}

/// What its field holds; 0 where there is no such field.
pub(crate) fn field_at(area: &Area, at: Link, field: u32) -> Stored
    requires { HasDistinct area.now.segments }
    ensures { content_of result ≡ slice_index_or (row_fields (row_of_name area.now.segments (name_of at))) field (Holds 0) }
{
    let Some(segment) = area.get(at.seg) else {
        return Stored::Holds(0);
    };
    let Some(slot) = segment.find_near(at.serial, at.slot) else {
        return Stored::Holds(0);
    };
    if field >= segment.field_count(slot) {
        return Stored::Holds(0);
    }
    segment.stored(slot, field)
}

/// What its field holds; none where there is no such field.
pub(crate) fn found_at(area: &Area, at: Link, field: u32) -> Option<Stored>
    requires { HasDistinct area.now.segments }
    ensures { option_map content_of result ≡ slice_get (row_fields (row_of_name area.now.segments (name_of at))) field }
{
    let segment = area.get(at.seg)?;
    let slot = segment.find_near(at.serial, at.slot)?;
    if field >= segment.field_count(slot) {
        return None;
    }
    Some(segment.stored(slot, field))
}

/// Its type; none where it has none, or is not there.
pub(crate) fn type_at(area: &Area, at: Name) -> Option<TypeId>
    requires { HasDistinct area.now.segments }
    ensures { result ≡ row_type (row_of_name area.now.segments at) }
{
    let segment = area.get(at.seg)?;
    let slot = segment.find(at.serial)?;
    segment.type_of(slot)
}

/// Whether the segment of that number is there and has room for one more object.
pub(crate) fn has_room_in(area: &Area, seg: Seg) -> bool
    requires { HasDistinct area.now.segments }
    ensures { IsTrue result ↔ CanPlace area.now.segments seg.0 }
{
    match area.get(seg) {
        Some(segment) => {
            // Read so that the proof knows what holds of every segment.
            let _given = segment.made();
            segment.has_room()
        }
        None => false,
    }
}
