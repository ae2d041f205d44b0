//! Laws of the objects that an area shows.
ghost use Rattle.std.specs.Prelude.{◌≡◌, ◌++◌, ◌∷◌, [], ◌&&◌, not, Bool, ℕ, List, map, filter, length, slice_set, Option, Some, is_some, option_map, None, true, false};
ghost use Rattle.k_laws.specs.k_types.declared.names.Name.{Name};
ghost use Rattle.k_laws.specs.k_types.Names.{name_eq};
ghost use Rattle.k_laws.specs.k_types.State.{Content, has, refers_in};
ghost use Rattle.k_laws.specs.k_types.Updates.{object_after_write};
ghost use Rattle.k_space.specs.Objects.{BodyValue};
ghost use Rattle.k_space.specs.Segments.{Row, Color, SegmentValue, object_of, segment_objects, row_at, with_row, placed, new_row, unmarked_segment};
ghost use Rattle.k_space.specs.Areas.{AreaValue, row_of_name};
ghost use Rattle.k_mark.specs.Shown.{name_in, area_objects, HasNoneFrom, some_refers};
ghost use Rattle.k_mark.specs.Marking.{ShowsObjects};

/// What the changes of a segment do to its objects: one more comes last, a write is that of the machine,
/// marks leave them, and what is freed alone is gone.
pub fn segments_change_their_objects()
    ensures placed { (s : SegmentValue) (slot : ℕ) (body : BodyValue) → segment_objects (placed s slot body) ≡ segment_objects s ++ object_of s.number (length s.rows) (new_row slot body) ∷ [] }
    ensures written { (s : SegmentValue) (serial : ℕ) (row : Row) (field : ℕ) (content : Content) → row_at s serial ≡ Some row →
        segment_objects (with_row s serial (Some (record row { fields = slice_set row.fields field content }))) ≡ map (object_after_write (name_in s serial) field content) (segment_objects s) }
    ensures marked { (s : SegmentValue) (serial : ℕ) (row : Row) (c : Color) → row_at s serial ≡ Some row → segment_objects (with_row s serial (Some (record row { color = c }))) ≡ segment_objects s }
    ensures unmarked { (s : SegmentValue) → segment_objects (unmarked_segment s) ≡ segment_objects s }
    ensures freed { (s : SegmentValue) (serial : ℕ) → segment_objects (with_row s serial None) ≡ filter (λ o. not (name_eq o.name (name_in s serial))) (segment_objects s) }
{}

/// The objects of an area, by rising number and serial, are those that it finds by name.
pub fn areas_have_their_objects()
    ensures has { (segments : List SegmentValue) (bound : ℕ) → HasNoneFrom segments bound → (n : Name) → has (area_objects bound segments) n ≡ is_some (row_of_name segments n) }
    ensures refers { (segments : List SegmentValue) (bound : ℕ) → HasNoneFrom segments bound → (n m : Name) → refers_in (area_objects bound segments) n m ≡ some_refers (row_of_name segments n) m }
{}

/// Marking sees of an area just these objects, and what they refer to.
pub fn marking_sees_the_objects()
    ensures { (area : AreaValue) (bound : ℕ) → HasNoneFrom area.segments bound → ShowsObjects area (area_objects bound area.segments) }
{}
