//! Laws of the changes of an area, told by its objects.
ghost use Rattle.std.specs.Prelude.{◌≡◌, ◌<◌, ◌≤◌, ◌++◌, ◌∷◌, [], ◌==◌, not, ℕ, List, map, filter, length, slice_set, Some, None};
ghost use Rattle.std.specs.List.{sum_by};
ghost use Rattle.k_laws.specs.k_types.declared.names.Name.{Name};
ghost use Rattle.k_laws.specs.k_types.State.{Content};
ghost use Rattle.k_laws.specs.k_types.Owners.{object_bytes};
ghost use Rattle.k_laws.specs.k_types.Totals.{total};
ghost use Rattle.k_laws.specs.k_types.Updates.{object_after_write, with_object};
ghost use Rattle.k_laws.specs.k_types.Sound.{IsOrdered};
ghost use Rattle.k_space.specs.Objects.{BodyValue};
ghost use Rattle.k_space.specs.Segments.{Row, SegmentValue, object_of, segment_objects, segment_bytes, placed, new_row};
ghost use Rattle.k_space.specs.Areas.{AreaValue, HasDistinct, IsBlackened, marked_at, row_of_name, segment_at, with_segment, with_row_of, grayed, unmarked};
ghost use Rattle.k_mark.specs.Sweeping.{swept, dead_bytes, dead_objects};
ghost use Rattle.k_laws.specs.CellChanges.{with_objects};
ghost use Rattle.k_mark.specs.Shown.{area_objects, HasNoneFrom, AreNumberedBelow, IsTakenOut};

/// Sweeping leaves the marked objects of an area in their order. What it counts is how many the others
/// are, and their bytes.
pub fn sweeping_leaves_the_marked_objects()
    ensures objects { (a : AreaValue) (bound : ℕ) →
        area_objects bound (swept a).segments ≡ filter (λ o. marked_at a o.name) (area_objects bound a.segments) }
    ensures dead { (a : AreaValue) (bound : ℕ) → AreNumberedBelow bound a.segments →
        dead_objects a ≡ length (filter (λ o. not (marked_at a o.name)) (area_objects bound a.segments)) }
    ensures bytes { (a : AreaValue) (bound : ℕ) → AreNumberedBelow bound a.segments →
        dead_bytes a ≡ total object_bytes (filter (λ o. not (marked_at a o.name)) (area_objects bound a.segments)) }
{}

/// The objects of an area stand in the machine's order, and one that is made in a segment comes in its
/// place among them.
pub fn placing_puts_the_object_in_its_place()
    ensures ordered { (segments : List SegmentValue) (bound : ℕ) → IsOrdered (area_objects bound segments) }
    ensures objects { (a : AreaValue) (bound : ℕ) (s : SegmentValue) (slot : ℕ) (body : BodyValue) →
        HasNoneFrom a.segments bound → segment_at a.segments s.number ≡ Some s →
        area_objects bound (with_segment a s.number (placed s slot body)).segments
        ≡ with_object (object_of s.number (length s.rows) (new_row slot body)) (area_objects bound a.segments) }
{}

/// A segment that is added brings its objects to their places among those of the area. Taking one out
/// leaves the objects of the others, and with its own in their places they are what was there.
///
pub fn segments_join_and_leave()
    ensures joined { (segments : List SegmentValue) (bound : ℕ) (s : SegmentValue) → s.number < bound → segment_at segments s.number ≡ None →
        area_objects bound (segments ++ s ∷ []) ≡ with_objects (segment_objects s) (area_objects bound segments) }
    ensures left { (old new : List SegmentValue) (bound : ℕ) (s : SegmentValue) → IsTakenOut bound old new s →
        area_objects bound new ≡ filter (λ o. not (o.name.seg.0 == s.number)) (area_objects bound old) }
    ensures parted { (old new : List SegmentValue) (bound : ℕ) (s : SegmentValue) → IsTakenOut bound old new s →
        area_objects bound old ≡ with_objects (segment_objects s) (area_objects bound new) }
    ensures none { (bound : ℕ) → area_objects bound [] ≡ [] }
    ensures alone { (bound : ℕ) (s : SegmentValue) → s.number < bound → area_objects bound (s ∷ []) ≡ segment_objects s }
{}

/// One field of an object written is the machine's write.
pub fn writing_is_that_of_the_machine()
    ensures { (a : AreaValue) (bound : ℕ) (n : Name) (row : Row) (field : ℕ) (content : Content) → row_of_name a.segments n ≡ Some row →
        area_objects bound (with_row_of a n (Some (record row { fields = slice_set row.fields field content }))).segments
        ≡ map (object_after_write n field content) (area_objects bound a.segments) }
{}

/// Marks are no part of the objects: what making gray or black or taking marks away leaves, and two areas
/// that differ in marks alone, show the same.
pub fn marks_leave_the_objects()
    ensures grayed { (a : AreaValue) (bound : ℕ) (n : Name) → area_objects bound (grayed a n).segments ≡ area_objects bound a.segments }
    ensures blackened { (old new : AreaValue) (bound : ℕ) (n : Name) → IsBlackened old new n → area_objects bound new.segments ≡ area_objects bound old.segments }
    ensures unmarked { (a : AreaValue) (bound : ℕ) → area_objects bound (unmarked a).segments ≡ area_objects bound a.segments }
    ensures same { (a b : AreaValue) (bound : ℕ) → unmarked a ≡ unmarked b → area_objects bound a.segments ≡ area_objects bound b.segments }
{}

/// The bytes of an area's objects are the sum of what its segments say.
pub fn the_bytes_are_those_of_the_segments()
    ensures { (segments : List SegmentValue) (bound : ℕ) → AreNumberedBelow bound segments →
        total object_bytes (area_objects bound segments) ≡ sum_by segment_bytes segments }
{}

/// There are no more segments than numbers for them, and fewer where one number has none.
pub fn segments_are_fewer_than_numbers()
    ensures most { (segments : List SegmentValue) (bound : ℕ) → AreNumberedBelow bound segments → length segments ≤ bound }
    ensures fewer { (segments : List SegmentValue) (bound k : ℕ) → AreNumberedBelow bound segments →
        k < bound → segment_at segments k ≡ None → length segments < bound }
{}

/// Whether numbers are distinct, and lie below a bound, is told by the numbers alone, which a changed
/// segment, a sweep and marks leave.
pub fn numbers_alone_decide()
    ensures found { (segments : List SegmentValue) (number : ℕ) (s : SegmentValue) → segment_at segments number ≡ Some s → s.number ≡ number }
    ensures distinct { (xs ys : List SegmentValue) → map (λ s. s.number) ys ≡ map (λ s. s.number) xs → HasDistinct xs → HasDistinct ys }
    ensures none { (xs ys : List SegmentValue) (bound : ℕ) → map (λ s. s.number) ys ≡ map (λ s. s.number) xs → HasNoneFrom xs bound → HasNoneFrom ys bound }
    ensures changed { (a : AreaValue) (s t : SegmentValue) → segment_at a.segments t.number ≡ Some s → map (λ s. s.number) (with_segment a t.number t).segments ≡ map (λ s. s.number) a.segments }
    ensures swept { (a : AreaValue) → map (λ s. s.number) (swept a).segments ≡ map (λ s. s.number) a.segments }
    ensures same { (a b : AreaValue) → unmarked a ≡ unmarked b → map (λ s. s.number) a.segments ≡ map (λ s. s.number) b.segments }
{}
