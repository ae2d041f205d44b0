//! Laws of what a sweep adds up.
ghost use Rattle.std.specs.Prelude.{◌≡◌, ◌*◌, ◌≤◌, ◌∷◌, [], ℕ, List, length};
ghost use Rattle.std.specs.List.{AllByRecursion};
ghost use Rattle.k_laws.specs.k_types.State.{Object};
ghost use Rattle.k_laws.specs.k_types.Owners.{object_bytes};
ghost use Rattle.k_laws.specs.k_types.Totals.{total};
ghost use Rattle.k_space.specs.Segments.{SegmentValue, IsSegment, made};
ghost use Rattle.k_space.specs.Areas.{AreaValue};
ghost use Rattle.k_mark.specs.Sweeping.{dead_bytes, dead_objects};
ghost use Rattle.k_mark.specs.Shown.{area_objects, AreNumberedBelow};

/// What a sweep adds up is bounded: in an area of one segment by the serials that were given, 144 bytes for
/// each; in any area by the objects that are there, 144 bytes for each where none has more than 16 fields.
pub fn sums_of_a_sweep_are_bounded()
    ensures one { (s : SegmentValue) (room : ℕ) → IsSegment s → dead_objects (record { segments = s ∷ []; room = room }) ≤ made s }
    ensures one_bytes { (s : SegmentValue) (room : ℕ) → IsSegment s → dead_bytes (record { segments = s ∷ []; room = room }) ≤ 144 * made s }
    ensures all { (a : AreaValue) (bound : ℕ) → AreNumberedBelow bound a.segments → dead_objects a ≤ length (area_objects bound a.segments) }
    ensures all_bytes { (a : AreaValue) (bound : ℕ) → AreNumberedBelow bound a.segments → dead_bytes a ≤ total object_bytes (area_objects bound a.segments) }
    ensures bytes { (objects : List Object) → AllByRecursion (λ o. length o.fields ≤ 16) objects → total object_bytes objects ≤ 144 * length objects }
{}
