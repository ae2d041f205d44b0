//! Laws of what a name finds in an area.
ghost use Rattle.std.specs.Prelude.{if◌then◌else◌, ◌≡◌, ◌++◌, ◌∷◌, [], ◌==◌, ◌||◌, ◌&&◌, ℕ, List, length, slice_set, is_some, IsFalse, Some, None};
ghost use Rattle.k_laws.specs.k_types.declared.names.Name.{Name};
ghost use Rattle.k_laws.specs.k_types.Names.{name_eq};
ghost use Rattle.k_laws.specs.k_types.State.{Content};
ghost use Rattle.k_space.specs.Objects.{BodyValue};
ghost use Rattle.k_space.specs.Segments.{Row, SegmentValue, row_at, placed, new_row, some_gray, unmarked_row};
ghost use Rattle.k_space.specs.Areas.{AreaValue, row_of_name, segment_at, with_segment, with_row_of, marked_at, gray_at, black_at, grayed, unmarked};
ghost use Rattle.k_mark.specs.Sweeping.{swept, survivor};
ghost use Rattle.k_mark.specs.Shown.{name_in};

/// What a name finds in an area after each change, in terms of what it found before.
pub fn names_find_what_changes_left()
    ensures placed { (a : AreaValue) (s : SegmentValue) (slot : ℕ) (body : BodyValue) (n : Name) → segment_at a.segments s.number ≡ Some s →
        row_of_name (with_segment a s.number (placed s slot body)).segments n ≡ (if name_eq n (name_in s (length s.rows)) then Some (new_row slot body) else row_of_name a.segments n) }
    ensures changed { (a : AreaValue) (m n : Name) (row new : Row) → row_of_name a.segments m ≡ Some row →
        row_of_name (with_row_of a m (Some new)).segments n ≡ (if name_eq m n then Some new else row_of_name a.segments n) }
    ensures joined { (segments : List SegmentValue) (s : SegmentValue) (n : Name) → segment_at segments s.number ≡ None →
        row_of_name (segments ++ s ∷ []) n ≡ (if s.number == n.seg.0 then row_at s n.serial.0 else row_of_name segments n) }
    ensures unmarked { (a : AreaValue) (n : Name) → row_of_name (unmarked a).segments n ≡ unmarked_row (row_of_name a.segments n) }
    ensures swept { (a : AreaValue) (n : Name) → row_of_name (swept a).segments n ≡ survivor (row_of_name a.segments n) }
{}

/// Without marks nothing is gray or black, a root that is live is made gray and no other, and what a process
/// does while a collection is open leaves the gray objects.
pub fn roots_are_gray_and_stay_so()
    ensures none { (a : AreaValue) (n : Name) → IsFalse (marked_at (unmarked a) n) }
    ensures one { (a : AreaValue) (m n : Name) → IsFalse (black_at a m) → gray_at (grayed a m) n ≡ (gray_at a n || (name_eq m n && is_some (row_of_name a.segments m))) }
    ensures black { (a : AreaValue) (m n : Name) → black_at (grayed a m) n ≡ black_at a n }
    ensures placed { (a : AreaValue) (s : SegmentValue) (slot : ℕ) (body : BodyValue) (n : Name) → segment_at a.segments s.number ≡ Some s →
        gray_at (with_segment a s.number (placed s slot body)) n ≡ gray_at a n }
    ensures written { (a : AreaValue) (m n : Name) (row : Row) (field : ℕ) (content : Content) → row_of_name a.segments m ≡ Some row →
        gray_at (with_row_of a m (Some (record row { fields = slice_set row.fields field content }))) n ≡ gray_at a n }
    ensures joined { (a : AreaValue) (s : SegmentValue) (n : Name) → segment_at a.segments s.number ≡ None → ((serial : ℕ) → IsFalse (some_gray (row_at s serial))) →
        gray_at (record a { segments = a.segments ++ s ∷ [] }) n ≡ gray_at a n }
    ensures swept { (a : AreaValue) (n : Name) → IsFalse (gray_at a n) → IsFalse (gray_at (swept a) n) }
    ensures placed_black { (a : AreaValue) (s : SegmentValue) (slot : ℕ) (body : BodyValue) (n : Name) → segment_at a.segments s.number ≡ Some s →
        black_at (with_segment a s.number (placed s slot body)) n ≡ black_at a n }
    ensures written_black { (a : AreaValue) (m n : Name) (row : Row) (field : ℕ) (content : Content) → row_of_name a.segments m ≡ Some row →
        black_at (with_row_of a m (Some (record row { fields = slice_set row.fields field content }))) n ≡ black_at a n }
{}
