//! Laws of the lists of an area and of exit items.
ghost use Rattle.std.specs.Prelude.{◌≡◌, [], ℕ, List, map, length, slice_index_or, None, option_map, IsFalse};
ghost use Rattle.k_laws.specs.k_types.declared.names.Name.{Name};
ghost use Rattle.k_laws.specs.k_types.Names.{name_among};
ghost use Rattle.k_space.specs.Segments.{SegmentValue, made};
ghost use Rattle.k_space.specs.Areas.{AreaValue, segment_at, gray_at, black_at, unmarked};
ghost use Rattle.k_exit.specs.Exits.{ExitRow, has_target, target_marked, targets, unmarked_row};
ghost use Rattle.k_mark.specs.Shown.{HasNoneFrom};
ghost use Rattle.k_mark.specs.Lists.{made_list, gray_names, black_names, marked_targets};

/// The lists of an area and of exit items say of each number, name and target what the tables do.
pub fn lists_name_what_is_there()
    ensures made { (segments : List SegmentValue) (bound number : ℕ) → HasNoneFrom segments bound →
        slice_index_or (made_list bound segments) number None ≡ option_map made (segment_at segments number) }
    ensures bound { (segments : List SegmentValue) (bound : ℕ) → length (made_list bound segments) ≡ bound }
    ensures gray { (a : AreaValue) (bound : ℕ) (n : Name) → HasNoneFrom a.segments bound → name_among n (gray_names bound a) ≡ gray_at a n }
    ensures black { (a : AreaValue) (bound : ℕ) (n : Name) → HasNoneFrom a.segments bound → name_among n (black_names bound a) ≡ black_at a n }
    ensures exits { (items : List ExitRow) (n : Name) → name_among n (targets items) ≡ has_target items n }
    ensures marked_exits { (items : List ExitRow) (n : Name) → name_among n (marked_targets items) ≡ target_marked items n }
{}

/// Where nothing is marked the lists of marks are empty, and so they are once all marks are taken away.
pub fn lists_are_empty_without_marks()
    ensures gray { (a : AreaValue) (bound : ℕ) → ((n : Name) → IsFalse (gray_at a n)) → gray_names bound a ≡ [] }
    ensures black { (a : AreaValue) (bound : ℕ) → ((n : Name) → IsFalse (black_at a n)) → black_names bound a ≡ [] }
    ensures exits { (items : List ExitRow) → ((n : Name) → IsFalse (target_marked items n)) → marked_targets items ≡ [] }
    ensures unmarked_gray { (a : AreaValue) (bound : ℕ) → gray_names bound (unmarked a) ≡ [] }
    ensures unmarked_black { (a : AreaValue) (bound : ℕ) → black_names bound (unmarked a) ≡ [] }
    ensures unmarked_exits { (items : List ExitRow) → marked_targets (map unmarked_row items) ≡ [] }
{}
