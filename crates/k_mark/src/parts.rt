//! Laws that make an area's changes those of the machine's part.
ghost use Rattle.std.specs.Prelude.{◌≡◌, ◌++◌, ◌∷◌, [], ◌&&◌, not, ℕ, List, filter, length, slice_set, Some};
ghost use Rattle.std.specs.List.{list_any};
ghost use Rattle.k_laws.specs.k_types.declared.names.Name.{Name};
ghost use Rattle.k_laws.specs.k_types.declared.names.Heap.{Heap};
ghost use Rattle.k_laws.specs.k_types.declared.names.TypeId.{TypeId};
ghost use Rattle.k_laws.specs.k_types.declared.names.Field.{Field};
ghost use Rattle.k_laws.specs.k_types.Names.{name_among};
ghost use Rattle.k_laws.specs.k_types.Types.{type_row};
ghost use Rattle.k_laws.specs.k_types.Trace.{Trace};
ghost use Rattle.k_laws.specs.k_types.State.{State, Content, has, refers};
ghost use Rattle.k_laws.specs.k_types.Sound.{HasNoDangling};
ghost use Rattle.k_laws.specs.k_types.Owners.{object_bytes};
ghost use Rattle.k_laws.specs.k_types.Totals.{total};
ghost use Rattle.k_laws.specs.k_types.Cells.{Cell, CellPart, part};
ghost use Rattle.k_laws.specs.PartUpdates.{with_written};
ghost use Rattle.k_space.specs.Objects.{new_body};
ghost use Rattle.k_space.specs.Segments.{Row, SegmentValue, placed};
ghost use Rattle.k_space.specs.Areas.{AreaValue, is_foreign, row_of_name, segment_at, with_segment, with_row_of, unmarked};
ghost use Rattle.k_exit.specs.Exits.{ExitRow};
ghost use Rattle.k_mark.specs.Sweeping.{swept, dead_bytes, dead_objects};
ghost use Rattle.k_laws.specs.CellChanges.{with_created, collected, reached_in, taking_in, given_away};
ghost use Rattle.k_mark.specs.Lists.{black_names, marked_targets};
ghost use Rattle.k_mark.specs.Parts.{ShowsPart, ShowBoth, IsMarkedPart, AreExitsMarked, IsSoundInside, AreForeignTold};

/// An area that shows a part shows after each change what the machine's change makes of the part: creation,
/// a write, marks, taking in the one segment of a heap that ended, and having nothing left.
pub fn areas_change_as_parts_do()
    ensures created { (bound : ℕ) (a : AreaValue) (c : CellPart) (s : SegmentValue) (slot : ℕ) (types : List (List Field)) (ty : TypeId) →
        ShowsPart bound a.segments c → segment_at a.segments s.number ≡ Some s →
        ShowsPart bound (with_segment a s.number (placed s slot (new_body types ty))).segments (with_created s.number ty (type_row types ty) c) }
    ensures written { (bound : ℕ) (a : AreaValue) (c : CellPart) (n : Name) (row : Row) (field : ℕ) (content : Content) →
        ShowsPart bound a.segments c → row_of_name a.segments n ≡ Some row →
        ShowsPart bound (with_row_of a n (Some (record row { fields = slice_set row.fields field content }))).segments (with_written n field content c) }
    ensures marked { (bound : ℕ) (a b : AreaValue) (c : CellPart) → ShowsPart bound a.segments c → unmarked b ≡ unmarked a → ShowsPart bound b.segments c }
    ensures taken_in { (bound : ℕ) (segments : List SegmentValue) (kernel heap : CellPart) (s : SegmentValue) (own : ℕ → Heap) (g : Heap) →
        ShowBoth bound segments s kernel heap → ShowsPart bound (segments ++ s ∷ []) (taking_in own g heap kernel) }
    ensures given_away { (bound : ℕ) (c : CellPart) → ShowsPart bound [] (given_away c) }
{}

/// Where marking began with the roots of the open collection gray, sweeping after it is the end of the
/// collection on the part, and counts the objects that go, and their bytes.
pub fn a_sweep_is_the_collection_of_the_part()
    ensures collected { (bound : ℕ) (begun ended : AreaValue) (c : CellPart) → IsMarkedPart bound begun ended c → ShowsPart bound (swept ended).segments (collected c) }
    ensures dead { (bound : ℕ) (begun ended : AreaValue) (c : CellPart) → IsMarkedPart bound begun ended c →
        dead_objects ended ≡ length (filter (λ o. not (has (reached_in c) o.name)) c.objects) }
    ensures bytes { (bound : ℕ) (begun ended : AreaValue) (c : CellPart) → IsMarkedPart bound begun ended c →
        dead_bytes ended ≡ total object_bytes (filter (λ o. not (has (reached_in c) o.name)) c.objects) }
{}

/// After marking the list of black objects names what the part's open collection reaches, and that of
/// marked exit items the foreign names to which these refer.
pub fn marks_name_what_the_part_reaches()
    ensures black { (bound : ℕ) (begun ended : AreaValue) (c : CellPart) (n : Name) → IsMarkedPart bound begun ended c →
        name_among n (black_names bound ended) ≡ has (reached_in c) n }
    ensures exits { (bound : ℕ) (begun ended : AreaValue) (c : CellPart) (items : List ExitRow) (n : Name) →
        IsMarkedPart bound begun ended c → AreExitsMarked begun items →
        name_among n (marked_targets items) ≡ (is_foreign begun n && list_any (λ x. refers x n) (reached_in c)) }
{}

/// Where the references of a part into its own segments lead to its objects, a name to which its objects
/// refer is foreign to the area just where it is no object of the part. So it is with the part of any cell
/// of a state without dangling references.
pub fn foreign_references_are_told_by_objects()
    ensures told { (bound : ℕ) (a : AreaValue) (c : CellPart) → ShowsPart bound a.segments c → IsSoundInside c → AreForeignTold a c }
    ensures sound { (trace : Trace) (st : State) (cell : Cell) → HasNoDangling st → IsSoundInside (part trace st cell) }
{}
