//! What the changes of a cell's value show.
ghost use Rattle.std.specs.Prelude.{◌≡◌, ◌<◌, ℕ, List, Option, Some, length};
ghost use Rattle.k_laws.specs.CellChanges.{in_phase, with_created, with_exit_to};
ghost use Rattle.k_laws.specs.PartUpdates.{with_done, with_register, with_written};
ghost use Rattle.k_agree.specs.Shown.{idle_part, value_with_exit, value_with_field, value_with_new, value_with_register};
ghost use Rattle.k_types.specs.Agree.{CellValue};
ghost use Rattle.k_types.specs.State.{Content};
ghost use Rattle.k_types.specs.declared.names.Field.{Field};
ghost use Rattle.k_types.specs.declared.names.Name.{Name};
ghost use Rattle.k_types.specs.declared.names.Phase.{Phase};
ghost use Rattle.k_types.specs.declared.names.TypeId.{TypeId};
ghost use Rattle.k_agree.specs.GivingAway.{with_one_done};

/// Each change of an idle cell's value that a step makes shows the same change of its part.
pub fn value_changes_show()
    ensures register { (v : CellValue) (r : ℕ) (x : Option Name) → idle_part (value_with_register r x v) ≡ with_register r x (idle_part v) }
    ensures done { (v : CellValue) → idle_part (with_one_done v) ≡ with_done (idle_part v) }
    ensures field { (v : CellValue) (x : Name) (i : ℕ) (content : Content) →
        idle_part (value_with_field x i content v) ≡ with_written x i content (idle_part v) }
    ensures object { (v : CellValue) (seg : ℕ) (ty : TypeId) (kinds : List Field) → seg < length v.made →
        idle_part (value_with_new seg ty kinds v) ≡ with_created seg ty kinds (idle_part v) }
    ensures exit { (v : CellValue) (y : Name) → idle_part (value_with_exit y v) ≡ with_exit_to y (idle_part v) }
    ensures phase { (v : CellValue) (phase : Phase) → idle_part (record v { phase = Some phase }) ≡ in_phase phase (idle_part v) }
{}
