//! Laws of the definitions.
ghost use Rattle.std.specs.Prelude.{List};
ghost use Rattle.k_types.specs.Distinct.{AreDistinctNames};
ghost use Rattle.k_exit.specs.Exits.{ExitRow, AreDistinct, targets};

/// Targets of which none is counted twice are distinct names, and the other way about.
#[tactic(auto, using(crate::proofs::Takes::targets_distinct))]
pub fn targets_counted_once_are_distinct()
    ensures names { (items : List ExitRow) → AreDistinct items → AreDistinctNames (targets items) }
    ensures counts { (items : List ExitRow) → AreDistinctNames (targets items) → AreDistinct items }
{}
