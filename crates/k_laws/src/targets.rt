//! Sums over distinct names of what exit items lead to.
ghost use Rattle.std.specs.Prelude.{List, if◌then◌else◌, ◌≡◌, ℕ};
ghost use Rattle.k_types.specs.Distinct.{AreDistinctNames};
ghost use Rattle.k_types.specs.Names.{heap_eq, name_among};
ghost use Rattle.k_types.specs.Sound.{AreDistinctExits};
ghost use Rattle.k_types.specs.State.{ExitItem, has_exit};
ghost use Rattle.k_types.specs.Totals.{total};
ghost use Rattle.k_types.specs.declared.names.Heap.{Heap};
ghost use Rattle.k_types.specs.declared.names.Name.{Name};

/// Distinct names that are the targets of a heap's exit items, in whatever order, give the same sums as the items: the same
/// length, the same number that pass a test.
pub fn targets_sum_as_the_items()
    ensures { (f : Name → ℕ) (h : Heap) (exits : List ExitItem) (names : List Name) → AreDistinctExits exits →
        AreDistinctNames names → ((n : Name) → name_among n names ≡ has_exit exits h n) →
        total f names ≡ total (λ e. if heap_eq e.heap h then f e.target else 0) exits }
{}
