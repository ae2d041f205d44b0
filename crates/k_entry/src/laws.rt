//! Laws of the definitions.
ghost use Rattle.std.specs.Prelude.{List, ◌≡◌, ◌≤◌, ◌&&◌, ◌++◌, ◌∷◌, ℕ, length, nat_lt};
ghost use Rattle.k_types.specs.Counted.{Counted, counted};
ghost use Rattle.k_types.specs.Names.{heap_eq, name_among};
ghost use Rattle.k_types.specs.Totals.{total};
ghost use Rattle.k_types.specs.declared.names.Heap.{Heap};
ghost use Rattle.k_types.specs.declared.names.Name.{Name};
ghost use Rattle.k_types.specs.Distinct.{AreDistinctNames};
ghost use Rattle.k_entry.specs.Entries.{AreEntries, EntryValue, first_object, home_of, items_of, object_after, objects, passed};

/// A walk from the first object of a home gives each object of that home once, and ends.
#[tactic(auto, using(crate::proofs::WholeWalks::after_one, crate::proofs::WholeWalks::whole_walk, crate::proofs::WholeWalks::walk_distinct, crate::proofs::WholeWalks::walk_has))]
pub fn walks_give_each_object_once()
    ensures next { (v : EntryValue) (heap : Heap) (front rest : List Counted) (item : Counted) → AreEntries v →
        items_of v heap ≡ front ++ item ∷ rest → object_after (items_of v heap) item.object ≡ first_object rest }
    ensures whole { (v : EntryValue) (heap : Heap) (steps : ℕ) → AreEntries v → length (items_of v heap) ≤ steps →
        passed (items_of v heap) steps (first_object (items_of v heap)) ≡ objects (items_of v heap) }
    ensures once { (v : EntryValue) (heap : Heap) → AreEntries v → AreDistinctNames (objects (items_of v heap)) }
    ensures all { (v : EntryValue) (heap : Heap) (n : Name) → AreEntries v →
        name_among n (objects (items_of v heap)) ≡ (nat_lt 0 (counted v.items n) && heap_eq (home_of v.homes n.seg.0) heap) }
{}

/// The objects are distinct, and there are no more of them than their counts together. So a bound on the counts of distinct
/// objects bounds the room that a table needs: pins, at most 16 for each process, have room where there is room for one
/// more, if the new pin comes before the old one goes.
#[tactic(auto, using(crate::proofs::WholeWalks::all_distinct, crate::proofs::WholeWalks::few_items))]
pub fn objects_are_at_most_their_counts()
    ensures distinct { (v : EntryValue) → AreEntries v → AreDistinctNames (objects v.items) }
    ensures few { (v : EntryValue) → AreEntries v → length v.items ≤ total (counted v.items) (objects v.items) }
{}
