//! Histories that are not in the order of the file: other events happen while a collection is open.
ghost use Rattle.k_rows.specs.Collections.{a_root_that_was_dropped_meanwhile, a_root_that_was_dropped_meanwhile_left, two_open_collections, two_open_collections_left, work_beside_a_collection, work_beside_a_collection_left};
ghost use Rattle.k_rows.specs.Words.{usual};
ghost use Rattle.k_rows.specs.Worked.{IsInterleaved};

/// While a collection of one heap is open the other process works on.
pub fn work_beside_a_collection_row()
    ensures { IsInterleaved usual work_beside_a_collection work_beside_a_collection_left }
{}

/// Collections of a user heap and of the kernel are open at once, each with the roots that it began
/// with.
pub fn two_open_collections_row()
    ensures { IsInterleaved usual two_open_collections two_open_collections_left }
{}

/// The kernel's collection drops an exit item while the user heap is scanned: that scan frees
/// nothing, its next frees the object.
pub fn a_root_that_was_dropped_meanwhile_row()
    ensures { IsInterleaved usual a_root_that_was_dropped_meanwhile a_root_that_was_dropped_meanwhile_left }
{}
