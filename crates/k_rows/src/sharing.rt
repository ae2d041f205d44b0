//! Histories about shared heaps.
ghost use Rattle.k_rows.specs.Sharing.{a_sharer_that_does_not_fit, a_sharer_that_does_not_fit_left, absorbed_for_good, absorbed_for_good_left, attached_again, attached_again_left, every_sharer_pays, every_sharer_pays_left, orphaned_and_absorbed, orphaned_and_absorbed_left, phases_of_a_shared_heap, phases_of_a_shared_heap_left, refused_freezes, refused_freezes_left, two_orphans_are_absorbed, two_orphans_are_absorbed_left};
ghost use Rattle.k_rows.specs.Words.{exact, narrow, two_shared, usual};
ghost use Rattle.k_rows.specs.Worked.{IsWorked};

/// Every sharer pays in full.
pub fn every_sharer_pays_row()
    ensures { IsWorked usual every_sharer_pays every_sharer_pays_left }
{}

/// A process whose limit has no room for the whole shared heap does not attach.
pub fn a_sharer_that_does_not_fit_row()
    ensures { IsWorked narrow a_sharer_that_does_not_fit a_sharer_that_does_not_fit_left }
{}

/// A process that shares the heap attaches again for nothing, though its limit is full.
pub fn attached_again_row()
    ensures { IsWorked exact attached_again attached_again_left }
{}

/// A frozen heap takes integers and no references; a sharer without a way into it gives up its
/// share; its last sharer ends, and the kernel absorbs it.
pub fn orphaned_and_absorbed_row()
    ensures { IsWorked usual orphaned_and_absorbed orphaned_and_absorbed_left }
{}

/// An absorbed heap can neither be attached nor taken again.
pub fn absorbed_for_good_row()
    ensures { IsWorked usual absorbed_for_good absorbed_for_good_left }
{}

/// What is refused in each phase of a shared heap.
pub fn phases_of_a_shared_heap_row()
    ensures { IsWorked usual phases_of_a_shared_heap phases_of_a_shared_heap_left }
{}

/// A freeze is refused for a root that is null or lies elsewhere; after the freeze nobody populates
/// the heap any more, so a second freeze is refused, and so is an allocation there.
pub fn refused_freezes_row()
    ensures { IsWorked usual refused_freezes refused_freezes_left }
{}

/// Before a collection of the kernel all orphans are absorbed, the one with the lower number first.
pub fn two_orphans_are_absorbed_row()
    ensures { IsWorked two_shared two_orphans_are_absorbed two_orphans_are_absorbed_left }
{}
