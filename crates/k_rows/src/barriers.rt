//! Histories about the write barrier, exit items and faults.
ghost use Rattle.k_rows.specs.Barriers.{a_heap_that_is_not_shared, a_heap_that_is_not_shared_left, barrier, barrier_left, cycle_with_the_kernel, cycle_with_the_kernel_left, kept_from_outside, kept_from_outside_left, order_of_faults, order_of_faults_left, stale_exit_item, stale_exit_item_left, two_shared_heaps, two_shared_heaps_left};
ghost use Rattle.k_rows.specs.Words.{two_shared, usual};
ghost use Rattle.k_rows.specs.Worked.{IsWorked};

/// The barrier judges stores, and nothing judges loads into registers.
pub fn barrier_row()
    ensures { IsWorked usual barrier barrier_left }
{}

/// After the barrier: the entry item, and later a register of the other process alone, keep the
/// object.
pub fn kept_from_outside_row()
    ensures { IsWorked usual kept_from_outside kept_from_outside_left }
{}

/// After the barrier: a stale exit item of the kernel alone keeps the object, until the kernel is
/// collected.
pub fn stale_exit_item_row()
    ensures { IsWorked usual stale_exit_item stale_exit_item_left }
{}

/// A cycle between a user heap and the kernel goes once its process has ended.
pub fn cycle_with_the_kernel_row()
    ensures { IsWorked usual cycle_with_the_kernel cycle_with_the_kernel_left }
{}

/// Where several faults apply the lowest is the answer.
pub fn order_of_faults_row()
    ensures { IsWorked usual order_of_faults order_of_faults_left }
{}

/// A register may lead into a shared heap that its process does not share, but no field there can
/// be used before it attaches.
pub fn a_heap_that_is_not_shared_row()
    ensures { IsWorked usual a_heap_that_is_not_shared a_heap_that_is_not_shared_left }
{}

/// A shared heap refers to itself and to the kernel heap, and neither to a user heap nor to another
/// shared heap.
pub fn two_shared_heaps_row()
    ensures { IsWorked two_shared two_shared_heaps two_shared_heaps_left }
{}
