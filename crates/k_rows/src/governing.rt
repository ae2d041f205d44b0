//! Histories of the second version: the end of a process by another, and maxima that change.
ghost use Rattle.k_rows.specs.Governing.{a_process_ends_another, a_process_ends_another_left, a_process_ends_another_undone, maxima_change, maxima_change_left, the_root_keeps_its_maximum, the_root_keeps_its_maximum_left};
ghost use Rattle.k_rows.specs.Words.{governed};
ghost use Rattle.k_rows.specs.Worked.{IsCut, IsWorked};

/// A process whose limit is above that of another ends it; one beside it may not. What the ended process
/// had stays, and is the kernel's; its last line gives no event.
pub fn a_process_ends_another_row()
    ensures { IsCut governed a_process_ends_another a_process_ends_another_undone a_process_ends_another_left }
{}

/// Maxima change: not those at or above the process's own limit, not below what is used, and a hard one's
/// not beyond what its parent has left.
pub fn maxima_change_row()
    ensures { IsWorked governed maxima_change maxima_change_left }
{}

/// Nobody sets the maximum of the root, which is below no limit.
pub fn the_root_keeps_its_maximum_row()
    ensures { IsWorked governed the_root_keeps_its_maximum the_root_keeps_its_maximum_left }
{}
