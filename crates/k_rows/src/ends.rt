//! Histories about what ends: processes, objects and the run.
ghost use Rattle.k_rows.specs.Ends.{a_serial_is_not_given_again, a_serial_is_not_given_again_left, an_exit_passes_an_item_on, an_exit_passes_an_item_on_left, last_collection, last_collection_left, object_of_a_dead_process, object_of_a_dead_process_left, orphans_before_the_closing, orphans_before_the_closing_left};
ghost use Rattle.k_rows.specs.Words.{two_shared, usual};
ghost use Rattle.k_rows.specs.Worked.{IsWorked};

/// A dead process's object that another holds is the kernel's, and open to everybody.
pub fn object_of_a_dead_process_row()
    ensures { IsWorked usual object_of_a_dead_process object_of_a_dead_process_left }
{}

/// An exit item into a shared heap becomes the kernel's when its process ends.
pub fn an_exit_passes_an_item_on_row()
    ensures { IsWorked usual an_exit_passes_an_item_on an_exit_passes_an_item_on_left }
{}

/// An object that is made after another was freed has a serial of its own.
pub fn a_serial_is_not_given_again_row()
    ensures { IsWorked usual a_serial_is_not_given_again a_serial_is_not_given_again_left }
{}

/// Both processes end, and the last collection frees what the first left to the kernel.
pub fn last_collection_row()
    ensures { IsWorked usual last_collection last_collection_left }
{}

/// Where all processes have ended the orphans are absorbed by rising number, and then the last
/// collection comes.
pub fn orphans_before_the_closing_row()
    ensures { IsWorked two_shared orphans_before_the_closing orphans_before_the_closing_left }
{}
