//! Worked traces whose whole reports are computed by the definitions.
ghost use Rattle.std.specs.Prelude.{◌≡◌};
ghost use Rattle.k_text.specs.Worked.{file_order_report, first_run, first_report, no_operations, no_operations_report, barrier, barrier_report, every_sharer_pays, every_sharer_pays_report, object_of_a_dead_process, object_of_a_dead_process_report, orphaned_and_absorbed, orphaned_and_absorbed_report};
ghost use Rattle.k_text.specs.WorkedHeaps.{ceiling, ceiling_report, order_of_faults, order_of_faults_report, phases_of_a_shared_heap, phases_of_a_shared_heap_report, heap_that_is_not_shared, heap_that_is_not_shared_report, exits_of_each_kind, exits_of_each_kind_report, all_processes_end, all_processes_end_report};
ghost use Rattle.k_text.specs.WorkedGoverning.{a_process_ends_another, a_process_ends_another_report, maxima_change, maxima_change_report, the_root_keeps_its_maximum, the_root_keeps_its_maximum_report};

/// The report of the first run, computed by the definitions. Source: own.
pub fn first_run_row()
    ensures { file_order_report first_run ≡ first_report }
{}

/// The report of a trace without operations, computed by the definitions. Source: own.
pub fn no_operations_row()
    ensures { file_order_report no_operations ≡ no_operations_report }
{}

/// The report of a process that loads what it may neither store nor read, computed by the definitions. Source: own.
pub fn barrier_row()
    ensures { file_order_report barrier ≡ barrier_report }
{}

/// The report of two processes that share a heap, each of which pays for it, computed by the definitions. Source: own.
pub fn every_sharer_pays_row()
    ensures { file_order_report every_sharer_pays ≡ every_sharer_pays_report }
{}

/// The report of a dead process's object that another holds, computed by the definitions. Source: own.
pub fn object_of_a_dead_process_row()
    ensures { file_order_report object_of_a_dead_process ≡ object_of_a_dead_process_report }
{}

/// The report of a shared heap that is orphaned and absorbed, computed by the definitions. Source: own.
pub fn orphaned_and_absorbed_row()
    ensures { file_order_report orphaned_and_absorbed ≡ orphaned_and_absorbed_report }
{}

/// The kernel heap has room for four objects, and refuses the fifth. The report, computed by the definitions.
pub fn ceiling_row()
    ensures { file_order_report ceiling ≡ ceiling_report }
{}

/// Accesses that are refused: through null, past the last field, and to a field of the other kind. The report, computed by the definitions.
pub fn order_of_faults_row()
    ensures { file_order_report order_of_faults ≡ order_of_faults_report }
{}

/// A heap that one process populates is refused to the other. The report, computed by the definitions.
pub fn phases_of_a_shared_heap_row()
    ensures { file_order_report phases_of_a_shared_heap ≡ phases_of_a_shared_heap_report }
{}

/// A process holds an object of a heap that it does not share yet. The report, computed by the definitions.
pub fn heap_that_is_not_shared_row()
    ensures { file_order_report heap_that_is_not_shared ≡ heap_that_is_not_shared_report }
{}

/// A user heap and a shared heap have exit items; no shared heap refers to a user heap or to another. The report, computed by the definitions.
pub fn exits_of_each_kind_row()
    ensures { file_order_report exits_of_each_kind ≡ exits_of_each_kind_report }
{}

/// Every process ends, and the last collection of the kernel frees what they left. The report, computed by the definitions.
pub fn all_processes_end_row()
    ensures { file_order_report all_processes_end ≡ all_processes_end_report }
{}

/// A process ends another, whose last line then gives no event; a process beside may not end it. The report, computed by the
/// definitions.
pub fn a_process_ends_another_row()
    ensures { file_order_report a_process_ends_another ≡ a_process_ends_another_report }
{}

/// Maxima change while the program runs, and the report has those of the end. The report, computed by the definitions.
pub fn maxima_change_row()
    ensures { file_order_report maxima_change ≡ maxima_change_report }
{}

/// Nobody sets the maximum of the root. The report, computed by the definitions.
pub fn the_root_keeps_its_maximum_row()
    ensures { file_order_report the_root_keeps_its_maximum ≡ the_root_keeps_its_maximum_report }
{}
