//! Events that are not possible after a history, one for each test that a step makes.
ghost use Rattle.k_rows.specs.Impossible.{before_a_fault_that_is_missed, a_fault_that_is_missed, before_a_fault_that_is_not_there, a_fault_that_is_not_there, before_a_get_on_a_scanned_heap, a_get_on_a_scanned_heap, before_a_kernel_collection_beside_an_orphan, a_kernel_collection_beside_an_orphan, before_a_move_on_a_scanned_heap, a_move_on_a_scanned_heap, before_a_put_into_a_scanned_kernel, a_put_into_a_scanned_kernel, before_a_put_on_a_scanned_heap, a_put_on_a_scanned_heap, before_a_register_that_is_not_there, a_register_that_is_not_there, before_a_second_collection_of_a_heap, a_second_collection_of_a_heap, before_a_share_too_many, a_share_too_many, before_a_shared_heap_that_is_not_there, a_shared_heap_that_is_not_there, before_a_type_that_is_not_there, a_type_that_is_not_there, before_a_wrong_name, a_wrong_name, before_absorbing_a_heap_that_is_not_there, absorbing_a_heap_that_is_not_there, before_absorbing_a_shared_heap_in_use, absorbing_a_shared_heap_in_use, before_absorbing_an_unmade_heap, absorbing_an_unmade_heap, before_absorbing_into_a_scanned_kernel, absorbing_into_a_scanned_kernel, before_an_allocation_in_a_scanned_kernel, an_allocation_in_a_scanned_kernel, before_an_end_without_a_collection, an_end_without_a_collection, before_an_exit_item_too_many, an_exit_item_too_many, before_an_operation_after_an_exit, an_operation_after_an_exit, before_an_operation_of_no_process, an_operation_of_no_process, before_closing_a_scanned_kernel, closing_a_scanned_kernel, before_closing_before_all_have_ended, closing_before_all_have_ended, before_closing_beside_an_orphan, closing_beside_an_orphan, before_closing_twice, closing_twice, before_one_byte_too_few, one_byte_too_few, before_one_object_too_many, one_object_too_many, before_a_kill_of_no_process, a_kill_of_no_process, before_a_kill_while_the_target_is_scanned, a_kill_while_the_target_is_scanned, before_a_kill_while_the_kernel_is_scanned, a_kill_while_the_kernel_is_scanned, before_a_kill_from_beside, a_kill_from_beside, before_an_operation_after_a_kill, an_operation_after_a_kill, before_a_resize_of_no_limit, a_resize_of_no_limit, before_a_resize_beyond_all_maxima, a_resize_beyond_all_maxima, before_a_resize_below_what_is_used, a_resize_below_what_is_used, before_a_resize_beyond_what_is_left, a_resize_beyond_what_is_left};
ghost use Rattle.k_rows.specs.Words.{usual, governed};
ghost use Rattle.k_rows.specs.Worked.{IsImpossibleAfter};

/// The process must be one of the trace.
pub fn an_operation_of_no_process_is_impossible()
    ensures { IsImpossibleAfter usual before_an_operation_of_no_process an_operation_of_no_process }
{}

/// A process that has ended does nothing more.
pub fn an_operation_after_an_exit_is_impossible()
    ensures { IsImpossibleAfter usual before_an_operation_after_an_exit an_operation_after_an_exit }
{}

/// A register is one of sixteen.
pub fn a_register_that_is_not_there_is_impossible()
    ensures { IsImpossibleAfter usual before_a_register_that_is_not_there a_register_that_is_not_there }
{}

/// A type is one of the trace.
pub fn a_type_that_is_not_there_is_impossible()
    ensures { IsImpossibleAfter usual before_a_type_that_is_not_there a_type_that_is_not_there }
{}

/// A shared heap is one of the trace.
pub fn a_shared_heap_that_is_not_there_is_impossible()
    ensures { IsImpossibleAfter usual before_a_shared_heap_that_is_not_there a_shared_heap_that_is_not_there }
{}

/// While its heap is scanned a process does nothing.
pub fn a_move_on_a_scanned_heap_is_impossible()
    ensures { IsImpossibleAfter usual before_a_move_on_a_scanned_heap a_move_on_a_scanned_heap }
{}

/// A put waits for the end of the collection too.
pub fn a_put_on_a_scanned_heap_is_impossible()
    ensures { IsImpossibleAfter usual before_a_put_on_a_scanned_heap a_put_on_a_scanned_heap }
{}

/// A get waits for the end of the collection too.
pub fn a_get_on_a_scanned_heap_is_impossible()
    ensures { IsImpossibleAfter usual before_a_get_on_a_scanned_heap a_get_on_a_scanned_heap }
{}

/// While the kernel is scanned nothing is made there.
pub fn an_allocation_in_a_scanned_kernel_is_impossible()
    ensures { IsImpossibleAfter usual before_an_allocation_in_a_scanned_kernel an_allocation_in_a_scanned_kernel }
{}

/// While the kernel is scanned its objects are not written.
pub fn a_put_into_a_scanned_kernel_is_impossible()
    ensures { IsImpossibleAfter usual before_a_put_into_a_scanned_kernel a_put_into_a_scanned_kernel }
{}

/// A heap is collected once at a time.
pub fn a_second_collection_of_a_heap_is_impossible()
    ensures { IsImpossibleAfter usual before_a_second_collection_of_a_heap a_second_collection_of_a_heap }
{}

/// The kernel is not collected beside an orphan.
pub fn a_kernel_collection_beside_an_orphan_is_impossible()
    ensures { IsImpossibleAfter usual before_a_kernel_collection_beside_an_orphan a_kernel_collection_beside_an_orphan }
{}

/// The reply to an allocation is the next name.
pub fn a_wrong_name_is_impossible()
    ensures { IsImpossibleAfter usual before_a_wrong_name a_wrong_name }
{}

/// A reply is a fault only where one applies.
pub fn a_fault_that_is_not_there_is_impossible()
    ensures { IsImpossibleAfter usual before_a_fault_that_is_not_there a_fault_that_is_not_there }
{}

/// A reply is a fault where one applies.
pub fn a_fault_that_is_missed_is_impossible()
    ensures { IsImpossibleAfter usual before_a_fault_that_is_missed a_fault_that_is_missed }
{}

/// A collection ends only where one is open.
pub fn an_end_without_a_collection_is_impossible()
    ensures { IsImpossibleAfter usual before_an_end_without_a_collection an_end_without_a_collection }
{}

/// The first number of an end is that of the freed objects.
pub fn one_object_too_many_is_impossible()
    ensures { IsImpossibleAfter usual before_one_object_too_many one_object_too_many }
{}

/// The second number of an end is that of the freed bytes.
pub fn one_byte_too_few_is_impossible()
    ensures { IsImpossibleAfter usual before_one_byte_too_few one_byte_too_few }
{}

/// The third number of an end is that of the dropped exit items.
pub fn an_exit_item_too_many_is_impossible()
    ensures { IsImpossibleAfter usual before_an_exit_item_too_many an_exit_item_too_many }
{}

/// The fourth number of an end is that of the dropped shares.
pub fn a_share_too_many_is_impossible()
    ensures { IsImpossibleAfter usual before_a_share_too_many a_share_too_many }
{}

/// What is absorbed is a shared heap of the trace.
pub fn absorbing_a_heap_that_is_not_there_is_impossible()
    ensures { IsImpossibleAfter usual before_absorbing_a_heap_that_is_not_there absorbing_a_heap_that_is_not_there }
{}

/// An unmade heap is no orphan.
pub fn absorbing_an_unmade_heap_is_impossible()
    ensures { IsImpossibleAfter usual before_absorbing_an_unmade_heap absorbing_an_unmade_heap }
{}

/// A heap with a sharer is no orphan.
pub fn absorbing_a_shared_heap_in_use_is_impossible()
    ensures { IsImpossibleAfter usual before_absorbing_a_shared_heap_in_use absorbing_a_shared_heap_in_use }
{}

/// Nothing is absorbed while the kernel is scanned.
pub fn absorbing_into_a_scanned_kernel_is_impossible()
    ensures { IsImpossibleAfter usual before_absorbing_into_a_scanned_kernel absorbing_into_a_scanned_kernel }
{}

/// The last collection waits for all processes.
pub fn closing_before_all_have_ended_is_impossible()
    ensures { IsImpossibleAfter usual before_closing_before_all_have_ended closing_before_all_have_ended }
{}

/// The last collection waits for orphans.
pub fn closing_beside_an_orphan_is_impossible()
    ensures { IsImpossibleAfter usual before_closing_beside_an_orphan closing_beside_an_orphan }
{}

/// The last collection does not begin while the kernel is scanned.
pub fn closing_a_scanned_kernel_is_impossible()
    ensures { IsImpossibleAfter usual before_closing_a_scanned_kernel closing_a_scanned_kernel }
{}

/// There is one last collection.
pub fn closing_twice_is_impossible()
    ensures { IsImpossibleAfter usual before_closing_twice closing_twice }
{}

/// A process that is ended is one of the trace.
pub fn a_kill_of_no_process_is_impossible()
    ensures { IsImpossibleAfter governed before_a_kill_of_no_process a_kill_of_no_process }
{}

/// While its heap is scanned nobody ends a process.
pub fn a_kill_while_the_target_is_scanned_is_impossible()
    ensures { IsImpossibleAfter governed before_a_kill_while_the_target_is_scanned a_kill_while_the_target_is_scanned }
{}

/// While the kernel is scanned no process ends another.
pub fn a_kill_while_the_kernel_is_scanned_is_impossible()
    ensures { IsImpossibleAfter governed before_a_kill_while_the_kernel_is_scanned a_kill_while_the_kernel_is_scanned }
{}

/// Only a process whose limit is above another's ends it.
pub fn a_kill_from_beside_is_impossible()
    ensures { IsImpossibleAfter governed before_a_kill_from_beside a_kill_from_beside }
{}

/// A process that another has ended does nothing more.
pub fn an_operation_after_a_kill_is_impossible()
    ensures { IsImpossibleAfter governed before_an_operation_after_a_kill an_operation_after_a_kill }
{}

/// A limit that is resized is one of the trace.
pub fn a_resize_of_no_limit_is_impossible()
    ensures { IsImpossibleAfter governed before_a_resize_of_no_limit a_resize_of_no_limit }
{}

/// A maximum that is set is below 2^40.
pub fn a_resize_beyond_all_maxima_is_impossible()
    ensures { IsImpossibleAfter governed before_a_resize_beyond_all_maxima a_resize_beyond_all_maxima }
{}

/// No maximum is set below what is used.
pub fn a_resize_below_what_is_used_is_impossible()
    ensures { IsImpossibleAfter governed before_a_resize_below_what_is_used a_resize_below_what_is_used }
{}

/// A hard limit gets no more than its parent has left.
pub fn a_resize_beyond_what_is_left_is_impossible()
    ensures { IsImpossibleAfter governed before_a_resize_beyond_what_is_left a_resize_beyond_what_is_left }
{}
