//! Worked histories of the one-thread machine, computed.
//!
//! Each law is a function with an empty body. A history is legal for the trace of its operations, keeps the rules of a trace, is
//! complete and what the order of the file gives, and leaves what is written out in `specs/`: the numbers were worked out by hand
//! from the rules. Three histories, in which a collection is open beside other work, are not the order of the file: they are legal
//! and leave what is written out. For each test that a step makes there is also a history after which an event is not possible. The
//! proofs only compute: they evaluate the definitions of `k_types`.
#![tactic(auto)]

mod barriers;
mod collections;
mod ends;
mod governing;
mod impossible;
mod limits;
mod liveness;
mod sharing;

pub use barriers::{
    a_heap_that_is_not_shared_row, barrier_row, cycle_with_the_kernel_row, kept_from_outside_row,
    order_of_faults_row, stale_exit_item_row, two_shared_heaps_row,
};
pub use collections::{
    a_root_that_was_dropped_meanwhile_row, two_open_collections_row, work_beside_a_collection_row,
};
pub use ends::{
    a_serial_is_not_given_again_row, an_exit_passes_an_item_on_row, last_collection_row,
    object_of_a_dead_process_row, orphans_before_the_closing_row,
};
pub use governing::{
    a_process_ends_another_row, maxima_change_row, the_root_keeps_its_maximum_row,
};
pub use impossible::{
    a_fault_that_is_missed_is_impossible, a_fault_that_is_not_there_is_impossible,
    a_get_on_a_scanned_heap_is_impossible, a_kernel_collection_beside_an_orphan_is_impossible,
    a_kill_from_beside_is_impossible, a_kill_of_no_process_is_impossible,
    a_kill_while_the_kernel_is_scanned_is_impossible,
    a_kill_while_the_target_is_scanned_is_impossible, a_move_on_a_scanned_heap_is_impossible,
    a_put_into_a_scanned_kernel_is_impossible, a_put_on_a_scanned_heap_is_impossible,
    a_register_that_is_not_there_is_impossible, a_resize_below_what_is_used_is_impossible,
    a_resize_beyond_all_maxima_is_impossible, a_resize_beyond_what_is_left_is_impossible,
    a_resize_of_no_limit_is_impossible, a_second_collection_of_a_heap_is_impossible,
    a_share_too_many_is_impossible, a_shared_heap_that_is_not_there_is_impossible,
    a_type_that_is_not_there_is_impossible, a_wrong_name_is_impossible,
    absorbing_a_heap_that_is_not_there_is_impossible, absorbing_a_shared_heap_in_use_is_impossible,
    absorbing_an_unmade_heap_is_impossible, absorbing_into_a_scanned_kernel_is_impossible,
    an_allocation_in_a_scanned_kernel_is_impossible, an_end_without_a_collection_is_impossible,
    an_exit_item_too_many_is_impossible, an_operation_after_a_kill_is_impossible,
    an_operation_after_an_exit_is_impossible, an_operation_of_no_process_is_impossible,
    closing_a_scanned_kernel_is_impossible, closing_before_all_have_ended_is_impossible,
    closing_beside_an_orphan_is_impossible, closing_twice_is_impossible,
    one_byte_too_few_is_impossible, one_object_too_many_is_impossible,
};
pub use limits::{
    a_full_limit_above_a_soft_one_row, a_soft_limit_charges_upward_row,
    boundary_of_a_hard_limit_row, reservations_fill_a_limit_row, the_ceiling_row,
};
pub use liveness::reached_through_three_heaps_row;
pub use sharing::{
    a_sharer_that_does_not_fit_row, absorbed_for_good_row, attached_again_row,
    every_sharer_pays_row, orphaned_and_absorbed_row, phases_of_a_shared_heap_row,
    refused_freezes_row, two_orphans_are_absorbed_row,
};
