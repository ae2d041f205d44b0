//! The report of a run: what it says, and what it is printed from.
//!
//! A [`View`] shows the trace, the history and the last state of a run. What is shown has one text, which the definitions give;
//! `k_report` writes it. The laws tell what of a trace a report reads and by what its exit items are known, and the reports of
//! worked traces are computed by the definitions. `proofs/` also has what is shown of a sound state, for whoever shows one: each name
//! lies in a segment of the trace, a process is charged less than 2^40 bytes, and the targets of a heap's exit items are its exits
//! in order.
//!
//! Below stand `k_types` with the machine, `k_laws` with its laws, and `k_words` and `k_trace` with the words and names of the texts.
#![tactic(auto)]

mod laws;
mod view;
mod worked;

pub use laws::{exits_are_told_by_their_targets, reports_read_the_setup_alone};
pub use view::View;
pub use worked::{
    a_process_ends_another_row, all_processes_end_row, barrier_row, ceiling_row,
    every_sharer_pays_row, exits_of_each_kind_row, first_run_row, heap_that_is_not_shared_row,
    maxima_change_row, no_operations_row, object_of_a_dead_process_row, order_of_faults_row,
    orphaned_and_absorbed_row, phases_of_a_shared_heap_row, the_root_keeps_its_maximum_row,
};
