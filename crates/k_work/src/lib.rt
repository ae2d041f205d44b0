//! The work of collections, credited to who asked for them.
//!
//! The work of a collection is the number of objects that it leaves in its heap and of their reference fields, which is what its
//! marking takes. [`work_of`] steps the plain machine over a journal and adds the work up for each process and for the closing;
//! [`write_work`] writes the table. Below stand the definitions of `k_types`, the view and the lines of `k_text`, and the plain
//! machine.
#![tactic(auto)]

mod laws;
mod rows;
mod working;
mod writing;

pub use laws::{
    each_collection_is_in_one_row, ended_and_closed_row, ends_are_credited_to_who_began,
    kernel_collections_row, own_collection_row,
};
pub use rows::{WorkRow, WorkTable};
pub use working::work_of;
pub use writing::{put_word, write_work};
