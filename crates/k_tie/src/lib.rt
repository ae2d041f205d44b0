//! The journal's word and the notes of cells: what each cell knows of the journal without holding the book.
//!
//! The journal is one list of events for all cells. Its length is one word, which every event adds one to. Each cell
//! keeps a `Note`: a prefix of the journal up to which the cell is known, and the number of events in it that touched the
//! cell. Where a note meets the journal's seat, the contract promises that the note's list is a prefix of the journal and
//! that no event touched the cell that the note does not count. So nothing has touched the cell since, and a cell can
//! speak of the whole journal with no look at what other cells did.
//!
//! Lists, totals and shares are known to the proofs alone and take no bytes at run time. Below stands `atomic_table`,
//! whose rule on the word and on all notes is `specs/Rule.antt`.
#![tactic(auto)]

mod journal;
mod note;
mod steps;
mod tie;
mod view;

pub use journal::JournalSeat;
pub use note::Note;
pub use tie::Tie;
