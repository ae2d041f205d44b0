//! The cross-heap book: what stands behind the book's lock.
//!
//! A [`Book`] keeps the tree of limits, the entry items and the pins, the owner of each segment, which processes live, who
//! shares which shared heap, the phase and the bytes of each, and the journal with the table that ties cells to it. The
//! contracts see a record: the part of the machine's state that the book shows, the journal, and what a step has to know beside.
//! Each changing call says which field of the record changes and how, in the words of what keeps it, and that no other
//! field does. Rooms are conditions of the calls that need them. Only [`Book::make`] and
//! [`Book::grow_kept`] take memory.
//!
//! [`the_book_tells_the_machine`] says that a book that shows a state answers as the machine would there, and
//! [`the_books_limits_are_the_machines`] says the same of uses and full limits. Further laws say what each changing call is to
//! the machine.
//!
//! Two parts of the book stand here too. [`EnteredTables`] are two tables of counted objects, those that are held from outside their
//! heaps: an entry item counts the heaps that have an exit item to the object, a pin the registers of other processes that hold it.
//! Both go by the home of each segment, and [`EnteredTables::rehome`] changes it in both, so that one heap's walks give its objects
//! in both tables. A [`Journal`] has the events of the run in order. It has room for a number of events that is given when it is
//! made, and so is how many of the last ones it keeps. The list of all is known to its seat alone, which takes no memory. An appended
//! event is kept and counted on the table's word at once, so the events that it gives back are the last of those that its seat knows.
//! The calls on notes are those of `k_tie`, for notes that stay in their places. Of these two only [`EnteredTables::make`],
//! [`Journal::make`] and [`Journal::grow_kept`] take memory.
#![tactic(auto)]

mod changing;
mod growing;
mod growing_entered;
mod growing_journal;
mod homes;
mod journaling;
mod keeping;
mod laws;
mod parts;
mod reading;
mod squares;
mod tables;
mod walking;

pub use k_entry::EntryRoom;
pub use keeping::Journal;
pub use laws::{opened_books_agree, the_book_tells_the_machine, the_books_limits_are_the_machines};
pub use parts::Book;
pub use squares::{
    amounts_change_the_part, calls_are_steps_of_drains, pins_change_the_part, tests_change_the_part,
};
pub use tables::EnteredTables;
