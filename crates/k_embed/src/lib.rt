//! A host behind one call: a request of plain numbers, and an answer of plain numbers.
//!
//! [`serve`] does what a [`Request`] asks of a host, and says in an [`Answer`] what came of it. It is what a library for C exports, since
//! enums and handles do not cross to C, and numbers in a struct do. One request prints the host, and [`read`] copies
//! the bytes of what was printed. [`grow`] gives a host larger rooms.
#![tactic(auto)]

mod asking;
mod codes;
mod doing;
mod events;
mod growing;
mod messages;
mod serving;
mod texts;

pub use codes::{
    done, happened, lacking, lacking_host, no_call, number, of_held, of_listed, of_number, replied,
    unknown,
};
pub use doing::{Whole, operation};
pub use events::{of_taken, seen_asked, seen_came, take_next};
pub use growing::grow;
pub use messages::{Answer, Request, Rooms};
pub use serving::{Slot, act, act_whole, opened, read, reasons, rooms_for, rooms_of, serve};
pub use texts::{print, publish};
