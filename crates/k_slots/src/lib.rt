//! The parts of a host in numbers: what C lends is a place for each part, and a call over one to four places does what a request asks.
//!
//! [`opened_row`] makes a host of a text and takes it apart, and [`take_next`] gives its parts one after the other. [`serve_one`] to
//! [`serve_four`] do what a `Request` of `k_embed` asks over the parts that are lent, and answer in its numbers. Which parts a request needs
//! depends on what they show, so an answer may be that others are needed than were lent.
#![tactic(auto)]

mod codes;
mod four;
mod one;
mod opening;
mod slots;
mod three;
mod two;

pub use four::serve_four;
pub use one::serve_one;
pub use opening::{opened_row, take_next};
pub use slots::{Part, PartSlot, Row};
pub use three::serve_three;
pub use two::serve_two;
