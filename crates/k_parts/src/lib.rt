//! The parts of a host, each of which can be given to another thread and put behind a lock.
//!
//! [`split`] takes a host apart: a [`GuestPart`] for each process, a [`KernelPart`], a [`SharedPart`] for each shared heap, and the
//! [`BookPart`], which stands between them and has the journal. What a part keeps it keeps by itself: that it agrees with the machine, and
//! has the room that the host was made with. So a lock round it has only to exclude.
//!
//! [`GuestPart::inside`] does an operation inside a process's heap, with that part alone. The other calls are lent the parts that the event
//! touches. Which these are depends on what the process and the book show: [`GuestPart::operate`] is lent these two, and does the operation
//! or tells which other part it needs. The lock of that part comes before the book's, which is given back in between: so each call asks
//! again. [`GuestPart::charge`] tells what a process is charged, and is lent the book too. Parts of two hosts are told apart by the numbers of their hosts, or by their types ([`HostName`]).
#![tactic(auto)]

mod asking;
mod ending;
mod errors;
mod head;
mod inside;
mod killing;
mod laws;
mod names;
mod operating;
mod parts;
mod splitting;

pub use errors::PartError;
pub use head::Head;
pub use k_ends::{Came, HostError, Reach, Terms};
pub use k_host::{Host, OpenError, Rooms, Taken};
pub use k_types::NoMemory;
pub use laws::parts_are_one_host;
pub use names::{AnyHost, HostName};
pub use parts::{BookPart, GuestPart, KernelPart, SharedPart};
pub use splitting::{SplitHost, split};
