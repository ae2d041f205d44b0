//! All heaps of a run, as one value.
use crate::process::Process;
use crate::{Book, KernelCell, SharedCell};

/// All heaps of a run in the order in which their locks are taken, and the book, whose lock is the last.
#[derive(Drop)]
pub struct Heaps {
    /// Each process with its cell, in the place of its number.
    pub processes: Vec<Process>,
    /// The kernel's cell.
    pub kernel: KernelCell,
    /// The cell of each shared heap, in the place of its number.
    pub shared: Vec<SharedCell>,
    /// What stands between the heaps, with the journal.
    pub book: Book,
}
