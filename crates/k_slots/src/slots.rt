//! A place for a part of a host, or for all of them before they are taken.
use k_parts::{AnyHost, BookPart, GuestPart, KernelPart, SharedPart};
use std::collections::VecDeque;

/// The parts of a host that were not taken yet: of the processes and of the shared heaps those of the lowest numbers come first.
#[derive(Drop)]
pub struct Row {
    pub guests: VecDeque<GuestPart<AnyHost>>,
    pub kernel: Option<KernelPart<AnyHost>>,
    pub shared: VecDeque<SharedPart<AnyHost>>,
    pub book: Option<BookPart<AnyHost>>,
}

/// What lies in a place.
#[derive(Drop)]
pub enum Part {
    /// Nothing: all parts were taken.
    Empty,
    /// No host could be made: the number of the first bad line of the text and of its reason; or line 0, and 1 where memory ran out and 2
    /// where the terms are not fit.
    Lacking { line: u32, reason: u32 },
    /// All parts that were not taken yet.
    Row(Row),
    Guest(GuestPart<AnyHost>),
    Kernel(KernelPart<AnyHost>),
    Shared(SharedPart<AnyHost>),
    Book(BookPart<AnyHost>),
}

/// A place for a part of a host.
#[derive(Drop)]
pub struct PartSlot {
    pub part: Part,
}
