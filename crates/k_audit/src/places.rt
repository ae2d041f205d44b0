//! How far a reading has come.

use k_types::Name;

/// How far a reading has come: the section in which the next line stands, and what it may not come before.
#[derive(Clone, Copy)]
pub enum Place {
    /// Nothing is read.
    Start,
    /// Behind the first line. No process below that number can be next.
    Gone(u32),
    /// Behind the heading `made`. The segment of that number is next.
    Made(u32),
    /// Behind the heading `graph`, and behind the object of that name, if one was read.
    Graph(Option<Name>),
    /// Behind the heading `roots`. No register below that number can be next.
    Roots(u32),
    /// Behind the heading `exits`, and behind the exit item of the heap of that segment, if one was read.
    Exits(u64, Option<Name>),
    /// Behind the heading `shares`. No share below that number can be next.
    Shares(u32),
    /// Behind the heading `charges`. The line of that number is next.
    Charges(u32),
    /// The last line was read.
    Over,
}
