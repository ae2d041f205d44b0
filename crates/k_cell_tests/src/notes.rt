//! A note for a cell that no journal sees. A test that owns what was made beside the note is proved to drop all of it wherever it may return.
use k_tie::{Note, Tie};
use std::alloc::Global;
use std::test::Fail;

/// A note of a journal that nobody writes.
pub(crate) fn lone_note(alloc: Global) -> Result<Note, Fail> {
    let (_, _, mut notes) = Tie::make(alloc, 2)?;
    let note = notes.pop().ok_or("a note")?;
    Ok(note)
}
