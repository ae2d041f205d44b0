//! The event that a line of a report is.
ghost use Rattle.std.specs.Prelude.{◌≡◌};
ghost use Rattle.k_words.specs.Words.{words_of};
ghost use Rattle.k_reports.specs.Reading.{heap_named, ended_of, absorbed_of, closing_of, done_of, event_of};

use crate::replies::read_reply;
use crate::words::parted;
use k_reader::read_op;
use k_trace::Names;
use k_types::{Event, Heap};
use k_words::{after_word, is, number, word, word_count};

/// The heap of that name.
#[tactic(auto, unfolding(k_reports::specs::Reading::heap_named))]
pub fn heap_named(names: &Names, name: &[u8]) -> Option<Heap>
    ensures { result ≡ heap_named names.now name.now }
{
    if is(name, b"kernel") {
        return Some(Heap::Kernel);
    }
    if let Some(pid) = names.proc_named(name) {
        return Some(Heap::User(pid));
    }
    Some(Heap::Shared(names.shared_named(name)?))
}

/// The end of a collection that the line is.
#[tactic(auto, unfolding(k_reports::specs::Reading::ended_of))]
fn read_ended(names: &Names, line: &[u8]) -> Option<Event>
    ensures { result ≡ ended_of names.now (words_of line.now) }
{
    if word_count(line) != 6 {
        return None;
    }
    let freed_objects = number(word(line, 2), 1 << 32)?;
    let freed_bytes = number(word(line, 3), 1 << 64)?;
    let exits_dropped = number(word(line, 4), 1 << 32)?;
    let shares_dropped = number(word(line, 5), 1 << 32)?;
    let heap = heap_named(names, word(line, 1))?;
    Some(Event::Ended {
        heap,
        freed_objects: freed_objects as u32,
        freed_bytes,
        exits_dropped: exits_dropped as u32,
        shares_dropped: shares_dropped as u32,
    })
}

/// The absorption that the line is.
#[tactic(auto, unfolding(k_reports::specs::Reading::absorbed_of))]
fn read_absorbed(names: &Names, line: &[u8]) -> Option<Event>
    ensures { result ≡ absorbed_of names.now (words_of line.now) }
{
    if word_count(line) != 2 {
        return None;
    }
    let shared = names.shared_named(word(line, 1))?;
    Some(Event::Absorbed { shared })
}

/// The opening of the last collection that the line is.
#[tactic(auto, unfolding(k_reports::specs::Reading::closing_of))]
fn read_closing(line: &[u8]) -> Option<Event>
    ensures { result ≡ closing_of (words_of line.now) }
{
    if word_count(line) == 1 {
        Some(Event::Closing)
    } else {
        None
    }
}

/// The operation and its reply that the line is.
#[tactic(auto, unfolding(k_reports::specs::Reading::done_of))]
fn read_done(names: &Names, line: &[u8]) -> Option<Event>
    ensures { result ≡ done_of names.now (words_of line.now) }
{
    let Some((operation, reply)) = parted(line, b"=") else {
        return None;
    };
    let Some(op_line) = after_word(operation) else {
        return None;
    };
    let Ok(op) = read_op(names, op_line) else {
        return None;
    };
    let pid = names.proc_named(word(operation, 0))?;
    let reply = read_reply(names, op, reply)?;
    Some(Event::Done { pid, op, reply })
}

/// The event that a line of a report is, over these names; `None` where it is no event's line. The line is given without
/// its line feed. Takes no memory, and time in proportion to the line.
#[tactic(auto, unfolding(k_reports::specs::Reading::event_of))]
pub fn read_event(names: &Names, line: &[u8]) -> Option<Event>
    ensures { result ≡ event_of names.now (words_of line.now) }
{
    let first = word(line, 0);
    if is(first, b"ended") {
        return read_ended(names, line);
    }
    if is(first, b"absorbed") {
        return read_absorbed(names, line);
    }
    if is(first, b"closing") {
        return read_closing(line);
    }
    read_done(names, line)
}
