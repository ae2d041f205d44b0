//! The history that a report's bytes are.
ghost use Rattle.std.specs.Prelude.{◌<◌, ◌-◌, ◌^◌, length};
ghost use Rattle.k_words.specs.Words.{lines_of};
ghost use Rattle.k_history.specs.Histories.{ReadsHistory};
ghost use Rattle.k_reports.specs.Histories.{events_of_lines, history_of};

use crate::errors::HistoryError;
use crate::events::read_event;
use k_io::push;
use k_trace::Names;
use k_types::Event;
use k_words::{is, next_line};
use std::alloc::Global;

/// The events of the lines up to the line `graph`, the first of which is line 2.
fn read_events(alloc: Global, names: &Names, bytes: &[u8]) -> Result<Vec<Event>, HistoryError>
    requires few { length bytes.now < 2 ^ 32 - 2 }
    ensures { ReadsHistory result (events_of_lines names.now 2 (lines_of bytes.now)) }
{
    let mut events = Vec::new(alloc);
    let mut rest = bytes;
    let mut number: u32 = 2;
    while !rest.is_empty() {
        let (line, after) = next_line(rest);
        if is(line, b"graph") {
            return Ok(events);
        }
        let Some(event) = read_event(names, line) else {
            return Err(HistoryError::Bad(number));
        };
        push(&mut events, event)?;
        number += 1;
        rest = after;
    }
    Err(HistoryError::Bad(number))
}

/// The history that a report's bytes are, over the names of its trace: the events of its lines after the first one and
/// before the line `graph`. Time and memory are in proportion to the bytes.
///
/// # Errors
///
/// `Bad` exactly where no history can be read: with the number of the first line up to the line `graph` that is not in the
/// report's grammar, or, where there is no line `graph`, with the number of lines plus 1. `NoMemory` where the events find
/// no room.
#[tactic(auto, unfolding(k_reports::specs::Histories::history_of))]
pub fn read_history(alloc: Global, names: &Names, bytes: &[u8]) -> Result<Vec<Event>, HistoryError>
    requires few { length bytes.now < 2 ^ 32 - 1 }
    ensures { ReadsHistory result (history_of names.now bytes.now) }
{
    if bytes.is_empty() {
        return Err(HistoryError::Bad(1));
    }
    let (line, rest) = next_line(bytes);
    if !is(line, b"report 1") {
        return Err(HistoryError::Bad(1));
    }
    read_events(alloc, names, rest)
}
