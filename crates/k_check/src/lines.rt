//! The events of a report, line by line up to the line `graph`.
ghost use Rattle.std.specs.Prelude.{◌≡◌, ◌<◌, ◌-◌, ◌^◌, [], length, IfOk};
ghost use Rattle.k_check.specs.Stops.{IsStop};

use crate::walking::Walk;
use k_history::read_event;
use k_types::NoMemory;
use k_words::{is, next_line};
use std::alloc::Global;

/// Where the reading of events ends, with the number of the line, counted from 1.
#[derive(Clone, Copy, Debug, PartialEq, Eq)]
pub enum Stop {
    /// At the line `graph`.
    Graph(u32),
    /// At the first wrong line.
    Wrong(u32),
}

/// Reads the events behind the report's first line, and walks along them. `NoMemory` comes where a step or the list of events
/// finds no memory.
pub fn read_events(alloc: Global, walk: &mut Walk, report: &[u8]) -> Result<Stop, NoMemory>
    requires begin { walk.old.history ≡ [] }
    requires few { length report.now < 2 ^ 32 - 1 }
    ensures trace { walk.new.trace ≡ walk.old.trace }
    ensures stop { IfOk result (λ stop. IsStop walk.old.trace report.now walk.new.history stop) }
{
    if report.is_empty() {
        return Ok(Stop::Wrong(1));
    }
    let (first, behind) = next_line(report);
    if !is(first, b"report 1") {
        return Ok(Stop::Wrong(1));
    }
    let mut rest = behind;
    let mut number: u32 = 2;
    while !rest.is_empty() {
        let (line, after) = next_line(rest);
        if is(line, b"graph") {
            return Ok(Stop::Graph(number));
        }
        let Some(event) = read_event(walk.names(), line) else {
            return Ok(Stop::Wrong(number));
        };
        if !walk.take(alloc, &event)? {
            return Ok(Stop::Wrong(number));
        }
        number += 1;
        rest = after;
    }
    Ok(Stop::Wrong(number))
}
