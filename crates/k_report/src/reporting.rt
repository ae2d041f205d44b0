//! The report as a whole, part after part.
ghost use Rattle.std.specs.Prelude.{◌≡◌, []};
ghost use Rattle.k_io.specs.Writing.{Writes};
ghost use Rattle.k_text.specs.Named.{AreNamed};
ghost use Rattle.k_text.specs.Report.{text_over};

use crate::charges::charges;
use crate::events::events;
use crate::exits::exits;
use crate::faults::faults;
use crate::graph::graph;
use crate::heading::heading;
use crate::roots::roots;
use crate::shares::shares;
use k_io::{Sink, WriteFailed};
use k_text::View;
use k_trace::Names;
use k_words::LineBuffer;

/// Writes the report of what the view shows: the events of the journal, and then the state that
/// they left. Source: own.
///
/// Each line goes to the sink as one piece with its line feed, and what a write did not take is
/// handed on again. `WriteFailed` comes where a write failed; a front of the report was taken then,
/// and nothing is written after the fault. The work is the length of the report and, for the
/// faults, the number of processes times the number of events. It takes no memory.
pub fn report<K: Sink, V: View>(out: &mut K, names: &Names, view: &V) -> Result<(), WriteFailed>
    requires { AreNamed names.now (V.trace view.now) }
    ensures { Writes (K.Holds out.old) (K.Holds out.new) (K.faults out.old) (K.faults out.new) result (text_over names.now (V.trace view.now) (V.events view.now) (V.state view.now)) }
{
    let mut line = LineBuffer::new();
    heading(out, &mut line, b"report 1")?;
    events(out, &mut line, names, view)?;
    graph(out, &mut line, names, view)?;
    roots(out, &mut line, names, view)?;
    exits(out, &mut line, names, view)?;
    shares(out, &mut line, names, view)?;
    faults(out, &mut line, names, view)?;
    charges(out, &mut line, names, view)?;
    heading(out, &mut line, b"end")
}
