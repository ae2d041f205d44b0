//! The text of the trace of what was done.
ghost use Rattle.std.specs.Prelude.{◌≡◌, ◌++◌, [], OnOk, IfOk};
ghost use Rattle.std.specs.List.{flat_map};
ghost use Rattle.k_text.specs.Named.{AreNamed};
ghost use Rattle.k_trace.specs.Spelling.{text};
ghost use Rattle.k_types.specs.Known.{IsKnownEvent};
ghost use Rattle.k_types.specs.Trace.{Trace};
ghost use Rattle.k_words.specs.Words.{text_of};
ghost use Rattle.k_print.specs.Done.{line_done};
ghost use Rattle.k_print.specs.Printed.{IsShown, journal_of, named_done};

use k_io::NoMemory;
use k_solo::PlainEnd;
use k_spell::{add_heading, add_limits, add_procs, add_shared, add_types, push_operation};
use k_text::View;
use k_trace::Names;
use k_types::{Event, Setup};
use k_words::LineBuffer;
use std::alloc::Global;

/// Adds the line of the event's operation, where it does one.
fn add_line(
    text: &mut Vec<u8>,
    line: &mut LineBuffer,
    names: &Names,
    event: &Event,
) -> Result<(), NoMemory>
    requires empty { line.old ≡ [] }
    requires known { (trace : Trace) × AreNamed names.now trace × IsKnownEvent trace event.now }
    ensures added { OnOk result (text.new.items ≡ text.old.items ++ text_of (line_done names.now event.now)) }
    ensures empty { line.new ≡ [] }
{
    let Event::Done { pid, op, .. } = event else {
        return Ok(());
    };
    push_operation(line, names, *pid, op);
    line.append_to(text)
}

/// Adds the lines of the operations that were done, in the order of the events.
fn add_lines(text: &mut Vec<u8>, names: &Names, end: &PlainEnd) -> Result<(), NoMemory>
    requires { AreNamed names.now end.now.machine.setup }
    ensures { OnOk result (text.new.items ≡ text.old.items ++ text_of (flat_map (line_done names.now) end.now.events)) }
{
    let mut line = LineBuffer::new();
    for i in 0..end.events() {
        add_line(text, &mut line, names, end.event(i))?;
    }
    Ok(())
}

/// The text of the trace of what was done, with its last line feed.
pub(crate) fn trace_text(
    alloc: Global,
    setup: &Setup,
    names: &Names,
    end: &PlainEnd,
) -> Result<Vec<u8>, NoMemory>
    requires { IsShown (journal_of names.now setup.now end.now.events) end.now }
    ensures { IfOk result (λ v. v.items ≡ text (named_done (journal_of names.now setup.now end.now.events))) }
{
    let mut bytes = Vec::new(alloc);
    add_heading(&mut bytes, setup)?;
    add_types(&mut bytes, names, &setup.types)?;
    add_limits(&mut bytes, names, &setup.limits)?;
    add_procs(&mut bytes, names, &setup.procs)?;
    add_shared(&mut bytes, names)?;
    add_lines(&mut bytes, names, end)?;
    Ok(bytes)
}
