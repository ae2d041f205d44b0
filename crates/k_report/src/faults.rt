//! The part of the faults: how many operations of each process were answered by one.
ghost use Rattle.std.specs.Prelude.{◌≡◌, ℕ, ◌<◌, ◌≤◌, ◌+◌, ◌++◌, ◌∷◌, [], List, length, IfSome, IsTrue, slice_get, count_by, map, take};
ghost use Rattle.std.specs.List.{flat_map};
ghost use Rattle.k_io.specs.Writing.{Writes};
ghost use Rattle.k_words.specs.Words.{text_of};
ghost use Rattle.k_types.specs.Numbers.{numbers_below};
ghost use Rattle.k_types.specs.Trace.{process_count, IsHeap};
ghost use Rattle.k_text.specs.Named.{AreNamed, name_word, heap_word};
ghost use Rattle.k_types.specs.declared.event.Event.{Event};
ghost use Rattle.k_text.specs.Report.{is_fault_of, fault_line, faults_lines};

use crate::heading::heading;
use k_io::{Sink, WriteFailed};
use k_text::View;
use k_trace::Names;
use k_types::{Event, Pid, Reply};
use k_words::LineBuffer;

/// Whether the event is an operation of the process that was answered by a fault.
fn is_fault_of(event: &Event, pid: Pid) -> bool
    ensures { result ≡ is_fault_of pid.0 event.now }
{
    match *event {
        Event::Done {
            pid: doer,
            reply: Reply::Refused(_),
            ..
        } => doer.0 == pid.0,
        _ => false,
    }
}

/// How many operations of the process were answered by a fault.
fn count_faults<V: View>(view: &V, pid: Pid) -> u32
    ensures { result ≡ count_by (is_fault_of pid.0) (V.events view.now) }
{
    let mut count = 0;
    for i in 0..view.events() {
        if is_fault_of(view.event(i), pid) {
            count += 1;
        }
    }
    count
}

/// Writes the line of the faults of a process.
fn put_faults<K: Sink, V: View>(
    out: &mut K,
    line: &mut LineBuffer,
    names: &Names,
    view: &V,
    pid: Pid,
) -> Result<(), WriteFailed>
    requires empty { line.old ≡ [] }
    requires named { AreNamed names.now (V.trace view.now) }
    requires process { pid.0 < process_count (V.trace view.now) }
    ensures written { Writes (K.Holds out.old) (K.Holds out.new) (K.faults out.old) (K.faults out.new) result (text_of (fault_line names.now (V.events view.now) pid.0 ∷ [])) }
    ensures empty { line.new ≡ [] }
{
    line.push_text(names.proc_name(pid));
    line.push_number(u64::from(count_faults(view, pid)));
    line.write_to(out)
}

/// Writes the lines of the faults of all processes.
fn all_faults<K: Sink, V: View>(
    out: &mut K,
    line: &mut LineBuffer,
    names: &Names,
    view: &V,
) -> Result<(), WriteFailed>
    requires empty { line.old ≡ [] }
    requires named { AreNamed names.now (V.trace view.now) }
    ensures written { Writes (K.Holds out.old) (K.Holds out.new) (K.faults out.old) (K.faults out.new) result (text_of (map (fault_line names.now (V.events view.now)) (numbers_below (process_count (V.trace view.now))))) }
    ensures empty { line.new ≡ [] }
{
    for pid in 0..view.procs() {
        put_faults(out, line, names, view, Pid(pid))?;
    }
    Ok(())
}

/// Writes the part of the faults.
pub fn faults<K: Sink, V: View>(
    out: &mut K,
    line: &mut LineBuffer,
    names: &Names,
    view: &V,
) -> Result<(), WriteFailed>
    requires empty { line.old ≡ [] }
    requires named { AreNamed names.now (V.trace view.now) }
    ensures written { Writes (K.Holds out.old) (K.Holds out.new) (K.faults out.old) (K.faults out.new) result (text_of (faults_lines names.now (V.trace view.now) (V.events view.now))) }
    ensures empty { line.new ≡ [] }
{
    heading(out, line, b"faults")?;
    all_faults(out, line, names, view)
}
