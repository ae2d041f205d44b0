//! The writing of a snapshot: its first parts, and after them those of a report.
ghost use Rattle.std.specs.Prelude.{◌≡◌, ◌<◌, ◌∷◌, [], length, map};
ghost use Rattle.k_io.specs.Writing.{Writes};
ghost use Rattle.k_types.specs.Numbers.{numbers_below};
ghost use Rattle.k_types.specs.Trace.{segment_count};
ghost use Rattle.k_words.specs.Words.{text_of};
ghost use Rattle.k_text.specs.Named.{AreNamed};
ghost use Rattle.k_audit.specs.Snapshots.{gone_line, gone_lines, made_line, made_lines, snapshot_text};

use k_io::{Sink, WriteFailed};
use k_report::parts::{charges, exits, graph, heading, roots, segment_name, shares};
use k_text::View;
use k_trace::Names;
use k_types::{Pid, Seg};
use k_words::LineBuffer;

/// Writes the line of a process, where it has ended.
fn put_gone<K: Sink>(
    out: &mut K,
    line: &mut LineBuffer,
    names: &Names,
    pid: Pid,
    lives: bool,
) -> Result<(), WriteFailed>
    requires empty { line.old ≡ [] }
    requires process { pid.0 < length names.now.procs }
    ensures written { Writes (K.Holds out.old) (K.Holds out.new) (K.faults out.old) (K.faults out.new) result (text_of (gone_line names.now pid.0 lives)) }
    ensures empty { line.new ≡ [] }
{
    if lives {
        Ok(())
    } else {
        line.push_text(b"gone");
        line.push_word(names.proc_name(pid));
        line.write_to(out)
    }
}

/// Writes the lines of the processes that have ended.
fn gone<K: Sink, V: View>(
    out: &mut K,
    line: &mut LineBuffer,
    names: &Names,
    view: &V,
) -> Result<(), WriteFailed>
    requires empty { line.old ≡ [] }
    requires named { AreNamed names.now (V.trace view.now) }
    ensures written { Writes (K.Holds out.old) (K.Holds out.new) (K.faults out.old) (K.faults out.new) result (text_of (gone_lines names.now (V.trace view.now) (V.state view.now))) }
    ensures empty { line.new ≡ [] }
{
    for pid in 0..view.procs() {
        put_gone(out, line, names, Pid(pid), view.lives(Pid(pid)))?;
    }
    Ok(())
}

/// Writes the line of a segment.
fn put_made<K: Sink, V: View>(
    out: &mut K,
    line: &mut LineBuffer,
    names: &Names,
    view: &V,
    seg: Seg,
) -> Result<(), WriteFailed>
    requires empty { line.old ≡ [] }
    requires named { AreNamed names.now (V.trace view.now) }
    requires segment { seg.0 < segment_count (V.trace view.now) }
    ensures written { Writes (K.Holds out.old) (K.Holds out.new) (K.faults out.old) (K.faults out.new) result (text_of (made_line names.now (V.state view.now) seg.0 ∷ [])) }
    ensures empty { line.new ≡ [] }
{
    line.push_text(segment_name(names, view, seg));
    line.push_number(u64::from(view.made(seg)));
    line.write_to(out)
}

/// Writes the lines of the segments.
fn all_made<K: Sink, V: View>(
    out: &mut K,
    line: &mut LineBuffer,
    names: &Names,
    view: &V,
) -> Result<(), WriteFailed>
    requires empty { line.old ≡ [] }
    requires named { AreNamed names.now (V.trace view.now) }
    ensures written { Writes (K.Holds out.old) (K.Holds out.new) (K.faults out.old) (K.faults out.new) result (text_of (map (made_line names.now (V.state view.now)) (numbers_below (segment_count (V.trace view.now))))) }
    ensures empty { line.new ≡ [] }
{
    let segments = 1 + view.procs() + view.shared_heaps();
    for seg in 0..segments {
        put_made(out, line, names, view, Seg(seg))?;
    }
    Ok(())
}

/// Writes the part of the serials that were given.
fn made<K: Sink, V: View>(
    out: &mut K,
    line: &mut LineBuffer,
    names: &Names,
    view: &V,
) -> Result<(), WriteFailed>
    requires empty { line.old ≡ [] }
    requires named { AreNamed names.now (V.trace view.now) }
    ensures written { Writes (K.Holds out.old) (K.Holds out.new) (K.faults out.old) (K.faults out.new) result (text_of (made_lines names.now (V.trace view.now) (V.state view.now))) }
    ensures empty { line.new ≡ [] }
{
    heading(out, line, b"made")?;
    all_made(out, line, names, view)
}

/// Writes the snapshot of the state that the view shows. It does not ask for the events.
///
/// Each line goes to the sink as one piece with its line feed, and what a write did not take is handed on again. `WriteFailed` comes
/// where a write failed; a front of the snapshot was taken then, and nothing is written after the fault. The work is the length of the
/// snapshot. It takes no memory.
pub fn snapshot<K: Sink, V: View>(out: &mut K, names: &Names, view: &V) -> Result<(), WriteFailed>
    requires { AreNamed names.now (V.trace view.now) }
    ensures { Writes (K.Holds out.old) (K.Holds out.new) (K.faults out.old) (K.faults out.new) result (snapshot_text names.now (V.trace view.now) (V.state view.now)) }
{
    let mut line = LineBuffer::new();
    heading(out, &mut line, b"snapshot 1")?;
    gone(out, &mut line, names, view)?;
    made(out, &mut line, names, view)?;
    graph(out, &mut line, names, view)?;
    roots(out, &mut line, names, view)?;
    exits(out, &mut line, names, view)?;
    shares(out, &mut line, names, view)?;
    charges(out, &mut line, names, view)?;
    heading(out, &mut line, b"end")
}
