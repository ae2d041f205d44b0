//! The part of the shares: which process has which shared heap.
ghost use Rattle.std.specs.Prelude.{◌≡◌, ℕ, ◌<◌, ◌≤◌, ◌+◌, ◌++◌, ◌∷◌, [], List, length, IfSome, IsTrue, slice_get, count_by, map, take};
ghost use Rattle.std.specs.List.{flat_map};
ghost use Rattle.k_io.specs.Writing.{Writes};
ghost use Rattle.k_words.specs.Words.{text_of};
ghost use Rattle.k_types.specs.Numbers.{numbers_below};
ghost use Rattle.k_types.specs.Trace.{process_count, IsHeap};
ghost use Rattle.k_text.specs.Named.{AreNamed, name_word, heap_word};
ghost use Rattle.k_text.specs.Report.{share_lines, shares_of_process, shares_lines};

use crate::heading::heading;
use k_io::{Sink, WriteFailed};
use k_text::View;
use k_trace::Names;
use k_types::{Pid, SharedId};
use k_words::LineBuffer;

/// Writes the line of a share, where there is one.
fn put_share<K: Sink>(
    out: &mut K,
    line: &mut LineBuffer,
    names: &Names,
    pid: Pid,
    shared: SharedId,
    shares: bool,
) -> Result<(), WriteFailed>
    requires empty { line.old ≡ [] }
    requires process { pid.0 < length names.now.procs }
    requires heap { shared.0 < length names.now.shared }
    ensures written { Writes (K.Holds out.old) (K.Holds out.new) (K.faults out.old) (K.faults out.new) result (text_of (share_lines names.now pid.0 shared.0 shares)) }
    ensures empty { line.new ≡ [] }
{
    if shares {
        line.push_text(names.proc_name(pid));
        line.push_word(names.shared_name(shared));
        line.write_to(out)
    } else {
        Ok(())
    }
}

/// Writes the lines of the shares of a process.
fn shares_of_process<K: Sink, V: View>(
    out: &mut K,
    line: &mut LineBuffer,
    names: &Names,
    view: &V,
    pid: Pid,
) -> Result<(), WriteFailed>
    requires empty { line.old ≡ [] }
    requires named { AreNamed names.now (V.trace view.now) }
    requires process { pid.0 < process_count (V.trace view.now) }
    ensures written { Writes (K.Holds out.old) (K.Holds out.new) (K.faults out.old) (K.faults out.new) result (text_of (shares_of_process names.now (V.trace view.now) (V.state view.now) pid.0)) }
    ensures empty { line.new ≡ [] }
{
    for id in 0..view.shared_heaps() {
        let shared = SharedId(id);
        put_share(out, line, names, pid, shared, view.shares(pid, shared))?;
    }
    Ok(())
}

/// Writes the lines of all shares.
fn all_shares<K: Sink, V: View>(
    out: &mut K,
    line: &mut LineBuffer,
    names: &Names,
    view: &V,
) -> Result<(), WriteFailed>
    requires empty { line.old ≡ [] }
    requires named { AreNamed names.now (V.trace view.now) }
    ensures written { Writes (K.Holds out.old) (K.Holds out.new) (K.faults out.old) (K.faults out.new) result (text_of (flat_map (shares_of_process names.now (V.trace view.now) (V.state view.now)) (numbers_below (process_count (V.trace view.now))))) }
    ensures empty { line.new ≡ [] }
{
    for pid in 0..view.procs() {
        shares_of_process(out, line, names, view, Pid(pid))?;
    }
    Ok(())
}

/// Writes the part of the shares.
pub fn shares<K: Sink, V: View>(
    out: &mut K,
    line: &mut LineBuffer,
    names: &Names,
    view: &V,
) -> Result<(), WriteFailed>
    requires empty { line.old ≡ [] }
    requires named { AreNamed names.now (V.trace view.now) }
    ensures written { Writes (K.Holds out.old) (K.Holds out.new) (K.faults out.old) (K.faults out.new) result (text_of (shares_lines names.now (V.trace view.now) (V.state view.now))) }
    ensures empty { line.new ≡ [] }
{
    heading(out, line, b"shares")?;
    all_shares(out, line, names, view)
}
