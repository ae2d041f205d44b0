//! The part of the roots: the registers that are not null.
ghost use Rattle.std.specs.Prelude.{◌≡◌, ℕ, ◌<◌, ◌≤◌, ◌+◌, ◌++◌, ◌∷◌, [], List, length, IfSome, IsTrue, slice_get, count_by, map, take};
ghost use Rattle.std.specs.List.{flat_map};
ghost use Rattle.k_io.specs.Writing.{Writes};
ghost use Rattle.k_words.specs.Words.{text_of};
ghost use Rattle.k_types.specs.Numbers.{numbers_below};
ghost use Rattle.k_types.specs.Trace.{process_count, IsHeap};
ghost use Rattle.k_text.specs.Named.{AreNamed, name_word, heap_word};
ghost use Rattle.k_types.specs.State.{register};
ghost use Rattle.k_types.specs.Known.{IsKnownName};
ghost use Rattle.k_text.specs.Report.{root_lines, roots_of_process, roots_lines};

use crate::heading::heading;
use crate::words::push_name_word;
use k_io::{Sink, WriteFailed};
use k_text::View;
use k_trace::{Names, push_register};
use k_types::{Name, Pid, Reg};
use k_words::LineBuffer;

/// Writes the line of a register, where it is not null.
fn put_root<K: Sink, V: View>(
    out: &mut K,
    line: &mut LineBuffer,
    names: &Names,
    view: &V,
    pid: Pid,
    r: Reg,
    held: Option<Name>,
) -> Result<(), WriteFailed>
    requires empty { line.old ≡ [] }
    requires named { AreNamed names.now (V.trace view.now) }
    requires process { pid.0 < process_count (V.trace view.now) }
    requires known { IfSome held (IsKnownName (V.trace view.now)) }
    ensures written { Writes (K.Holds out.old) (K.Holds out.new) (K.faults out.old) (K.faults out.new) result (text_of (root_lines names.now pid.0 r.0 held)) }
    ensures empty { line.new ≡ [] }
{
    match held {
        None => Ok(()),
        Some(name) => {
            line.push_text(names.proc_name(pid));
            push_register(line, r);
            push_name_word(line, names, view, name);
            line.write_to(out)
        }
    }
}

/// Writes the lines of the registers of a process.
fn roots_of_process<K: Sink, V: View>(
    out: &mut K,
    line: &mut LineBuffer,
    names: &Names,
    view: &V,
    pid: Pid,
) -> Result<(), WriteFailed>
    requires empty { line.old ≡ [] }
    requires named { AreNamed names.now (V.trace view.now) }
    requires process { pid.0 < process_count (V.trace view.now) }
    ensures written { Writes (K.Holds out.old) (K.Holds out.new) (K.faults out.old) (K.faults out.new) result (text_of (roots_of_process names.now (V.state view.now) pid.0)) }
    ensures empty { line.new ≡ [] }
{
    for r in 0..16 {
        put_root(out, line, names, view, pid, Reg(r), view.reg(pid, Reg(r)))?;
    }
    Ok(())
}

/// Writes the lines of all registers.
fn all_roots<K: Sink, V: View>(
    out: &mut K,
    line: &mut LineBuffer,
    names: &Names,
    view: &V,
) -> Result<(), WriteFailed>
    requires empty { line.old ≡ [] }
    requires named { AreNamed names.now (V.trace view.now) }
    ensures written { Writes (K.Holds out.old) (K.Holds out.new) (K.faults out.old) (K.faults out.new) result (text_of (flat_map (roots_of_process names.now (V.state view.now)) (numbers_below (process_count (V.trace view.now))))) }
    ensures empty { line.new ≡ [] }
{
    for pid in 0..view.procs() {
        roots_of_process(out, line, names, view, Pid(pid))?;
    }
    Ok(())
}

/// Writes the part of the roots.
pub fn roots<K: Sink, V: View>(
    out: &mut K,
    line: &mut LineBuffer,
    names: &Names,
    view: &V,
) -> Result<(), WriteFailed>
    requires empty { line.old ≡ [] }
    requires named { AreNamed names.now (V.trace view.now) }
    ensures written { Writes (K.Holds out.old) (K.Holds out.new) (K.faults out.old) (K.faults out.new) result (text_of (roots_lines names.now (V.trace view.now) (V.state view.now))) }
    ensures empty { line.new ≡ [] }
{
    heading(out, line, b"roots")?;
    all_roots(out, line, names, view)
}
