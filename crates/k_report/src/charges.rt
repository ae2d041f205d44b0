//! The part of the charges: the kernel, the limits, the processes and the shared heaps.
ghost use Rattle.std.specs.Prelude.{◌≡◌, ℕ, ◌<◌, ◌≤◌, ◌+◌, ◌++◌, ◌∷◌, [], List, length, IfSome, IsTrue, slice_get, count_by, map, take};
ghost use Rattle.std.specs.List.{flat_map};
ghost use Rattle.k_io.specs.Writing.{Writes};
ghost use Rattle.k_words.specs.Words.{text_of};
ghost use Rattle.k_types.specs.Numbers.{numbers_below};
ghost use Rattle.k_types.specs.Trace.{process_count, IsHeap};
ghost use Rattle.k_text.specs.Named.{AreNamed, name_word, heap_word};
ghost use Rattle.k_types.specs.Known.{IsKnownPhase};
ghost use Rattle.k_words.specs.Spaced.{spaced};
ghost use Rattle.k_text.specs.Report.{kernel_charge_line, limit_charge_line, process_charge_line, shared_charge_line, phase_words, charges_lines};

use crate::heading::heading;
use crate::words::push_name_word;
use k_io::{Sink, WriteFailed};
use k_text::View;
use k_trace::Names;
use k_types::{Heap, LimitId, Phase, Pid, SharedId};
use k_words::LineBuffer;

/// Writes the line of the kernel's bytes.
fn put_kernel<K: Sink, V: View>(
    out: &mut K,
    line: &mut LineBuffer,
    view: &V,
) -> Result<(), WriteFailed>
    requires { line.old ≡ [] }
    ensures written { Writes (K.Holds out.old) (K.Holds out.new) (K.faults out.old) (K.faults out.new) result (text_of (kernel_charge_line (V.trace view.now) (V.state view.now) ∷ [])) }
    ensures empty { line.new ≡ [] }
{
    line.push_text(b"kernel");
    line.push_number(view.bytes(Heap::Kernel));
    line.push_word(b"of");
    line.push_number(view.ceiling());
    line.write_to(out)
}

/// Writes the line of a limit.
fn put_limit<K: Sink, V: View>(
    out: &mut K,
    line: &mut LineBuffer,
    names: &Names,
    view: &V,
    at: LimitId,
) -> Result<(), WriteFailed>
    requires empty { line.old ≡ [] }
    requires named { AreNamed names.now (V.trace view.now) }
    requires limit { at.0 < length (V.trace view.now).limits }
    ensures written { Writes (K.Holds out.old) (K.Holds out.new) (K.faults out.old) (K.faults out.new) result (text_of (limit_charge_line names.now (V.trace view.now) (V.state view.now) at.0 ∷ [])) }
    ensures empty { line.new ≡ [] }
{
    line.push_text(b"limit");
    line.push_word(names.limit_name(at));
    line.push_number(view.use_of(at));
    line.push_word(b"of");
    line.push_number(view.max_of(at));
    line.write_to(out)
}

/// Writes the line of the charge of a process.
fn put_process<K: Sink, V: View>(
    out: &mut K,
    line: &mut LineBuffer,
    names: &Names,
    view: &V,
    pid: Pid,
) -> Result<(), WriteFailed>
    requires empty { line.old ≡ [] }
    requires named { AreNamed names.now (V.trace view.now) }
    requires process { pid.0 < process_count (V.trace view.now) }
    ensures written { Writes (K.Holds out.old) (K.Holds out.new) (K.faults out.old) (K.faults out.new) result (text_of (process_charge_line names.now (V.trace view.now) (V.state view.now) pid.0 ∷ [])) }
    ensures empty { line.new ≡ [] }
{
    line.push_text(b"process");
    line.push_word(names.proc_name(pid));
    line.push_number(view.charge(pid));
    line.write_to(out)
}

/// Adds the words of the phase of a shared heap.
#[tactic(auto, unfolding(k_text::specs::Report::phase_words))]
fn push_phase<V: View>(line: &mut LineBuffer, names: &Names, view: &V, phase: Phase)
    requires named { AreNamed names.now (V.trace view.now) }
    requires known { IsKnownPhase (V.trace view.now) phase }
    requires room { length line.old + 70 ≤ 1024 }
    ensures text { line.new ≡ line.old ++ spaced (phase_words names.now phase) }
    ensures short { length line.new ≤ length line.old + 70 }
{
    match phase {
        Phase::Unmade => line.push_word(b"unmade"),
        Phase::Populating(pid) => line.push_words(b"populating", names.proc_name(pid)),
        Phase::Frozen(root) => {
            line.push_word(b"frozen");
            push_name_word(line, names, view, root);
        }
        Phase::Absorbed => line.push_word(b"absorbed"),
    }
}

/// Writes the line of a shared heap.
fn put_shared<K: Sink, V: View>(
    out: &mut K,
    line: &mut LineBuffer,
    names: &Names,
    view: &V,
    shared: SharedId,
) -> Result<(), WriteFailed>
    requires empty { line.old ≡ [] }
    requires named { AreNamed names.now (V.trace view.now) }
    requires heap { shared.0 < (V.trace view.now).shared_heaps }
    ensures written { Writes (K.Holds out.old) (K.Holds out.new) (K.faults out.old) (K.faults out.new) result (text_of (shared_charge_line names.now (V.trace view.now) (V.state view.now) shared.0 ∷ [])) }
    ensures empty { line.new ≡ [] }
{
    line.push_text(b"shared");
    line.push_word(names.shared_name(shared));
    line.push_number(view.bytes(Heap::Shared(shared)));
    push_phase(line, names, view, view.phase(shared));
    line.write_to(out)
}

/// Writes the lines of all limits.
fn limits<K: Sink, V: View>(
    out: &mut K,
    line: &mut LineBuffer,
    names: &Names,
    view: &V,
) -> Result<(), WriteFailed>
    requires empty { line.old ≡ [] }
    requires named { AreNamed names.now (V.trace view.now) }
    ensures written { Writes (K.Holds out.old) (K.Holds out.new) (K.faults out.old) (K.faults out.new) result (text_of (map (limit_charge_line names.now (V.trace view.now) (V.state view.now)) (numbers_below (length (V.trace view.now).limits)))) }
    ensures empty { line.new ≡ [] }
{
    for at in 0..view.limits() {
        put_limit(out, line, names, view, LimitId(at))?;
    }
    Ok(())
}

/// Writes the lines of the charges of all processes.
fn processes<K: Sink, V: View>(
    out: &mut K,
    line: &mut LineBuffer,
    names: &Names,
    view: &V,
) -> Result<(), WriteFailed>
    requires empty { line.old ≡ [] }
    requires named { AreNamed names.now (V.trace view.now) }
    ensures written { Writes (K.Holds out.old) (K.Holds out.new) (K.faults out.old) (K.faults out.new) result (text_of (map (process_charge_line names.now (V.trace view.now) (V.state view.now)) (numbers_below (process_count (V.trace view.now))))) }
    ensures empty { line.new ≡ [] }
{
    for pid in 0..view.procs() {
        put_process(out, line, names, view, Pid(pid))?;
    }
    Ok(())
}

/// Writes the lines of all shared heaps.
fn shared_heaps<K: Sink, V: View>(
    out: &mut K,
    line: &mut LineBuffer,
    names: &Names,
    view: &V,
) -> Result<(), WriteFailed>
    requires empty { line.old ≡ [] }
    requires named { AreNamed names.now (V.trace view.now) }
    ensures written { Writes (K.Holds out.old) (K.Holds out.new) (K.faults out.old) (K.faults out.new) result (text_of (map (shared_charge_line names.now (V.trace view.now) (V.state view.now)) (numbers_below (V.trace view.now).shared_heaps))) }
    ensures empty { line.new ≡ [] }
{
    for id in 0..view.shared_heaps() {
        put_shared(out, line, names, view, SharedId(id))?;
    }
    Ok(())
}

/// Writes the part of the charges.
pub fn charges<K: Sink, V: View>(
    out: &mut K,
    line: &mut LineBuffer,
    names: &Names,
    view: &V,
) -> Result<(), WriteFailed>
    requires empty { line.old ≡ [] }
    requires named { AreNamed names.now (V.trace view.now) }
    ensures written { Writes (K.Holds out.old) (K.Holds out.new) (K.faults out.old) (K.faults out.new) result (text_of (charges_lines names.now (V.trace view.now) (V.state view.now))) }
    ensures empty { line.new ≡ [] }
{
    heading(out, line, b"charges")?;
    put_kernel(out, line, view)?;
    limits(out, line, names, view)?;
    processes(out, line, names, view)?;
    shared_heaps(out, line, names, view)
}
