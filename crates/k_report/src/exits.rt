//! The part of the exit items.
ghost use Rattle.std.specs.Prelude.{◌≡◌, ℕ, ◌<◌, ◌≤◌, ◌+◌, ◌++◌, ◌∷◌, [], List, length, IfSome, IsTrue, slice_get, count_by, map, take};
ghost use Rattle.std.specs.List.{flat_map};
ghost use Rattle.k_io.specs.Writing.{Writes};
ghost use Rattle.k_words.specs.Words.{text_of};
ghost use Rattle.k_types.specs.Numbers.{numbers_below};
ghost use Rattle.k_types.specs.Trace.{process_count, IsHeap};
ghost use Rattle.k_text.specs.Named.{AreNamed, name_word, heap_word};
ghost use Rattle.k_types.specs.declared.names.Heap.{Heap};
ghost use Rattle.k_types.specs.Owners.{user, shared};
ghost use Rattle.k_text.specs.Shown.{exits_of};
ghost use Rattle.k_types.specs.Known.{IsKnownName};
ghost use Rattle.k_text.specs.Report.{exits_of_heap, exits_lines};

use crate::heading::heading;
use crate::words::{heap_name, push_name_word};
use k_io::{Sink, WriteFailed};
use k_text::View;
use k_trace::Names;
use k_types::{Heap, Name, Pid, SharedId};
use k_words::LineBuffer;

/// Writes the line of an exit item.
fn put_exit<K: Sink, V: View>(
    out: &mut K,
    line: &mut LineBuffer,
    names: &Names,
    view: &V,
    heap: Heap,
    target: Name,
) -> Result<(), WriteFailed>
    requires empty { line.old ≡ [] }
    requires named { AreNamed names.now (V.trace view.now) }
    requires heap { IsHeap (V.trace view.now) heap }
    requires known { IsKnownName (V.trace view.now) target }
    ensures written { Writes (K.Holds out.old) (K.Holds out.new) (K.faults out.old) (K.faults out.new) result (text_of ((heap_word names.now heap ∷ name_word names.now target ∷ []) ∷ [])) }
    ensures empty { line.new ≡ [] }
{
    line.push_text(heap_name(names, heap));
    push_name_word(line, names, view, target);
    line.write_to(out)
}

/// Writes the lines of the exit items of a heap.
fn exits_of_heap<K: Sink, V: View>(
    out: &mut K,
    line: &mut LineBuffer,
    names: &Names,
    view: &V,
    heap: Heap,
) -> Result<(), WriteFailed>
    requires empty { line.old ≡ [] }
    requires named { AreNamed names.now (V.trace view.now) }
    requires heap { IsHeap (V.trace view.now) heap }
    ensures written { Writes (K.Holds out.old) (K.Holds out.new) (K.faults out.old) (K.faults out.new) result (text_of (exits_of_heap names.now (V.state view.now) heap)) }
    ensures empty { line.new ≡ [] }
{
    for i in 0..view.exits(heap) {
        put_exit(out, line, names, view, heap, view.exit(heap, i))?;
    }
    Ok(())
}

/// Writes the lines of the exit items of the processes.
fn exits_of_processes<K: Sink, V: View>(
    out: &mut K,
    line: &mut LineBuffer,
    names: &Names,
    view: &V,
) -> Result<(), WriteFailed>
    requires empty { line.old ≡ [] }
    requires named { AreNamed names.now (V.trace view.now) }
    ensures written { Writes (K.Holds out.old) (K.Holds out.new) (K.faults out.old) (K.faults out.new) result (text_of (flat_map (λ p. exits_of_heap names.now (V.state view.now) (user p)) (numbers_below (process_count (V.trace view.now))))) }
    ensures empty { line.new ≡ [] }
{
    for pid in 0..view.procs() {
        exits_of_heap(out, line, names, view, Heap::User(Pid(pid)))?;
    }
    Ok(())
}

/// Writes the lines of the exit items of the shared heaps.
fn exits_of_shared_heaps<K: Sink, V: View>(
    out: &mut K,
    line: &mut LineBuffer,
    names: &Names,
    view: &V,
) -> Result<(), WriteFailed>
    requires empty { line.old ≡ [] }
    requires named { AreNamed names.now (V.trace view.now) }
    ensures written { Writes (K.Holds out.old) (K.Holds out.new) (K.faults out.old) (K.faults out.new) result (text_of (flat_map (λ s. exits_of_heap names.now (V.state view.now) (shared s)) (numbers_below (V.trace view.now).shared_heaps))) }
    ensures empty { line.new ≡ [] }
{
    for id in 0..view.shared_heaps() {
        exits_of_heap(out, line, names, view, Heap::Shared(SharedId(id)))?;
    }
    Ok(())
}

/// Writes the part of the exit items.
pub fn exits<K: Sink, V: View>(
    out: &mut K,
    line: &mut LineBuffer,
    names: &Names,
    view: &V,
) -> Result<(), WriteFailed>
    requires empty { line.old ≡ [] }
    requires named { AreNamed names.now (V.trace view.now) }
    ensures written { Writes (K.Holds out.old) (K.Holds out.new) (K.faults out.old) (K.faults out.new) result (text_of (exits_lines names.now (V.trace view.now) (V.state view.now))) }
    ensures empty { line.new ≡ [] }
{
    heading(out, line, b"exits")?;
    exits_of_heap(out, line, names, view, Heap::Kernel)?;
    exits_of_processes(out, line, names, view)?;
    exits_of_shared_heaps(out, line, names, view)
}
