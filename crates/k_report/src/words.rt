//! The words of heaps, types, objects and references.
ghost use Rattle.std.specs.Prelude.{◌≡◌, ℕ, ◌<◌, ◌≤◌, ◌+◌, ◌++◌, ◌∷◌, [], List, length, IfSome};
ghost use Rattle.k_types.specs.Trace.{segment_count};
ghost use Rattle.k_words.specs.Words.{word_at};
ghost use Rattle.k_text.specs.Named.{AreNamed, IsNamedHeap, segment_names, name_word, reference_word, heap_word, type_word};
ghost use Rattle.k_types.specs.Known.{IsKnownName};

use k_text::View;
use k_trace::Names;
use k_types::{Heap, Name, Pid, Reg, Seg, SharedId, TypeId};
use k_words::LineBuffer;

/// The name of a segment.
pub fn segment_name<'a, V: View>(names: &'a Names, view: &V, seg: Seg) -> &'a [u8]
    requires named { AreNamed names.now (V.trace view.now) }
    requires known { seg.0 < segment_count (V.trace view.now) }
    ensures name { result.now ≡ word_at (segment_names names.now) seg.0 }
    ensures short { length result.now ≤ 32 }
{
    let procs = view.procs();
    if seg.0 == 0 {
        b"kernel"
    } else if seg.0 <= procs {
        names.proc_name(Pid(seg.0 - 1))
    } else {
        names.shared_name(SharedId(seg.0 - 1 - procs))
    }
}

/// The name of a heap.
pub fn heap_name(names: &Names, heap: Heap) -> &[u8]
    requires { IsNamedHeap names.now heap }
    ensures name { result.now ≡ heap_word names.now heap }
    ensures short { length result.now ≤ 32 }
{
    match heap {
        Heap::Kernel => b"kernel",
        Heap::User(pid) => names.proc_name(pid),
        Heap::Shared(shared) => names.shared_name(shared),
    }
}

/// The word of an object's type.
pub fn type_label(names: &Names, ty: Option<TypeId>) -> &[u8]
    requires { IfSome ty (λ t. t.0 < length names.now.types) }
    ensures name { result.now ≡ type_word names.now ty }
    ensures short { length result.now ≤ 32 }
{
    match ty {
        None => b"directory",
        Some(ty) => names.type_name(ty),
    }
}

/// Adds an object's name.
pub fn push_name<V: View>(line: &mut LineBuffer, names: &Names, view: &V, name: Name)
    requires named { AreNamed names.now (V.trace view.now) }
    requires known { IsKnownName (V.trace view.now) name }
    requires room { length line.old + 53 ≤ 1024 }
    ensures text { line.new ≡ line.old ++ name_word names.now name }
    ensures short { length line.new ≤ length line.old + 53 }
{
    line.push_text(segment_name(names, view, name.seg));
    line.push_text(b".");
    line.push_digits(u64::from(name.serial.0));
}

/// Adds a space and an object's name.
pub fn push_name_word<V: View>(line: &mut LineBuffer, names: &Names, view: &V, name: Name)
    requires named { AreNamed names.now (V.trace view.now) }
    requires known { IsKnownName (V.trace view.now) name }
    requires room { length line.old + 54 ≤ 1024 }
    ensures text { line.new ≡ line.old ++ 32 ∷ name_word names.now name }
    ensures short { length line.new ≤ length line.old + 54 }
{
    line.push_text(b" ");
    push_name(line, names, view, name);
}

/// Adds a space and a reference.
pub fn push_reference<V: View>(
    line: &mut LineBuffer,
    names: &Names,
    view: &V,
    reference: Option<Name>,
)
    requires named { AreNamed names.now (V.trace view.now) }
    requires known { IfSome reference (IsKnownName (V.trace view.now)) }
    requires room { length line.old + 54 ≤ 1024 }
    ensures text { line.new ≡ line.old ++ 32 ∷ reference_word names.now reference }
    ensures short { length line.new ≤ length line.old + 54 }
{
    match reference {
        None => line.push_word(b"null"),
        Some(name) => push_name_word(line, names, view, name),
    }
}
