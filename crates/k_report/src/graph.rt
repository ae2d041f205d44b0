//! The part of the graph: each object with its fields.
ghost use Rattle.std.specs.Prelude.{◌≡◌, ℕ, ◌<◌, ◌≤◌, ◌+◌, ◌++◌, ◌∷◌, [], List, length, IfSome, IsTrue, slice_get, count_by, map, take};
ghost use Rattle.std.specs.List.{flat_map};
ghost use Rattle.k_io.specs.Writing.{Writes};
ghost use Rattle.k_words.specs.Words.{text_of};
ghost use Rattle.k_types.specs.Numbers.{numbers_below};
ghost use Rattle.k_types.specs.Trace.{process_count, IsHeap};
ghost use Rattle.k_text.specs.Named.{AreNamed, name_word, heap_word};
ghost use Rattle.k_types.specs.State.{has};
ghost use Rattle.k_types.specs.Owners.{owner_of};
ghost use Rattle.k_types.specs.Replies.{field_at, field_count};
ghost use Rattle.k_text.specs.Shown.{shown_object};
ghost use Rattle.k_types.specs.Known.{IsKnownName};
ghost use Rattle.k_words.specs.Spaced.{spaced};
ghost use Rattle.k_text.specs.Report.{content_word, object_line, graph_lines};

use crate::heading::heading;
use crate::words::{heap_name, push_name, push_reference, type_label};
use k_io::{Sink, WriteFailed};
use k_text::View;
use k_trace::Names;
use k_types::{Field, Name};
use k_words::LineBuffer;

/// Adds the word of a field.
fn push_field<V: View>(line: &mut LineBuffer, names: &Names, view: &V, name: Name, field: u32)
    requires named { AreNamed names.now (V.trace view.now) }
    requires object { IsTrue (has (V.state view.now).objects name) }
    requires field { field < field_count (V.state view.now) name }
    requires room { length line.old + 54 ≤ 1024 }
    ensures text { line.new ≡ line.old ++ 32 ∷ content_word names.now (field_at (V.state view.now) name field) }
    ensures short { length line.new ≤ length line.old + 54 }
{
    match view.kind(name, field) {
        Field::Ref => push_reference(line, names, view, view.ref_at(name, field)),
        Field::Int => line.push_number(view.int_at(name, field)),
    }
}

/// Adds the words of all fields.
fn push_fields<V: View>(line: &mut LineBuffer, names: &Names, view: &V, name: Name)
    requires named { AreNamed names.now (V.trace view.now) }
    requires object { IsTrue (has (V.state view.now).objects name) }
    requires room { length line.old ≤ 120 }
    ensures text { line.new ≡ line.old ++ spaced (map (content_word names.now) (shown_object (V.state view.now).objects name).fields) }
    ensures short { length line.new < 1024 }
{
    for field in 0..view.fields(name) {
        push_field(line, names, view, name, field);
    }
}

/// Writes the line of an object.
fn put_object<K: Sink, V: View>(
    out: &mut K,
    line: &mut LineBuffer,
    names: &Names,
    view: &V,
    name: Name,
) -> Result<(), WriteFailed>
    requires empty { line.old ≡ [] }
    requires named { AreNamed names.now (V.trace view.now) }
    requires object { IsTrue (has (V.state view.now).objects name) }
    requires known { IsKnownName (V.trace view.now) name }
    ensures written { Writes (K.Holds out.old) (K.Holds out.new) (K.faults out.old) (K.faults out.new) result (text_of (object_line names.now (owner_of (V.trace view.now) (V.state view.now)) (shown_object (V.state view.now).objects name) ∷ [])) }
    ensures empty { line.new ≡ [] }
{
    push_name(line, names, view, name);
    line.push_word(heap_name(names, view.owner(name.seg)));
    line.push_word(type_label(names, view.object_type(name)));
    push_fields(line, names, view, name);
    line.write_to(out)
}

/// Writes the lines of all objects.
fn objects<K: Sink, V: View>(
    out: &mut K,
    line: &mut LineBuffer,
    names: &Names,
    view: &V,
) -> Result<(), WriteFailed>
    requires empty { line.old ≡ [] }
    requires named { AreNamed names.now (V.trace view.now) }
    ensures written { Writes (K.Holds out.old) (K.Holds out.new) (K.faults out.old) (K.faults out.new) result (text_of (map (object_line names.now (owner_of (V.trace view.now) (V.state view.now))) (V.state view.now).objects)) }
    ensures empty { line.new ≡ [] }
{
    let mut after = None;
    while let Some(name) = view.next_object(after) {
        put_object(out, line, names, view, name)?;
        after = Some(name);
    }
    Ok(())
}

/// Writes the part of the graph.
pub fn graph<K: Sink, V: View>(
    out: &mut K,
    line: &mut LineBuffer,
    names: &Names,
    view: &V,
) -> Result<(), WriteFailed>
    requires empty { line.old ≡ [] }
    requires named { AreNamed names.now (V.trace view.now) }
    ensures written { Writes (K.Holds out.old) (K.Holds out.new) (K.faults out.old) (K.faults out.new) result (text_of (graph_lines names.now (V.trace view.now) (V.state view.now))) }
    ensures empty { line.new ≡ [] }
{
    heading(out, line, b"graph")?;
    objects(out, line, names, view)
}
