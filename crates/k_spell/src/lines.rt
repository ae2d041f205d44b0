//! The lines of a trace, one function a form.
ghost use Rattle.std.specs.Prelude.{◌≡◌, ℕ, ◌<◌, ◌≤◌, ◌+◌, ◌++◌, ◌∷◌, [], List, length, map, decimal, codes, IfSome};
ghost use Rattle.std.specs.List.{join_with_byte};
ghost use Rattle.k_types.specs.Types.{type_row};
ghost use Rattle.k_words.specs.Spaced.{spaced};
ghost use Rattle.k_trace.specs.Named.{type_name, limit_name, proc_name, shared_name};
ghost use Rattle.k_trace.specs.NamedOps.{IsNamedOp};
ghost use Rattle.k_trace.specs.Spelling.{field_word, type_words, place_words, limit_words, proc_words, shared_words, line_words};

use k_trace::{Names, push_op};
use k_types::{Field, LimitId, LimitRow, Op, Pid, SharedId, TypeId, TypeTable};
use k_words::LineBuffer;

/// The word of a field's kind.
fn kind_word(kind: Field) -> &'static [u8]
    ensures word { result.now ≡ field_word kind }
    ensures len { length result.now ≡ 3 }
{
    match kind {
        Field::Ref => b"ref",
        Field::Int => b"int",
    }
}

/// Adds the kinds of the fields of a type, each with a space before it.
fn push_kinds(line: &mut LineBuffer, types: &TypeTable, ty: TypeId)
    requires known { ty.0 < length types.now }
    requires room { length line.old + 64 ≤ 1024 }
    ensures text { line.new ≡ line.old ++ spaced (map field_word (type_row types.now ty)) }
    ensures short { length line.new ≤ length line.old + 64 }
{
    for field in 0..types.field_count(ty) {
        let Some(kind) = types.kind_of(ty, field) else {
            unreachable!()
        };
        line.push_word(kind_word(kind));
    }
}

/// Adds the line of a type.
pub fn push_type(line: &mut LineBuffer, names: &Names, types: &TypeTable, ty: TypeId)
    requires named { ty.0 < length names.now.types }
    requires known { ty.0 < length types.now }
    requires empty { line.old ≡ [] }
    ensures text { line.new ≡ join_with_byte 32 (type_words (type_name names.now ty) (type_row types.now ty)) }
    ensures short { length line.new ≤ 200 }
{
    line.push_text(b"type");
    line.push_word(names.type_name(ty));
    push_kinds(line, types, ty);
}

/// Adds the parent of a limit and how it is charged; the root has none.
fn push_place(line: &mut LineBuffer, names: &Names, row: &LimitRow)
    requires known { IfSome row.now.parent (λ q. q.0 < length names.now.limits) }
    requires room { length line.old + 50 ≤ 1024 }
    ensures text { line.new ≡ line.old ++ spaced (place_words names.now row.now.parent row.now.hard) }
    ensures short { length line.new ≤ length line.old + 50 }
{
    if let Some(parent) = row.parent {
        line.push_word(names.limit_name(parent));
        if row.hard {
            line.push_word(b"hard");
        } else {
            line.push_word(b"soft");
        }
    }
}

/// Adds the line of a limit.
pub fn push_limit(line: &mut LineBuffer, names: &Names, limit: LimitId, row: &LimitRow)
    requires named { limit.0 < length names.now.limits }
    requires known { IfSome row.now.parent (λ q. q.0 < length names.now.limits) }
    requires empty { line.old ≡ [] }
    ensures text { line.new ≡ join_with_byte 32 (limit_words names.now (limit_name names.now limit) row.now) }
    ensures short { length line.new ≤ 200 }
{
    line.push_text(b"limit");
    line.push_word(names.limit_name(limit));
    push_place(line, names, row);
    line.push_number(row.max);
}

/// Adds the line of a process.
pub fn push_proc(line: &mut LineBuffer, names: &Names, pid: Pid, limit: LimitId)
    requires named { pid.0 < length names.now.procs }
    requires known { limit.0 < length names.now.limits }
    requires empty { line.old ≡ [] }
    ensures text { line.new ≡ join_with_byte 32 (proc_words names.now (proc_name names.now pid) limit) }
    ensures short { length line.new ≤ 200 }
{
    line.push_text(b"proc");
    line.push_words(names.proc_name(pid), names.limit_name(limit));
}

/// Adds the line of a shared heap.
pub fn push_shared(line: &mut LineBuffer, names: &Names, shared: SharedId)
    requires named { shared.0 < length names.now.shared }
    requires empty { line.old ≡ [] }
    ensures text { line.new ≡ join_with_byte 32 (shared_words (shared_name names.now shared)) }
    ensures short { length line.new ≤ 200 }
{
    line.push_text(b"shared");
    line.push_word(names.shared_name(shared));
}

/// Adds the line of an operation.
pub fn push_operation(line: &mut LineBuffer, names: &Names, pid: Pid, op: &Op)
    requires named { pid.0 < length names.now.procs }
    requires known { IsNamedOp names.now op.now }
    requires empty { line.old ≡ [] }
    ensures text { line.new ≡ join_with_byte 32 (line_words names.now pid.0 op.now) }
    ensures short { length line.new ≤ 200 }
{
    line.push_text(names.proc_name(pid));
    push_op(line, names, op);
}
