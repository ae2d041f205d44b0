//! The lines before the operations, one loop a function.
ghost use Rattle.std.specs.Prelude.{◌≡◌, ℕ, ◌<◌, ◌≤◌, ◌++◌, ◌∷◌, [], length, map, decimal, codes, slice_index_or, OnOk};
ghost use Rattle.k_types.specs.Bounds.{most_types, most_limits, most_processes, most_shared_heaps};
ghost use Rattle.k_types.specs.TraceRules.{IsTree};
ghost use Rattle.k_words.specs.Words.{text_of};
ghost use Rattle.k_trace.specs.Spelling.{declarations, type_words, limit_words, proc_words, shared_words};

use crate::lines::{push_limit, push_proc, push_shared, push_type};
use k_trace::Names;
use k_types::{LimitId, LimitRow, NoMemory, Pid, Setup, SharedId, TypeId, TypeTable};
use k_words::LineBuffer;

/// Adds the lines of the version and of the kernel.
pub fn add_heading(text: &mut Vec<u8>, setup: &Setup) -> Result<(), NoMemory>
    ensures { OnOk result (text.new.items ≡ text.old.items
        ++ text_of ((codes "kaffe" ∷ decimal setup.now.version ∷ []) ∷ (codes "kernel" ∷ decimal setup.now.ceiling ∷ decimal setup.now.dir_fields ∷ []) ∷ [])) }
{
    let mut line = LineBuffer::new();
    line.push_text(b"kaffe");
    line.push_number(u64::from(setup.version));
    line.append_to(text)?;
    line.push_text(b"kernel");
    line.push_number(setup.ceiling);
    line.push_number(u64::from(setup.dir_fields));
    line.append_to(text)
}

/// Adds the lines of the types.
pub fn add_types(text: &mut Vec<u8>, names: &Names, types: &TypeTable) -> Result<(), NoMemory>
    requires named { length names.now.types ≡ length types.now }
    requires few { length types.now ≤ most_types }
    ensures { OnOk result (text.new.items ≡ text.old.items ++ text_of (declarations type_words names.now.types types.now)) }
{
    let mut line = LineBuffer::new();
    for number in 0..types.len() {
        push_type(&mut line, names, types, TypeId(number as u32));
        line.append_to(text)?;
    }
    Ok(())
}

/// Adds the lines of the limits.
pub fn add_limits(text: &mut Vec<u8>, names: &Names, rows: &[LimitRow]) -> Result<(), NoMemory>
    requires named { length names.now.limits ≡ length rows.now }
    requires few { length rows.now ≤ most_limits }
    requires tree { IsTree rows.now }
    ensures { OnOk result (text.new.items ≡ text.old.items ++ text_of (declarations (limit_words names.now) names.now.limits rows.now)) }
{
    let mut line = LineBuffer::new();
    for (number, row) in rows.iter().enumerate() {
        push_limit(&mut line, names, LimitId(number as u32), row);
        line.append_to(text)?;
    }
    Ok(())
}

/// Adds the lines of the processes.
pub fn add_procs(text: &mut Vec<u8>, names: &Names, procs: &[LimitId]) -> Result<(), NoMemory>
    requires named { length names.now.procs ≡ length procs.now }
    requires few { length procs.now ≤ most_processes }
    requires limited { (p : ℕ) → p < length procs.now → (slice_index_or procs.now p (record { 0 = 0 })).0 < length names.now.limits }
    ensures { OnOk result (text.new.items ≡ text.old.items ++ text_of (declarations (proc_words names.now) names.now.procs procs.now)) }
{
    let mut line = LineBuffer::new();
    for (number, limit) in procs.iter().enumerate() {
        push_proc(&mut line, names, Pid(number as u32), *limit);
        line.append_to(text)?;
    }
    Ok(())
}

/// Adds the lines of the shared heaps.
pub fn add_shared(text: &mut Vec<u8>, names: &Names) -> Result<(), NoMemory>
    requires few { length names.now.shared ≤ most_shared_heaps }
    ensures { OnOk result (text.new.items ≡ text.old.items ++ text_of (map shared_words names.now.shared)) }
{
    let mut line = LineBuffer::new();
    for number in 0..names.shared_count() {
        push_shared(&mut line, names, SharedId(number as u32));
        line.append_to(text)?;
    }
    Ok(())
}
