//! The lines of work.
ghost use Rattle.std.specs.Prelude.{◌≡◌, ◌<◌, ◌≤◌, ◌∷◌, [], length, map};
ghost use Rattle.k_io.specs.Writing.{Writes};
ghost use Rattle.k_types.specs.Numbers.{numbers_below};
ghost use Rattle.k_words.specs.Words.{text_of};
ghost use Rattle.k_work.specs.Crediting.{AreSmall};
ghost use Rattle.k_work.specs.Lines.{process_line, row_words, work_text};

use crate::rows::{WorkRow, WorkTable};
use k_io::{Sink, WriteFailed};
use k_trace::Names;
use k_types::Pid;
use k_words::LineBuffer;

/// Writes a line of one word, from an empty buffer, and leaves it empty.
///
/// `WriteFailed` comes where the sink does not take it.
pub fn put_word<K: Sink>(out: &mut K, line: &mut LineBuffer, word: &[u8]) -> Result<(), WriteFailed>
    requires empty { line.old ≡ [] }
    requires room { length word.now < 1024 }
    ensures written { Writes (K.Holds out.old) (K.Holds out.new) (K.faults out.old) (K.faults out.new) result (text_of ((word.now ∷ []) ∷ [])) }
    ensures empty { line.new ≡ [] }
{
    line.push_text(word);
    line.write_to(out)
}

/// Writes the line of a word and a row.
fn put_row<K: Sink>(
    out: &mut K,
    line: &mut LineBuffer,
    word: &[u8],
    row: WorkRow,
) -> Result<(), WriteFailed>
    requires empty { line.old ≡ [] }
    requires room { length word.now < 100 }
    ensures written { Writes (K.Holds out.old) (K.Holds out.new) (K.faults out.old) (K.faults out.new) result (text_of ((word.now ∷ row_words row) ∷ [])) }
    ensures empty { line.new ≡ [] }
{
    line.push_text(word);
    line.push_number(u64::from(row.collections));
    line.push_number(row.work);
    line.write_to(out)
}

/// Writes the line of a process.
fn put_process<K: Sink>(
    out: &mut K,
    line: &mut LineBuffer,
    names: &Names,
    table: &WorkTable,
    pid: Pid,
) -> Result<(), WriteFailed>
    requires empty { line.old ≡ [] }
    requires named { length table.now.procs ≤ length names.now.procs }
    requires process { pid.0 < length table.now.procs }
    ensures written { Writes (K.Holds out.old) (K.Holds out.new) (K.faults out.old) (K.faults out.new) result (text_of (process_line names.now table.now pid.0 ∷ [])) }
    ensures empty { line.new ≡ [] }
{
    let row = table.row(pid.0);
    line.push_text(b"process");
    line.push_word(names.proc_name(pid));
    line.push_number(u64::from(row.collections));
    line.push_number(row.work);
    line.write_to(out)
}

/// Writes the lines of the processes.
fn put_processes<K: Sink>(
    out: &mut K,
    line: &mut LineBuffer,
    names: &Names,
    table: &WorkTable,
) -> Result<(), WriteFailed>
    requires empty { line.old ≡ [] }
    requires named { length table.now.procs ≤ length names.now.procs }
    requires few { length table.now.procs ≤ 64 }
    ensures written { Writes (K.Holds out.old) (K.Holds out.new) (K.faults out.old) (K.faults out.new) result (text_of (map (process_line names.now table.now) (numbers_below (length table.now.procs)))) }
    ensures empty { line.new ≡ [] }
{
    for pid in 0..table.processes() {
        put_process(out, line, names, table, Pid(pid))?;
    }
    Ok(())
}

/// Writes the lines of the table, each as one piece: `work`, one for each process, that of the closing, that of the sum, and `end`. It
/// takes no memory.
///
/// `WriteFailed` comes where a write failed; a front of the text was taken then.
pub fn write_work<K: Sink>(out: &mut K, names: &Names, table: &WorkTable) -> Result<(), WriteFailed>
    requires named { length table.now.procs ≤ length names.now.procs }
    requires few { length table.now.procs ≤ 64 }
    requires small { AreSmall table.now }
    ensures { Writes (K.Holds out.old) (K.Holds out.new) (K.faults out.old) (K.faults out.new) result (work_text names.now table.now) }
{
    let mut line = LineBuffer::new();
    put_word(out, &mut line, b"work")?;
    put_processes(out, &mut line, names, table)?;
    put_row(out, &mut line, b"closing", table.closing_row())?;
    put_row(out, &mut line, b"total", table.total())?;
    put_word(out, &mut line, b"end")
}
