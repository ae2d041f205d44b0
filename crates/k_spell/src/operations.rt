//! The lines of the operations, in the order of the file.
ghost use Rattle.std.specs.Prelude.{◌≡◌, ◌<◌, ◌++◌, [], length, drop, OnOk};
ghost use Rattle.std.specs.List.{AllByRecursion};
ghost use Rattle.k_types.specs.Trace.{operations_of};
ghost use Rattle.k_words.specs.Words.{text_of};
ghost use Rattle.k_trace.specs.Meaning.{meaning_of};
ghost use Rattle.k_trace.specs.NamedOps.{IsNamedOp};
ghost use Rattle.k_trace.specs.Rules.{IsTrace};
ghost use Rattle.k_trace.specs.Spelling.{first_line, operation_lines};

use crate::lines::push_operation;
use k_trace::{Names, Trace};
use k_types::{MOST_PROCESSES, NoMemory, Op, Pid};
use k_words::LineBuffer;

/// Adds the line of the operation at that place among those of a process.
fn add_operation(
    text: &mut Vec<u8>,
    line: &mut LineBuffer,
    names: &Names,
    pid: Pid,
    ops: &[Op],
    at: usize,
) -> Result<(), NoMemory>
    requires named { pid.0 < length names.now.procs }
    requires known { AllByRecursion (IsNamedOp names.now) ops.now }
    requires empty { line.old ≡ [] }
    ensures added { OnOk result (text.new.items ≡ text.old.items ++ text_of (first_line names.now pid.0 (drop at ops.now))) }
    ensures empty { line.new ≡ [] }
{
    let Some(op) = ops.get(at) else {
        return Ok(());
    };
    push_operation(line, names, pid, op);
    line.append_to(text)
}

/// Adds the lines of the operations.
pub fn add_operations(text: &mut Vec<u8>, trace: &Trace) -> Result<(), NoMemory>
    requires { IsTrace (meaning_of trace.now) }
    ensures { OnOk result (text.new.items ≡ text.old.items
        ++ text_of (operation_lines trace.now.names (operations_of (meaning_of trace.now).trace) (meaning_of trace.now).trace.order)) }
{
    let mut line = LineBuffer::new();
    let mut done = [0usize; MOST_PROCESSES];
    for pid in &trace.order {
        let number = pid.0 as usize;
        add_operation(
            text,
            &mut line,
            &trace.names,
            *pid,
            &trace.ops[number],
            done[number],
        )?;
        done[number] += 1;
    }
    Ok(())
}
