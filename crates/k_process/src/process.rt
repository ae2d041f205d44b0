//! A process with its heap's cell.
ghost use Rattle.k_process.specs.BetweenSteps.{IsNextOf, ProcessStands};
ghost use Rattle.k_process.specs.Worlds.{WorldValue};

use crate::HeapCell;
use k_types::Op;

/// A process: its heap's cell, and all operations that the trace has for it.
#[derive(Drop)]
pub struct Process {
    pub cell: HeapCell,
    pub ops: Vec<Op>,
}

/// The process's next operation; none where it has ended or done all. Constant time.
pub fn next(process: &Process) -> Option<Op>
    ghost world: { WorldValue }
    requires { ProcessStands world process.now }
    ensures { IsNextOf world.trace process.now.cell result }
{
    if !process.cell.lives() {
        return None;
    }
    process.ops.get(process.cell.done() as usize).copied()
}
