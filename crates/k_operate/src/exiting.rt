//! The end of a process by its own operation.
ghost use Rattle.k_operate.specs.Adding.{AddsOperation, known_to};
ghost use Rattle.k_operate.specs.Collecting.{CanExitNow};
ghost use Rattle.k_operate.specs.Steps.{HasDoneWithKernel};
ghost use Rattle.k_process.specs.Worlds.{WorldValue};
ghost use Rattle.k_types.specs.declared.op.Op.TheVariants.{Exit};

use crate::known::{know_exits, know_kernel_exits};
use k_own::exit;
use k_process::{Book, KernelCell, Process};

/// Does the operation `exit`: the process ends, and the objects of its heap are the kernel's. The cost is in proportion to the exit
/// items of the heap and of the kernel and to the number of shared heaps, whatever the number of objects.
pub fn do_exit(process: &mut Process, kernel: &mut KernelCell, book: &mut Book)
    ghost world: { WorldValue }
    requires { CanExitNow world process.old kernel.old book.old }
    ensures done { HasDoneWithKernel world Exit process.old process.new kernel.new book.new }
    ensures events { AddsOperation world.trace process.old.cell.pid Exit (known_to process.old book.old) (known_to process.new book.new) }
{
    know_exits(&process.cell);
    know_kernel_exits(kernel);
    exit(&mut process.cell, kernel, book);
}
