//! The pins of a process's registers.
ghost use Rattle.std.specs.Prelude.{◌≡◌, ◌+◌, ◌==◌, ◌<◌, ◌≤◌, ◌^◌, ◌∷◌, [], IsFalse, Some, length, option_map};
ghost use Rattle.k_types.specs.Cells.{pins_of};
ghost use Rattle.k_types.specs.Counted.{counted};
ghost use Rattle.k_types.specs.Names.{name_of};
ghost use Rattle.k_types.specs.declared.names.Name.{Name as Named};
ghost use Rattle.k_commit.specs.k_book.Calls.{ChangesPins};
ghost use Rattle.k_laws.specs.BookChanges.{registers_in};
ghost use Rattle.k_commit.specs.k_heap.Heaps.{own_segment};
ghost use Rattle.k_own.specs.Registers.{ArePinned, HasLetGo};

use k_commit::{Book, HeapCell};
use k_types::{Link, REGISTERS, Reg, Seg};

/// Lets the pin of each register of the process go whose object lies outside its segment. The cost is that of sixteen registers.
pub(crate) fn unpin_registers(cell: &HeapCell, book: &mut Book)
    requires small { cell.now.pid.0 + 1 < 2 ^ 32 }
    requires few { length (registers_in cell.now.value.process) ≤ 16 }
    requires pinned { ArePinned (own_segment cell.now.pid) (registers_in cell.now.value.process) book.old.value }
    ensures gone { HasLetGo (own_segment cell.now.pid) (registers_in cell.now.value.process) book.old.value book.new.value }
    ensures rest { ChangesPins book.old book.new }
{
    let own = Seg(cell.pid().0 + 1);
    for r in 0..REGISTERS {
        unpin(book, own, cell.reg(Reg(r)));
    }
}

/// Lets the pin of what the register holds go, if that lies outside the segment.
fn unpin(book: &mut Book, own: Seg, held: Option<Link>)
    requires { ArePinned own.0 (option_map name_of held ∷ []) book.old.value }
    ensures gone { HasLetGo own.0 (option_map name_of held ∷ []) book.old.value book.new.value }
    ensures rest { ChangesPins book.old book.new }
{
    if let Some(link) = held {
        if link.seg.0 != own.0 {
            book.unpin(link.name());
        }
    }
}
