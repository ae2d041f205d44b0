//! The cells beside the process's own that an operation touches.
ghost use Rattle.std.specs.Prelude.{◌≡◌, ◌∷◌, [], Some, if◌then◌else◌};
ghost use Rattle.k_laws.specs.PartUpdates.{held_in};
ghost use Rattle.k_commit.specs.k_agree.Shown.{idle_part};
ghost use Rattle.k_laws.specs.Touches.{access_cell_in, base_cell_in, ends_other_in, other_cells_in};
ghost use Rattle.k_own.specs.Reaching.{CanReach, CanReachEnd, CanReachOwner, CanReachThrough, cells_of};
ghost use Rattle.k_types.specs.Agree.{book_shown_by};
ghost use Rattle.k_types.specs.Trace.{Trace};
ghost use Rattle.k_types.specs.declared.names.Heap.TheVariants.{Kernel, User};

use crate::reached::Reach;
use k_commit::{Book, HeapCell, is_above};
use k_types::{Heap, Op, Pid, Reg};

/// The cell that an access to an object of that heap touches beside the process's own.
fn reach_owner(book: &Book, pid: Pid, owner: Heap) -> Reach
    requires { CanReachOwner book.now pid.0 owner }
    ensures { cells_of result ≡ base_cell_in (book_shown_by book.now.value) pid.0 owner }
{
    match owner {
        Heap::Kernel => Reach::Kernel,
        Heap::User(_) => Reach::Own,
        Heap::Shared(shared) => {
            if book.shares(pid, shared) {
                Reach::Shared(shared)
            } else {
                Reach::Own
            }
        }
    }
}

/// The cell that an access through the register touches beside the process's own.
fn reach_through(cell: &HeapCell, book: &Book, base: Reg) -> Reach
    ghost trace: { Trace }
    requires { CanReachThrough trace cell.now book.now base.0 }
    ensures { cells_of result ≡ access_cell_in trace (book_shown_by book.now.value) cell.now.pid.0 (held_in cell.now.value.process base.0) }
{
    match cell.reg(base) {
        Some(link) => reach_owner(book, cell.pid(), book.owner(link.seg)),
        None => Reach::Own,
    }
}

/// The cells that a kill of the target touches: none where it is refused or the target has ended.
fn reach_end(book: &Book, pid: Pid, target: Pid) -> Reach
    ghost trace: { Trace }
    requires { CanReachEnd trace book.now pid.0 target.0 }
    ensures { cells_of result ≡ (if ends_other_in trace (book_shown_by book.now.value) pid.0 target.0 then User target ∷ Kernel ∷ [] else []) }
{
    if is_above(book, pid, target) && book.lives(target) {
        Reach::End(target)
    } else {
        Reach::Own
    }
}

/// The cells that the operation touches beside its process's own, as cell and book are now; a cell that has met the journal is
/// as the machine has it. While the process's cell is held the answer changes at most once: from `Own` to `Kernel`, where the
/// kernel takes over the object, with the shared heap that it absorbs or with the heap of another process that ends; or from `End`
/// to `Own`, where the target has ended (`reached_cells_change_at_most_once` of `k_laws`). Constant time, but that a kill passes
/// the limits above the target's.
#[tactic(auto, unfolding(k_laws::specs::Touches::other_cells_in))]
pub fn reach(cell: &HeapCell, book: &Book, op: &Op) -> Reach
    ghost trace: { Trace }
    requires { CanReach trace cell.now book.now op.now }
    ensures { cells_of result ≡ other_cells_in trace (book_shown_by book.now.value) (idle_part cell.now.value) cell.now.pid.0 op.now }
{
    match *op {
        Op::KNew { reg: _, ty: _ } => Reach::Kernel,
        Op::KCollect => Reach::Kernel,
        Op::Exit => Reach::Kernel,
        Op::SNew {
            reg: _,
            shared,
            ty: _,
        } => Reach::Shared(shared),
        Op::Share { shared } => Reach::Shared(shared),
        Op::Freeze { shared, root: _ } => Reach::Shared(shared),
        Op::Attach { reg: _, shared } => Reach::Shared(shared),
        Op::Store {
            base,
            field: _,
            value: _,
        } => reach_through(cell, book, base),
        Op::Load {
            reg: _,
            base,
            field: _,
        } => reach_through(cell, book, base),
        Op::Put {
            base,
            field: _,
            number: _,
        } => reach_through(cell, book, base),
        Op::Get { base, field: _ } => reach_through(cell, book, base),
        Op::New { reg: _, ty: _ } => Reach::Own,
        Op::Move { reg: _, from: _ } => Reach::Own,
        Op::Clear { reg: _ } => Reach::Own,
        Op::Dir { reg: _ } => Reach::Own,
        Op::Collect => Reach::Own,
        Op::Kill { target } => reach_end(book, cell.pid(), target),
        Op::Resize { limit: _, max: _ } => Reach::Own,
    }
}
