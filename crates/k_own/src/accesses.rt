//! Accesses to fields: stores and loads of references that leave the process's heap, and accesses that are refused for the owner of
//! the object.
ghost use Rattle.std.specs.Prelude.{◌≡◌, ◌<◌, ◌+◌, ◌-◌, ◌==◌, ◌^◌, false, not, IsTrue, Some, is_some, length, option_map};
ghost use Rattle.k_commit.specs.k_cell.Changes.{with_exit_item, with_field};
ghost use Rattle.k_commit.specs.k_cell.Looks.{field_among};
ghost use Rattle.k_laws.specs.BookChanges.{with_entry};
ghost use Rattle.k_commit.specs.Met.{Before};
ghost use Rattle.k_commit.specs.Stepped.{HasStepped};
ghost use Rattle.k_laws.specs.PartUpdates.{held_in};
ghost use Rattle.k_own.specs.Elsewhere.{IsAway, fault_of_owner};
ghost use Rattle.k_own.specs.Own.{IsDue};
ghost use Rattle.k_space.specs.Objects.{content_of};
ghost use Rattle.k_types.specs.Barrier.{legal_store};
ghost use Rattle.k_types.specs.Agree.{book_shown_by};
ghost use Rattle.k_types.specs.Counted.{counted};
ghost use Rattle.k_types.specs.Names.{kind_of, name_among, name_of};
ghost use Rattle.k_types.specs.Replies.{is_ref, reference};
ghost use Rattle.k_types.specs.State.{Refers};
ghost use Rattle.k_types.specs.declared.names.CellPhase.TheVariants.{Idle};
ghost use Rattle.k_types.specs.declared.names.Kind.TheVariants.{User};
ghost use Rattle.k_types.specs.declared.op.Op.TheVariants.{Load, Store};

use k_commit::{Book, HeapCell, commit_heap, set_register};
use k_space::Stored;
use k_types::{Event, Fault, Heap, Link, Name, Op, Pid, Reg, Reply, Seg};

/// The reference that the register holds.
fn link_in(cell: &HeapCell, r: Reg) -> Link
    requires register { r.0 < 16 }
    requires there { IsTrue (is_some (held_in cell.now.value.process r.0)) }
    ensures { held_in cell.now.value.process r.0 ≡ Some (name_of result) }
{
    let Some(link) = cell.reg(r) else {
        unreachable!()
    };
    link
}

/// Whether the segment is the one with which the process's heap begins.
fn is_own(pid: Pid, seg: Seg) -> bool
    ensures { result ≡ (seg.0 == pid.0 + 1) }
{
    u64::from(seg.0) == u64::from(pid.0) + 1
}

/// The name of the object to which the reference leads.
fn named(value: Option<Link>) -> Option<Name>
    ensures { result ≡ option_map name_of value }
{
    match value {
        Some(link) => Some(link.name()),
        None => None,
    }
}

/// The reference that a field holds; none where it holds a number.
fn reference_in(stored: Stored) -> Option<Link>
    ensures { option_map name_of result ≡ reference (content_of stored) }
{
    match stored {
        Stored::Null => None,
        Stored::Refers(target) => Some(target.link()),
        Stored::Holds(_) => None,
    }
}

/// The fault of an access to an object of that heap, of which no cell is touched: another living process's, or a shared heap that
/// the process does not share.
fn fault_of(owner: Heap) -> Fault
    ensures { result ≡ fault_of_owner owner }
{
    match owner {
        Heap::Kernel => Fault::Foreign,
        Heap::User(_) => Fault::Foreign,
        Heap::Shared(shared) => Fault::NotSharer(shared),
    }
}

/// An access to an object that is not the process's own. `put` and `get` of the process's own objects are done inside the heap.
pub(crate) fn refuse(cell: &mut HeapCell, book: &mut Book, op: Op, base: Reg) -> Event
    ghost before: { Before }
    requires { IsAway before cell.old book.old op base }
    ensures { HasStepped before.trace op before.cell cell.new before.book book.new result }
{
    let at = link_in(cell, base);
    let fault = fault_of(book.owner(at.seg));
    commit_heap(cell, book, op, Reply::Refused(fault))
}

/// Writes the reference into the field of the process's object, and adds the exit item and, where that is new, the entry.
fn cross(cell: &mut HeapCell, book: &mut Book, at: Link, field: u32, target: Link)
    requires idle { cell.old.value.collection ≡ Idle }
    requires kind { IsTrue (is_ref (field_among cell.old.value.objects (name_of at) field)) }
    requires exits { length cell.old.value.exits < cell.old.exit_room }
    requires home { target.seg.0 < length book.old.value.homes }
    requires entries { length book.old.value.entries < book.old.entry_room }
    requires small { counted book.old.value.entries (name_of target) < 2 ^ 32 - 1 }
    ensures cell { cell.new ≡ record cell.old { value = with_field (name_of at) field (Refers (Some (name_of target))) (with_exit_item (name_of target) cell.old.value) } }
    ensures book { book.new ≡ record book.old { value = record book.old.value { entries = book.new.value.entries } } }
    ensures entered { book_shown_by book.new.value ≡ with_entry (not (name_among (name_of target) cell.old.value.exits)) (name_of target) (book_shown_by book.old.value) }
{
    if cell.add_exit(target) {
        book.enter(target);
    }
    cell.write_ref(at, field, Some(target));
}

/// Whether the write barrier lets an object of a process refer to one of another heap of that kind.
fn passes_barrier(owner: Heap) -> bool
    ensures { result ≡ legal_store User (kind_of owner) false }
{
    match owner {
        Heap::Kernel => true,
        Heap::User(_) => false,
        Heap::Shared(_) => true,
    }
}

/// `store` of a reference that leads out of the process's heap, or into an object that is not the process's own.
pub(crate) fn store(
    cell: &mut HeapCell,
    book: &mut Book,
    base: Reg,
    field: u32,
    value: Reg,
) -> Event
    ghost before: { Before }
    requires { IsDue before cell.old book.old (Store base field value) }
    ensures { HasStepped before.trace (Store base field value) before.cell cell.new before.book book.new result }
{
    let op = Op::Store { base, field, value };
    let at = link_in(cell, base);
    if !is_own(cell.pid(), at.seg) {
        return refuse(cell, book, op, base);
    }
    let target = link_in(cell, value);
    if !passes_barrier(book.owner(target.seg)) {
        return commit_heap(cell, book, op, Reply::Refused(Fault::Segv));
    }
    cross(cell, book, at, field, target);
    commit_heap(cell, book, op, Reply::Done)
}

/// `load` of a reference that leads out of the process's heap, into a register that holds one, or from an object that is not the
/// process's own.
pub(crate) fn load(cell: &mut HeapCell, book: &mut Book, reg: Reg, base: Reg, field: u32) -> Event
    ghost before: { Before }
    requires { IsDue before cell.old book.old (Load reg base field) }
    ensures { HasStepped before.trace (Load reg base field) before.cell cell.new before.book book.new result }
{
    let op = Op::Load { reg, base, field };
    let at = link_in(cell, base);
    if !is_own(cell.pid(), at.seg) {
        return refuse(cell, book, op, base);
    }
    let value = reference_in(cell.field(at, field));
    set_register(cell, book, reg, value);
    commit_heap(cell, book, op, Reply::Loaded(named(value)))
}
