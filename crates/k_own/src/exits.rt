//! Exit items that go, or become the kernel's, where a heap does.
ghost use Rattle.std.specs.Prelude.{◌≡◌, ◌+◌, ◌<◌, ◌≤◌, ◌&&◌, ◌||◌, ◌∷◌, [], IsTrue, length};
ghost use Rattle.k_types.specs.Counted.{counted};
ghost use Rattle.k_types.specs.Names.{name_among, name_eq};
ghost use Rattle.k_types.specs.declared.names.CellPhase.TheVariants.{Idle};
ghost use Rattle.k_types.specs.declared.names.Name.{Name as Named};
ghost use Rattle.k_agree.specs.Ending.{HasLeft};
ghost use Rattle.k_commit.specs.k_book.Calls.{ChangesEntries};
ghost use Rattle.k_own.specs.Exits.{AreEntered, EntriesFollow, HasCut, HasNoExits, HasPassed, into_segment, is_passed as is_passed_item};

use k_commit::{Book, HeapCell, KernelCell, SharedCell};
use k_types::{Heap, Name, Seg};

/// Leaves each exit item of the shared heap, which has none afterwards. The cost is in proportion to their number.
pub(crate) fn leave_exits(shared: &mut SharedCell, book: &mut Book)
    requires { AreEntered shared.old.value.exits book.old.value }
    ensures cell { shared.new ≡ record shared.old { value = shared.new.value } }
    ensures none { HasNoExits shared.old.value shared.new.value }
    ensures left { HasLeft shared.old.value.exits book.old.value book.new.value }
    ensures rest { ChangesEntries book.old book.new }
{
    while let Some(target) = shared.take_first() {
        book.leave(target);
    }
}

/// Leaves the kernel's exit items into the segment, of which it has none afterwards. The cost is in proportion to their number.
pub(crate) fn cut_exits(kernel: &mut KernelCell, book: &mut Book, seg: Seg)
    requires { AreEntered (into_segment seg.0 kernel.old.value.exits) book.old.value }
    ensures cell { kernel.new ≡ record kernel.old { value = kernel.new.value } }
    ensures cut { HasCut seg.0 kernel.old.value kernel.new.value }
    ensures left { HasLeft (into_segment seg.0 kernel.old.value.exits) book.old.value book.new.value }
    ensures rest { ChangesEntries book.old book.new }
{
    while let Some(target) = kernel.take_into(seg) {
        book.leave(target);
    }
}

/// Lets each exit item of the process's heap go, which has none afterwards: one into a shared heap becomes the kernel's where the
/// kernel has none to that object, and any other is left. The cost is in proportion to their number.
pub(crate) fn pass_exits(cell: &mut HeapCell, kernel: &mut KernelCell, book: &mut Book)
    requires idle { kernel.old.value.collection ≡ Idle }
    requires entered { AreEntered cell.old.value.exits book.old.value }
    requires homes { (n : Named) → IsTrue (name_among n cell.old.value.exits) → n.seg.0 < length book.old.value.homes }
    requires room { length cell.old.value.exits + length kernel.old.value.exits ≤ kernel.old.exit_room }
    ensures cell { cell.new ≡ record cell.old { value = cell.new.value } }
    ensures none { HasNoExits cell.old.value cell.new.value }
    ensures kernel { kernel.new ≡ record kernel.old { value = record kernel.old.value { exits = kernel.new.value.exits } } }
    ensures passed { HasPassed book.old.value.homes cell.old.value.exits kernel.old.value.exits kernel.new.value.exits }
    ensures entries { EntriesFollow cell.old.value.exits kernel.old.value.exits kernel.new.value.exits book.old.value book.new.value }
    ensures rest { ChangesEntries book.old book.new }
{
    while let Some(target) = cell.take_first() {
        pass_exit(kernel, book, target);
    }
}

/// Passes on one exit item of a heap. Where it becomes the kernel's the object stays entered as often as before.
fn pass_exit(kernel: &mut KernelCell, book: &mut Book, target: Name)
    requires idle { kernel.old.value.collection ≡ Idle }
    requires entered { 0 < counted book.old.value.entries target }
    requires home { target.seg.0 < length book.old.value.homes }
    requires room { length kernel.old.value.exits < kernel.old.exit_room }
    ensures kernel { kernel.new ≡ record kernel.old { value = record kernel.old.value { exits = kernel.new.value.exits } } }
    ensures more { length kernel.new.value.exits ≤ length kernel.old.value.exits + 1 }
    ensures passed { (n : Named) → name_among n kernel.new.value.exits ≡ (name_among n kernel.old.value.exits || (name_eq target n && is_passed_item book.old.value.homes target)) }
    ensures entries { EntriesFollow (target ∷ []) kernel.old.value.exits kernel.new.value.exits book.old.value book.new.value }
    ensures rest { ChangesEntries book.old book.new }
{
    if !is_passed(book, target) {
        book.leave(target);
        return;
    }
    if kernel.add_exit(target.link()) {
        return;
    }
    book.leave(target);
}

/// Whether an exit item to the object becomes the kernel's.
fn is_passed(book: &Book, target: Name) -> bool
    requires { target.seg.0 < length book.now.value.homes }
    ensures { result ≡ is_passed_item book.now.value.homes target }
{
    match book.owner(target.seg) {
        Heap::Shared(_) => true,
        Heap::Kernel | Heap::User(_) => false,
    }
}
