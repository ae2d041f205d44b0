//! A register of the process, set with its pin.
ghost use Rattle.std.specs.Prelude.{◌≡◌, ◌+◌, ◌-◌, ◌<◌, ◌≤◌, ◌^◌, ℕ, IsFalse, None, Some, length, option_map};
ghost use Rattle.k_book.specs.Books.{book_pins};
ghost use Rattle.k_book.specs.Calls.{ChangesPins};
ghost use Rattle.k_book.specs.k_laws.BookChanges.{with_pin_moved};
ghost use Rattle.k_book.specs.k_entry.Entries.{AreEntries};
ghost use Rattle.k_types.specs.Agree.{book_shown_by};
ghost use Rattle.k_types.specs.Counted.{counted};
ghost use Rattle.k_types.specs.Names.{heap_eq, name_of};
ghost use Rattle.k_types.specs.Owners.{user};
ghost use Rattle.k_types.specs.declared.names.Heap.{Heap};
ghost use Rattle.k_types.specs.declared.names.Name.{Name as Named};
ghost use Rattle.k_commit.specs.Changed.{CanSetRegister, HasSetRegister};
ghost use Rattle.k_commit.specs.Met.{Before};
ghost use Rattle.k_commit.specs.Owning.{IsOwnBySegment};

use k_book::Book;
use k_heap::HeapCell;
use k_types::{Link, Pid, Reg};

/// A register of the process holds the reference from now on.
fn take_hold(book: &mut Book, pid: Pid, value: Option<Link>)
    ghost own: { ℕ → Heap }
    requires homes { (n : Named) → option_map name_of value ≡ Some n → n.seg.0 < length book.old.value.homes }
    requires mine { IsOwnBySegment own pid.0 (option_map name_of value) }
    requires small { pid.0 + 1 < 2 ^ 32 }
    requires room { AreEntries (book_pins book.old) → length book.old.value.pins < book.old.pin_room }
    requires counts { (n : Named) → counted book.old.value.pins n < 2 ^ 32 - 1 }
    ensures rest { ChangesPins book.old book.new }
    ensures moved { book_shown_by book.new.value ≡ with_pin_moved own pid.0 None (option_map name_of value) (book_shown_by book.old.value) }
    ensures more { (n : Named) → counted book.old.value.pins n ≤ counted book.new.value.pins n }
{
    if let Some(link) = value {
        if link.seg.0 != pid.0 + 1 {
            book.pin(link);
        }
    }
}

/// A register of the process no longer holds the reference.
fn let_go(book: &mut Book, pid: Pid, held: Option<Link>)
    ghost own: { ℕ → Heap }
    requires there { (n : Named) → option_map name_of held ≡ Some n → IsFalse (heap_eq (user pid.0) (own n.seg.0)) → 0 < counted book.old.value.pins n }
    requires mine { IsOwnBySegment own pid.0 (option_map name_of held) }
    requires small { pid.0 + 1 < 2 ^ 32 }
    ensures rest { ChangesPins book.old book.new }
    ensures moved { book_shown_by book.new.value ≡ with_pin_moved own pid.0 (option_map name_of held) None (book_shown_by book.old.value) }
{
    if let Some(link) = held {
        if link.seg.0 != pid.0 + 1 {
            book.unpin(link.name());
        }
    }
}

/// The register holds the value from now on, with its pin: that of the value is taken, and that of what the register held is let
/// go. An object of the process's own heap needs none. Constant time where the hash spreads the names.
pub fn set_register(cell: &mut HeapCell, book: &mut Book, r: Reg, value: Option<Link>)
    ghost before: { Before }
    requires { CanSetRegister before cell.old book.old r.0 (option_map name_of value) }
    ensures { HasSetRegister before cell.old cell.new book.old book.new r.0 (option_map name_of value) }
{
    let pid = cell.pid();
    let held = cell.reg(r);
    take_hold(book, pid, value);
    let_go(book, pid, held);
    cell.set_reg(r, value);
}
