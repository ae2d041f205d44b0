//! Which stores into an object of another heap are refused.
ghost use Rattle.std.specs.Prelude.{◌≡◌, ℕ, None, Some, IfErr, IfOk, IsTrue, option_map};
ghost use Rattle.k_commit.specs.k_cell.Looks.{field_among};
ghost use Rattle.k_pair.specs.Faults.{CanJudge, HasPhase, store_faults_of};
ghost use Rattle.k_pair.specs.Remembered.{TellsOwner, owners_of};
ghost use Rattle.k_laws.specs.Answers.{is_frozen_in, passes_barrier_in};
ghost use Rattle.k_types.specs.Agree.{book_shown_by};
ghost use Rattle.k_types.specs.Names.{kind_of, name_of};
ghost use Rattle.k_types.specs.Replies.{first_fault, is_ref};
ghost use Rattle.k_types.specs.declared.names.Heap.{Heap as Home};

use crate::faults::read_reference;
use crate::names::StepName;
use crate::other::OtherCell;
use crate::phases::{is_frozen, is_same};
use k_commit::Book;
use k_types::{Fault, Heap, Kind, Link, legal};

fn kind_of(heap: Heap) -> Kind
    ensures { result ≡ kind_of heap }
{
    match heap {
        Heap::Kernel => Kind::Kernel,
        Heap::User(_) => Kind::User,
        Heap::Shared(_) => Kind::Shared,
    }
}

/// Whether the heap is a shared one that is frozen.
fn is_frozen_heap(book: &Book, heap: Heap) -> bool
    requires { HasPhase heap book.now }
    ensures { result ≡ is_frozen_in (book_shown_by book.now.value) heap }
{
    match heap {
        Heap::Kernel => false,
        Heap::User(_) => false,
        Heap::Shared(id) => is_frozen(book.phase_of(id)),
    }
}

/// Whether the barrier lets an object of the heap refer to that.
fn passes(book: &Book, heap: Heap, value: Option<Link>) -> bool
    ghost own: { ℕ → Home }
    requires { TellsOwner own book.now (option_map name_of value) }
    ensures { result ≡ passes_barrier_in own heap (option_map name_of value) }
{
    let Some(target) = value else {
        return true;
    };
    let owner = book.owner(target.seg);
    legal(kind_of(heap), kind_of(owner), is_same(heap, owner))
}

/// Whether the reference may be stored into the field of the object, which the process may reach. The error is the first fault:
/// `NoField`, `WrongKind`, `Frozen` where the heap is a shared one, or `Segv`. Constant time.
pub(crate) fn may_store<O: OtherCell, S: StepName>(
    other: &O,
    book: &Book,
    at: Link,
    field: u32,
    value: Option<Link>,
) -> Result<(), Fault>
    requires { CanJudge (owners_of S.before) (O.seen other.now) book.now (option_map name_of value) }
    ensures fine { IfOk result (λ _. first_fault (store_faults_of (owners_of S.before) (O.seen other.now) book.now (name_of at) field (option_map name_of value)) ≡ None) }
    ensures kind { IfOk result (λ _. IsTrue (is_ref (field_among (O.seen other.now).held.value.objects (name_of at) field))) }
    ensures fault { IfErr result (λ fault. first_fault (store_faults_of (owners_of S.before) (O.seen other.now) book.now (name_of at) field (option_map name_of value)) ≡ Some fault) }
{
    read_reference(other.field_count(at), field, other.field(at, field))?;
    if is_frozen_heap(book, other.heap()) {
        return Err(Fault::Frozen);
    }
    if !passes(book, other.heap(), value) {
        return Err(Fault::Segv);
    }
    Ok(())
}
