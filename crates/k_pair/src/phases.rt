//! Tests of the phase of a shared heap, and of the owner of an object.
ghost use Rattle.std.specs.Prelude.{◌≡◌, ◌<◌, MatchOption, IsFalse, length};
ghost use Rattle.k_entry.specs.Entries.{home_of};
ghost use Rattle.k_types.specs.Names.{heap_eq};
ghost use Rattle.k_types.specs.Replies.{is_frozen, is_populating, is_unmade};
ghost use Rattle.k_types.specs.declared.names.Heap.TheVariants.{Shared};
ghost use Rattle.k_types.specs.declared.names.Phase.TheVariants.{Frozen};

use k_commit::Book;
use k_types::{Heap, Name, Phase, Pid, Seg, SharedId};

/// Whether nobody has made the heap yet.
pub(crate) fn is_unmade(phase: Phase) -> bool
    ensures { result ≡ is_unmade phase }
{
    match phase {
        Phase::Unmade => true,
        Phase::Populating(_) => false,
        Phase::Frozen(_) => false,
        Phase::Absorbed => false,
    }
}

/// Whether the process populates the heap.
pub(crate) fn is_populating(phase: Phase, pid: Pid) -> bool
    ensures { result ≡ is_populating phase pid.0 }
{
    match phase {
        Phase::Unmade => false,
        Phase::Populating(maker) => maker.0 == pid.0,
        Phase::Frozen(_) => false,
        Phase::Absorbed => false,
    }
}

/// Whether the heap is frozen.
pub(crate) fn is_frozen(phase: Phase) -> bool
    ensures { result ≡ is_frozen phase }
{
    match phase {
        Phase::Unmade => false,
        Phase::Populating(_) => false,
        Phase::Frozen(_) => true,
        Phase::Absorbed => false,
    }
}

/// The root of the heap, where it is frozen.
pub(crate) fn frozen_root(phase: Phase) -> Option<Name>
    ensures { MatchOption result (IsFalse (is_frozen phase)) (λ root. phase ≡ Frozen root) }
{
    match phase {
        Phase::Unmade => None,
        Phase::Populating(_) => None,
        Phase::Frozen(root) => Some(root),
        Phase::Absorbed => None,
    }
}

/// Whether the two are one heap.
pub(crate) fn is_same(one: Heap, other: Heap) -> bool
    ensures { result ≡ heap_eq one other }
{
    match (one, other) {
        (Heap::Kernel, Heap::Kernel) => true,
        (Heap::User(pid), Heap::User(target)) => pid.0 == target.0,
        (Heap::Shared(id), Heap::Shared(shared)) => id.0 == shared.0,
        _ => false,
    }
}

/// Whether the shared heap owns the segment.
pub(crate) fn is_owned_by(book: &Book, seg: Seg, id: SharedId) -> bool
    requires { seg.0 < length book.now.value.homes }
    ensures { result ≡ heap_eq (home_of book.now.value.homes seg.0) (Shared id) }
{
    is_same(book.owner(seg), Heap::Shared(id))
}
