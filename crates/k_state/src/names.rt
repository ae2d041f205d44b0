//! Tests of names and heaps.
ghost use Rattle.std.specs.Prelude.{◌≡◌};
ghost use Rattle.k_types.specs.Names.{heap_eq, kind_of, name_eq, name_lt};

use k_types::{Heap, Kind, Name};

/// Whether the two names are one.
pub fn is_same_name(a: Name, b: Name) -> bool
    ensures { result ≡ name_eq a b }
{
    a.seg.0 == b.seg.0 && a.serial.0 == b.serial.0
}

/// Whether the first name comes before the second, by segment and then by serial.
pub fn is_before(a: Name, b: Name) -> bool
    ensures { result ≡ name_lt a b }
{
    a.seg.0 < b.seg.0 || (a.seg.0 == b.seg.0 && a.serial.0 < b.serial.0)
}

/// Whether the two heaps are one.
pub fn is_same_heap(a: Heap, b: Heap) -> bool
    ensures { result ≡ heap_eq a b }
{
    match (a, b) {
        (Heap::Kernel, Heap::Kernel) => true,
        (Heap::User(p), Heap::User(q)) => p.0 == q.0,
        (Heap::Shared(s), Heap::Shared(t)) => s.0 == t.0,
        _ => false,
    }
}

/// The kind of the heap, by which the write barrier judges.
pub fn kind_of(heap: Heap) -> Kind
    ensures { result ≡ kind_of heap }
{
    match heap {
        Heap::Kernel => Kind::Kernel,
        Heap::User(_) => Kind::User,
        Heap::Shared(_) => Kind::Shared,
    }
}
