//! The roots of a heap, by the parts of its cell and of the book.
ghost use Rattle.std.specs.Prelude.{◌≡◌};
ghost use Rattle.k_laws.specs.Roots.{roots_in};
ghost use Rattle.k_types.specs.Cells.{book_part, part};
ghost use Rattle.k_types.specs.Reach.{roots_of};
ghost use Rattle.k_types.specs.Sound.{IsSound};
ghost use Rattle.k_types.specs.State.{State};
ghost use Rattle.k_types.specs.Trace.{Trace};
ghost use Rattle.k_types.specs.declared.names.Heap.{Heap};

/// A collection begins from its own heap's cell and the book: its roots are those objects of the cell that the book's entries or
/// pins tell to be entered, or that the heap's process holds, and for the kernel the directory.
pub fn a_collection_begins_from_its_cell_and_the_book()
    ensures { (trace : Trace) (st : State) (h : Heap) → IsSound trace st →
        roots_of trace st h ≡ roots_in h (book_part trace st) (part trace st h) }
{}
