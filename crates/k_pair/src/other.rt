//! The cell that an operation touches beside the process's own: the kernel's, or that of a shared heap.
use k_commit::{
    Book, HeapCell, KernelCell, SharedCell, append_heap_and_kernel, append_heap_and_shared,
};
use k_space::Stored;
use k_types::{Event, Heap, Link};

/// A cell beside the process's own, whatever heap it is of. Each call takes constant time, an exit item's where the hash spreads the
/// names, and none takes memory.
pub(crate) trait OtherCell {
    ghost use Rattle.std.specs.Prelude.{◌≡◌, ◌<◌, ◌⊎◌, not, [], ◌∷◌, IsFalse, IsTrue, length, option_map};
    ghost use Rattle.k_types.specs.Names.{name_among, name_of};
    ghost use Rattle.k_types.specs.Replies.{is_ref};
    ghost use Rattle.k_types.specs.State.{Holds, Refers};
    ghost use Rattle.k_types.specs.declared.names.CellPhase.TheVariants.{Idle};
    ghost use Rattle.k_space.specs.Objects.{content_of};
    ghost use Rattle.k_agree.specs.Committing.{journal_after, note_after};
    ghost use Rattle.k_commit.specs.k_cell.Changes.{with_exit_item, with_field};
    ghost use Rattle.k_commit.specs.k_cell.Looks.{field_among, field_count_among};
    ghost use Rattle.k_commit.specs.Others.{OtherValue, with_note, with_value};

    // What a step sees of the cell.
    ghost seen: { Self → OtherValue };

    /// The heap whose cell it is.
    fn heap(&self) -> Heap
        ensures { result ≡ (seen self.now).cell };

    /// The number of the object's fields; 0 where there is no such object.
    fn field_count(&self, at: Link) -> u32
        ensures { result ≡ field_count_among (seen self.now).held.value.objects (name_of at) };

    /// What the field of the object holds; the number 0 where there is no such field.
    fn field(&self, at: Link, field: u32) -> Stored
        ensures { content_of result ≡ field_among (seen self.now).held.value.objects (name_of at) field };

    /// Writes a reference, or null, into the field of the object. It asks neither the phase of the heap nor a write barrier, and adds
    /// no exit item: these are the caller's.
    fn write_ref(&mut self, at: Link, field: u32, value: Option<Link>)
        requires idle { (seen self.old).held.value.collection ≡ Idle }
        requires kind { IsTrue (is_ref (field_among (seen self.old).held.value.objects (name_of at) field)) }
        ensures { seen self.new ≡ with_value (with_field (name_of at) field (Refers (option_map name_of value)) (seen self.old).held.value) (seen self.old) };

    /// Writes a number into the field of the object.
    fn write_int(&mut self, at: Link, field: u32, value: u64)
        requires idle { (seen self.old).held.value.collection ≡ Idle }
        requires there { field < field_count_among (seen self.old).held.value.objects (name_of at) }
        requires kind { IsFalse (is_ref (field_among (seen self.old).held.value.objects (name_of at) field)) }
        ensures { seen self.new ≡ with_value (with_field (name_of at) field (Holds value) (seen self.old).held.value) (seen self.old) };

    /// Adds the exit item where it is new, and tells whether it was.
    fn add_exit(&mut self, target: Link) -> bool
        requires idle { (seen self.old).held.value.collection ≡ Idle }
        requires room { IsTrue (name_among (name_of target) (seen self.old).held.value.exits) ⊎ (length (seen self.old).held.value.exits < (seen self.old).held.exit_room) }
        ensures value { result ≡ not (name_among (name_of target) (seen self.old).held.value.exits) }
        ensures added { seen self.new ≡ with_value (with_exit_item (name_of target) (seen self.old).held.value) (seen self.old) };

    /// Appends an event that touches the process's cell and this one, which have met the journal and then meet the longer one.
    fn append(&mut self, cell: &mut HeapCell, book: &mut Book, event: Event)
        requires table { (cell.old.note.table ≡ book.old.journal.table) × ((seen self.old).held.note.table ≡ book.old.journal.table) }
        requires met { (cell.old.note.list ≡ book.old.journal.list) × ((seen self.old).held.note.list ≡ book.old.journal.list) }
        requires room { length book.old.journal.list < book.old.event_room }
        ensures cell { cell.new ≡ record cell.old { note = note_after event cell.old.note } }
        ensures other { seen self.new ≡ with_note (note_after event (seen self.old).held.note) (seen self.old) }
        ensures book { book.new ≡ record book.old { journal = journal_after event (cell.old.note.cell ∷ (seen self.old).held.note.cell ∷ []) book.old.journal } };
}

impl OtherCell for KernelCell {
    ghost use Rattle.k_commit.specs.Others.{of_kernel};

    ghost seen = { λ c. of_kernel c };

    fn heap(&self) -> Heap {
        Heap::Kernel
    }

    fn field_count(&self, at: Link) -> u32 {
        KernelCell::field_count(self, at)
    }

    fn field(&self, at: Link, field: u32) -> Stored {
        KernelCell::field(self, at, field)
    }

    fn write_ref(&mut self, at: Link, field: u32, value: Option<Link>) {
        KernelCell::write_ref(self, at, field, value);
    }

    fn write_int(&mut self, at: Link, field: u32, value: u64) {
        KernelCell::write_int(self, at, field, value);
    }

    fn add_exit(&mut self, target: Link) -> bool {
        KernelCell::add_exit(self, target)
    }

    fn append(&mut self, cell: &mut HeapCell, book: &mut Book, event: Event) {
        append_heap_and_kernel(cell, self, book, event);
    }
}

impl OtherCell for SharedCell {
    ghost use Rattle.k_commit.specs.Others.{of_shared};

    ghost seen = { λ c. of_shared c };

    fn heap(&self) -> Heap {
        Heap::Shared(self.id())
    }

    fn field_count(&self, at: Link) -> u32 {
        SharedCell::field_count(self, at)
    }

    fn field(&self, at: Link, field: u32) -> Stored {
        SharedCell::field(self, at, field)
    }

    fn write_ref(&mut self, at: Link, field: u32, value: Option<Link>) {
        SharedCell::write_ref(self, at, field, value);
    }

    fn write_int(&mut self, at: Link, field: u32, value: u64) {
        SharedCell::write_int(self, at, field, value);
    }

    fn add_exit(&mut self, target: Link) -> bool {
        SharedCell::add_exit(self, target)
    }

    fn append(&mut self, cell: &mut HeapCell, book: &mut Book, event: Event) {
        append_heap_and_shared(cell, self, book, event);
    }
}
