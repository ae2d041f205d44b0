//! The heaps of a run that is over, found by their names, and the book.
ghost use Rattle.std.specs.Prelude.{◌≡◌, ◌<◌, Some, length, slice_get};
ghost use Rattle.k_types.specs.Owners.{object_bytes};
ghost use Rattle.k_types.specs.State.{has};
ghost use Rattle.k_types.specs.Totals.{total};
ghost use Rattle.k_types.specs.declared.names.Heap.TheVariants.{User};
ghost use Rattle.k_types.specs.Distinct.{AreDistinctNames};
ghost use Rattle.k_laws.specs.PartUpdates.{held_in};
ghost use Rattle.k_space.specs.Objects.{content_of};
ghost use Rattle.k_cell.specs.Looks.{field_among, field_count_among, type_among};
ghost use Rattle.k_outcome.specs.Cells.{IsThere, cell_at};

use k_book::Book;
use k_heap::HeapCell;
use k_process::Heaps;
use k_shared::SharedCell;
use k_space::Stored;
use k_types::{Heap, Name, Pid, Reg, SharedId, TypeId};
use std::marker::Model;

/// All heaps of a run that is over. Contracts see the cells and the book.
#[derive(Drop)]
pub(crate) struct Cells {
    pub(crate) heaps: Heaps,
}

impl Model for Cells {
    ghost use Rattle.k_process.specs.Over.{OutcomeValue};

    ghost Value = { OutcomeValue };

    ghost use Rattle.k_process.specs.Heaps.{value_of};
    ghost use Rattle.k_process.specs.Over.{cells_of};

    ghost view = { λ c. cells_of (value_of c.heaps) };
}

impl Cells {
    /// The book.
    pub(crate) fn book(&self) -> &Book
        ensures { result.now ≡ self.now.book }
    {
        &self.heaps.book
    }

    // The cell of the process.
    fn process(&self, pid: Pid) -> &HeapCell
        requires { pid.0 < length self.now.processes }
        ensures { slice_get self.now.processes pid.0 ≡ Some result.now }
    {
        let process = &self.heaps.processes[pid.0 as usize];
        &process.cell
    }

    // The cell of the shared heap.
    fn shared_heap(&self, id: SharedId) -> &SharedCell
        requires { id.0 < length self.now.shared }
        ensures { slice_get self.now.shared id.0 ≡ Some result.now }
    {
        &self.heaps.shared[id.0 as usize]
    }

    /// The bytes of the heap's objects.
    pub(crate) fn bytes(&self, heap: Heap) -> u64
        requires { IsThere self.now heap }
        ensures { result ≡ total object_bytes (cell_at self.now heap).objects }
    {
        match heap {
            Heap::Kernel => self.heaps.kernel.bytes(),
            Heap::User(pid) => self.process(pid).bytes(),
            Heap::Shared(id) => self.shared_heap(id).bytes(),
        }
    }

    /// Whether the object is one of the heap's.
    pub(crate) fn has(&self, heap: Heap, at: Name) -> bool
        requires { IsThere self.now heap }
        ensures { result ≡ has (cell_at self.now heap).objects at }
    {
        match heap {
            Heap::Kernel => self.heaps.kernel.has(at),
            Heap::User(pid) => self.process(pid).has(at),
            Heap::Shared(id) => self.shared_heap(id).has(at),
        }
    }

    /// The type of the heap's object; none where it is the directory, or there is no such object.
    pub(crate) fn type_of(&self, heap: Heap, at: Name) -> Option<TypeId>
        requires { IsThere self.now heap }
        ensures { result ≡ type_among (cell_at self.now heap).objects at }
    {
        match heap {
            Heap::Kernel => self.heaps.kernel.type_of(at),
            Heap::User(pid) => self.process(pid).type_of(at),
            Heap::Shared(id) => self.shared_heap(id).type_of(at),
        }
    }

    /// The number of fields of the heap's object; 0 where there is no such object.
    pub(crate) fn field_count(&self, heap: Heap, at: Name) -> u32
        requires { IsThere self.now heap }
        ensures { result ≡ field_count_among (cell_at self.now heap).objects at }
    {
        match heap {
            Heap::Kernel => self.heaps.kernel.field_count(at.link()),
            Heap::User(pid) => self.process(pid).field_count(at.link()),
            Heap::Shared(id) => self.shared_heap(id).field_count(at.link()),
        }
    }

    /// What the field of the heap's object holds; the number 0 where there is no such field.
    pub(crate) fn field(&self, heap: Heap, at: Name, field: u32) -> Stored
        requires { IsThere self.now heap }
        ensures { content_of result ≡ field_among (cell_at self.now heap).objects at field }
    {
        match heap {
            Heap::Kernel => self.heaps.kernel.field(at.link(), field),
            Heap::User(pid) => self.process(pid).field(at.link(), field),
            Heap::Shared(id) => self.shared_heap(id).field(at.link(), field),
        }
    }

    /// The number of the heap's exit items, of which no two have one target.
    pub(crate) fn exit_count(&self, heap: Heap) -> u32
        requires { IsThere self.now heap }
        ensures count { result ≡ length (cell_at self.now heap).exits }
        ensures distinct { AreDistinctNames (cell_at self.now heap).exits }
    {
        match heap {
            Heap::Kernel => self.heaps.kernel.exit_count(),
            Heap::User(pid) => self.process(pid).exit_count(),
            Heap::Shared(id) => self.shared_heap(id).exit_count(),
        }
    }

    /// The target of the heap's exit item at that place, from 0, in no order.
    pub(crate) fn exit_at(&self, heap: Heap, i: u32) -> Name
        requires there { IsThere self.now heap }
        requires place { i < length (cell_at self.now heap).exits }
        ensures { slice_get (cell_at self.now heap).exits i ≡ Some result }
    {
        match heap {
            Heap::Kernel => self.heaps.kernel.exit_at(i),
            Heap::User(pid) => self.process(pid).exit_at(i),
            Heap::Shared(id) => self.shared_heap(id).exit_at(i),
        }
    }

    /// What the register of the process holds.
    pub(crate) fn reg(&self, pid: Pid, r: Reg) -> Option<Name>
        requires there { IsThere self.now (User pid) }
        requires register { r.0 < 16 }
        ensures { result ≡ held_in (cell_at self.now (User pid)).process r.0 }
    {
        match self.process(pid).reg(r) {
            Some(link) => Some(link.name()),
            None => None,
        }
    }
}
