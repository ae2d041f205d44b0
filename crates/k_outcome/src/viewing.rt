//! The end of a run, shown for printing.
ghost use Rattle.k_outcome.specs.Ends.{journal_of, last_state};

use crate::outcome::Outcome;
use k_space::Stored;
use k_text::View;
use k_types::{Event, Field, Heap, LimitId, Name, Phase, Pid, Reg, Seg, SharedId, TypeId};

impl View for Outcome {
    ghost trace = { λ e. e.setup };

    ghost events = { λ e. journal_of e };

    ghost state = { λ e. last_state e };

    /// Constant time.
    fn ceiling(&self) -> u64 {
        self.setup().ceiling
    }

    /// Constant time.
    fn procs(&self) -> u32 {
        self.setup().procs.len() as u32
    }

    /// Constant time.
    fn limits(&self) -> u32 {
        self.setup().limits.len() as u32
    }

    /// Constant time.
    fn shared_heaps(&self) -> u32 {
        self.setup().shared
    }

    /// Constant time.
    fn events(&self) -> u32 {
        self.cells().book().len() as u32
    }

    /// Constant time.
    fn event(&self, i: u32) -> &Event {
        self.cells().book().event(u64::from(i))
    }

    /// Passes the serials that were given between the two objects. A walk over all objects passes each serial once.
    fn next_object(&self, after: Option<Name>) -> Option<Name> {
        let _cells = self.cells();
        self.next_after(after)
    }

    /// Constant time.
    fn object_type(&self, name: Name) -> Option<TypeId> {
        self.cells().type_of(self.holder(name), name)
    }

    /// Constant time.
    fn fields(&self, name: Name) -> u32 {
        self.cells().field_count(self.holder(name), name)
    }

    /// Constant time.
    fn kind(&self, name: Name, field: u32) -> Field {
        match self.field(name, field) {
            Stored::Null | Stored::Refers(_) => Field::Ref,
            Stored::Holds(_) => Field::Int,
        }
    }

    /// Constant time.
    fn ref_at(&self, name: Name, field: u32) -> Option<Name> {
        let _cells = self.cells();
        match self.field(name, field) {
            Stored::Refers(target) => Some(target.name),
            Stored::Null | Stored::Holds(_) => None,
        }
    }

    /// Constant time.
    fn int_at(&self, name: Name, field: u32) -> u64 {
        match self.field(name, field) {
            Stored::Holds(number) => number,
            Stored::Null | Stored::Refers(_) => 0,
        }
    }

    /// Constant time.
    fn owner(&self, seg: Seg) -> Heap {
        self.owner_of(seg)
    }

    /// Constant time: the serials are counted when the outcome is put together.
    fn made(&self, seg: Seg) -> u32 {
        self.made_in(seg)
    }

    /// Constant time.
    fn lives(&self, pid: Pid) -> bool {
        self.cells().book().lives(pid)
    }

    /// Constant time.
    fn reg(&self, pid: Pid, r: Reg) -> Option<Name> {
        self.cells().reg(pid, r)
    }

    /// Constant time: the targets are sorted when the outcome is put together.
    fn exits(&self, heap: Heap) -> u32 {
        let _cells = self.cells();
        self.targets_of(heap).len() as u32
    }

    /// Constant time: the targets are sorted when the outcome is put together.
    fn exit(&self, heap: Heap, i: u32) -> Name {
        let _cells = self.cells();
        self.targets_of(heap)[i as usize]
    }

    /// Constant time.
    fn shares(&self, pid: Pid, shared: SharedId) -> bool {
        self.cells().book().shares(pid, shared)
    }

    /// Constant time.
    fn phase(&self, shared: SharedId) -> Phase {
        self.cells().book().phase_of(shared)
    }

    /// Constant time.
    fn bytes(&self, heap: Heap) -> u64 {
        self.cells().bytes(heap)
    }

    /// Looks at each shared heap.
    fn charge(&self, pid: Pid) -> u64 {
        self.charge_of(pid)
    }

    /// Constant time.
    fn use_of(&self, at: LimitId) -> u64 {
        self.cells().book().use_of(at)
    }

    /// Constant time.
    fn max_of(&self, at: LimitId) -> u64 {
        self.cells().book().max_of(at)
    }
}
