//! A state and its events, shown for printing.
ghost use Rattle.k_solo.specs.Runs.{Run};

use crate::ending::PlainEnd;
use crate::shown::{next_object, object_type};
use k_reply::{field_at, field_count, number_in, reference};
use k_state::FieldValue;
use k_text::View;
use k_types::{Event, Field, Heap, LimitId, Name, Phase, Pid, Reg, Seg, SharedId, TypeId};

impl View for PlainEnd {
    ghost trace = { λ e. e.machine.setup };

    ghost events = { λ e. e.events };

    ghost state = { λ e. e.machine.state };

    /// Constant time.
    fn ceiling(&self) -> u64 {
        self.lists.ceiling()
    }

    /// Constant time.
    fn procs(&self) -> u32 {
        self.lists.setup().procs.len() as u32
    }

    /// Constant time.
    fn limits(&self) -> u32 {
        self.lists.limit_count()
    }

    /// Constant time.
    fn shared_heaps(&self) -> u32 {
        let _shape = self.lists.setup();
        self.lists.shared_count()
    }

    /// Constant time.
    fn events(&self) -> u32 {
        self.events.len() as u32
    }

    /// Constant time.
    fn event(&self, i: u32) -> &Event {
        &self.events[i as usize]
    }

    /// Finds the object by halving in its segment, or as the first of the segments after it.
    fn next_object(&self, after: Option<Name>) -> Option<Name> {
        next_object(&self.lists, after)
    }

    /// Finds the object by halving.
    fn object_type(&self, name: Name) -> Option<TypeId> {
        object_type(&self.lists, name)
    }

    /// Finds the object by halving.
    fn fields(&self, name: Name) -> u32 {
        field_count(&self.lists, name)
    }

    /// Finds the object by halving.
    fn kind(&self, name: Name, field: u32) -> Field {
        match field_at(&self.lists, name, field) {
            FieldValue::Reference(_) => Field::Ref,
            FieldValue::Integer(_) => Field::Int,
        }
    }

    /// Finds the object by halving.
    fn ref_at(&self, name: Name, field: u32) -> Option<Name> {
        reference(field_at(&self.lists, name, field))
    }

    /// Finds the object by halving.
    fn int_at(&self, name: Name, field: u32) -> u64 {
        number_in(field_at(&self.lists, name, field))
    }

    /// Looks among those who have ended, or at one phase.
    fn owner(&self, seg: Seg) -> Heap {
        self.lists.owner(seg)
    }

    /// Constant time.
    fn made(&self, seg: Seg) -> u32 {
        self.lists.made(seg)
    }

    /// Looks among those who have ended.
    fn lives(&self, pid: Pid) -> bool {
        self.lists.lives(pid)
    }

    /// Constant time.
    fn reg(&self, pid: Pid, r: Reg) -> Option<Name> {
        self.lists.register(pid, r)
    }

    /// Constant time: the targets are sorted when the end is made.
    fn exits(&self, heap: Heap) -> u32 {
        let _shape = self.lists.setup();
        self.targets_of(heap).len() as u32
    }

    /// Constant time: the targets are sorted when the end is made.
    fn exit(&self, heap: Heap, i: u32) -> Name {
        let _lists = &self.lists;
        self.targets_of(heap)[i as usize]
    }

    /// Walks over the shares.
    fn shares(&self, pid: Pid, shared: SharedId) -> bool {
        self.lists.has_share(pid, shared)
    }

    /// Constant time.
    fn phase(&self, shared: SharedId) -> Phase {
        self.lists.phase(shared)
    }

    /// Adds up the totals of the segments that the heap owns.
    fn bytes(&self, heap: Heap) -> u64 {
        self.lists.bytes(heap)
    }

    /// Adds up the bytes of the process's heap and of each heap that it shares. No process is charged more than its limit's
    /// maximum.
    fn charge(&self, pid: Pid) -> u64 {
        let limit = self.lists.limit_of(pid);
        self.lists.charge(pid).min(self.lists.max_of(limit))
    }

    /// Adds up the charges of the processes at the limit and at those below. No more is used at a limit than its maximum.
    fn use_of(&self, at: LimitId) -> u64 {
        self.lists.use_of(at).min(self.lists.max_of(at))
    }

    /// Constant time.
    fn max_of(&self, at: LimitId) -> u64 {
        self.lists.max_of(at)
    }
}
