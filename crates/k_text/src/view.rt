//! What a report asks of a final state.
ghost use Rattle.std.specs.Prelude.{◌≡◌, ℕ, ◌<◌, ◌≤◌, ◌+◌, not, IsTrue, List, length, slice_get, slice_index_or, Option, Some, IfSome};

use k_types::{Event, Field, Heap, LimitId, Name, Phase, Pid, Reg, Seg, SharedId, TypeId};

/// Shows a final state for printing: a trace's setup, the events of the journal, and the state
/// that they left.
///
/// A name in an argument is an object's, and a number in an argument is one of the setup's. What
/// a call gives names nothing that the setup does not declare. No call takes memory.
pub trait View {
    ghost use Rattle.k_types.specs.declared.event.Event.{Event};
    ghost use Rattle.k_types.specs.Names.{among};
    ghost use Rattle.k_types.specs.Trace.{Trace, process_count, segment_count, IsHeap};
    ghost use Rattle.k_types.specs.State.{State, has, field_kind, register, has_share};
    ghost use Rattle.k_types.specs.Owners.{owner_of, bytes_of, charge_of, phase_of};
    ghost use Rattle.k_types.specs.Limits.{use_of, max_of, limits_in};
    ghost use Rattle.k_types.specs.Replies.{field_at, field_count, reference, number_in};
    ghost use Rattle.k_types.specs.Sound.{IsOrdered};
    ghost use Rattle.k_text.specs.Shown.{next_name_after, type_at, exits_of};
    ghost use Rattle.k_types.specs.Known.{IsKnownName, IsKnownEvent, IsKnownPhase};

    // The trace whose setup is shown; its operations are not read.
    ghost trace: { Self → Trace };

    ghost events: { Self → List Event };

    ghost state: { Self → State };

    /// The ceiling of the kernel heap, in bytes.
    fn ceiling(&self) -> u64
        ensures { result ≡ (trace self.now).ceiling };

    /// How many processes there are.
    fn procs(&self) -> u32
        ensures count { result ≡ process_count (trace self.now) }
        ensures few { result ≤ 64 };

    /// How many limits there are.
    fn limits(&self) -> u32
        ensures count { result ≡ length (trace self.now).limits }
        ensures few { result ≤ 128 };

    /// How many shared heaps there are.
    fn shared_heaps(&self) -> u32
        ensures count { result ≡ (trace self.now).shared_heaps }
        ensures few { result ≤ 64 };

    /// How many events the journal has.
    fn events(&self) -> u32
        ensures { result ≡ length (events self.now) };

    /// The event at that place of the journal, from 0.
    fn event(&self, i: u32) -> &Event
        requires { i < length (events self.now) }
        ensures there { slice_get (events self.now) i ≡ Some result.now }
        ensures known { IsKnownEvent (trace self.now) result.now };

    /// The next object by segment and serial, or the first of all; none where there is no further
    /// one.
    fn next_object(&self, after: Option<Name>) -> Option<Name>
        ensures next { result ≡ next_name_after after (state self.now).objects }
        ensures ordered { IsOrdered (state self.now).objects }
        ensures known { IfSome result (IsKnownName (trace self.now)) };

    /// The type of the object; none for the directory.
    fn object_type(&self, name: Name) -> Option<TypeId>
        requires { IsTrue (has (state self.now).objects name) }
        ensures exact { result ≡ type_at (state self.now).objects name }
        ensures known { IfSome result (λ ty. ty.0 < length (trace self.now).types) };

    /// How many fields the object has.
    fn fields(&self, name: Name) -> u32
        requires { IsTrue (has (state self.now).objects name) }
        ensures count { result ≡ field_count (state self.now) name }
        ensures few { result ≤ 16 };

    /// Whether the field is a reference or an integer.
    fn kind(&self, name: Name, field: u32) -> Field
        requires object { IsTrue (has (state self.now).objects name) }
        requires field { field < field_count (state self.now) name }
        ensures { result ≡ field_kind (field_at (state self.now) name field) };

    /// What a reference field refers to.
    fn ref_at(&self, name: Name, field: u32) -> Option<Name>
        requires object { IsTrue (has (state self.now).objects name) }
        requires field { field < field_count (state self.now) name }
        requires kind { field_kind (field_at (state self.now) name field) ≡ Field.Ref }
        ensures held { result ≡ reference (field_at (state self.now) name field) }
        ensures known { IfSome result (IsKnownName (trace self.now)) };

    /// The number in an integer field.
    fn int_at(&self, name: Name, field: u32) -> u64
        requires object { IsTrue (has (state self.now).objects name) }
        requires field { field < field_count (state self.now) name }
        requires kind { field_kind (field_at (state self.now) name field) ≡ Field.Int }
        ensures { result ≡ number_in (field_at (state self.now) name field) };

    /// The heap that owns the segment.
    fn owner(&self, seg: Seg) -> Heap
        requires { seg.0 < segment_count (trace self.now) }
        ensures { result ≡ owner_of (trace self.now) (state self.now) seg.0 };

    /// How many serials were given in the segment.
    fn made(&self, seg: Seg) -> u32
        requires { seg.0 < segment_count (trace self.now) }
        ensures { result ≡ slice_index_or (state self.now).made seg.0 0 };

    /// Whether the process has not ended.
    fn lives(&self, pid: Pid) -> bool
        requires { pid.0 < process_count (trace self.now) }
        ensures { result ≡ not (among pid.0 (state self.now).ended) };

    /// What the register refers to.
    fn reg(&self, pid: Pid, r: Reg) -> Option<Name>
        requires process { pid.0 < process_count (trace self.now) }
        requires register { r.0 < 16 }
        ensures held { result ≡ register (state self.now).registers pid.0 r.0 }
        ensures known { IfSome result (IsKnownName (trace self.now)) };

    /// How many exit items the heap has.
    fn exits(&self, heap: Heap) -> u32
        requires { IsHeap (trace self.now) heap }
        ensures { result ≡ length (exits_of (state self.now).exits heap) };

    /// The target of an exit item of the heap, by the targets' segments and serials.
    fn exit(&self, heap: Heap, i: u32) -> Name
        requires heap { IsHeap (trace self.now) heap }
        requires place { i < length (exits_of (state self.now).exits heap) }
        ensures there { slice_get (exits_of (state self.now).exits heap) i ≡ Some result }
        ensures known { IsKnownName (trace self.now) result };

    /// Whether the process shares the shared heap.
    fn shares(&self, pid: Pid, shared: SharedId) -> bool
        requires process { pid.0 < process_count (trace self.now) }
        requires shared { shared.0 < (trace self.now).shared_heaps }
        ensures { result ≡ has_share (state self.now).shares pid.0 shared.0 };

    /// The phase of the shared heap.
    fn phase(&self, shared: SharedId) -> Phase
        requires { shared.0 < (trace self.now).shared_heaps }
        ensures exact { result ≡ phase_of (state self.now).phases shared.0 }
        ensures known { IsKnownPhase (trace self.now) result };

    /// The bytes of the heap's objects.
    fn bytes(&self, heap: Heap) -> u64
        requires { IsHeap (trace self.now) heap }
        ensures { result ≡ bytes_of (trace self.now) (state self.now) heap };

    /// The bytes that the process is charged.
    fn charge(&self, pid: Pid) -> u64
        requires { pid.0 < process_count (trace self.now) }
        ensures { result ≡ charge_of (trace self.now) (state self.now) pid.0 };

    /// The bytes that are used at the limit.
    fn use_of(&self, at: LimitId) -> u64
        requires { at.0 < length (trace self.now).limits }
        ensures { result ≡ use_of (trace self.now) (state self.now) at.0 };

    /// The limit's maximum as it is now, in bytes.
    fn max_of(&self, at: LimitId) -> u64
        requires { at.0 < length (trace self.now).limits }
        ensures { result ≡ max_of (limits_in (trace self.now) (state self.now)) at.0 };
}
