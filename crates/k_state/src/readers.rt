//! What a state and its setup say, read.
ghost use Rattle.std.specs.Prelude.{◌≡◌, ◌<◌, ◌-◌, ◌^◌, [], not, option_copied, option_map, slice_index_or, length, IfSome, IfNone, IsFalse};
ghost use Rattle.k_state.specs.Links.{IsExitAt};
ghost use Rattle.k_state.specs.Machines.{IsPlain};
ghost use Rattle.k_state.specs.Places.{IsNamedAt};
ghost use Rattle.k_state.specs.Segments.{objects_in};
ghost use Rattle.k_types.specs.Known.{IsKnownPhase};
ghost use Rattle.k_types.specs.Names.{among};
ghost use Rattle.k_types.specs.Owners.{phase_of};
ghost use Rattle.k_types.specs.State.{Scan as Opened, has, has_exit, has_share, is_scanned, object_at, register, scan_of};
ghost use Rattle.k_types.specs.Trace.{limit_of, process_count, segment_count, size_of_type, trace_of};
ghost use Rattle.k_types.specs.Updates.{next_name};

use crate::items::{ExitItem, Scan, Share, has_share, is_among};
use crate::lists::PlainLists;
use crate::objects::PlainObject;
use k_types::{Heap, LimitId, Name, Phase, Pid, Reg, Seg, Serial, Setup, SharedId, TypeId};

impl PlainLists {
    /// The setup of the trace. Says too that the lists have their shape.
    pub fn setup(&self) -> &Setup
        ensures setup { trace_of result.now [] [] ≡ self.now.setup }
        ensures shape { IsPlain self.now }
    {
        &self.setup
    }

    /// How many processes the trace has.
    pub fn process_count(&self) -> usize
        ensures { result ≡ process_count self.now.setup }
    {
        self.setup.procs.len()
    }

    /// How many shared heaps the trace has.
    pub fn shared_count(&self) -> u32
        ensures { result ≡ self.now.setup.shared_heaps }
    {
        self.setup.shared
    }

    /// The most bytes that the kernel may have for its own allocations to succeed.
    pub fn ceiling(&self) -> u64
        ensures { result ≡ self.now.setup.ceiling }
    {
        self.setup.ceiling
    }

    /// The limit of the process.
    pub fn limit_of(&self, pid: Pid) -> LimitId
        requires { pid.0 < process_count self.now.setup }
        ensures limit { result.0 ≡ limit_of self.now.setup pid.0 }
        ensures known { result.0 < length self.now.setup.limits }
    {
        self.setup.procs[pid.0 as usize]
    }

    /// The bytes of an object of the type.
    pub fn size_of_type(&self, ty: TypeId) -> u64
        requires { ty.0 < length self.now.setup.types }
        ensures { result ≡ size_of_type self.now.setup ty }
    {
        self.setup.types.size_of(ty)
    }

    /// What the register of the process refers to.
    pub fn register(&self, pid: Pid, r: Reg) -> Option<Name>
        requires process { pid.0 < process_count self.now.setup }
        requires register { r.0 < 16 }
        ensures { result ≡ register self.now.state.registers pid.0 r.0 }
    {
        let registers = &self.registers[pid.0 as usize];
        registers.get(r)
    }

    /// The registers of the process, in order.
    pub fn registers(&self, pid: Pid) -> &[Option<Name>]
        requires { pid.0 < process_count self.now.setup }
        ensures { result.now ≡ slice_index_or self.now.state.registers pid.0 [] }
    {
        let registers = &self.registers[pid.0 as usize];
        registers.all()
    }

    /// How many operations of the process are done.
    pub fn done(&self, pid: Pid) -> u32
        requires { pid.0 < process_count self.now.setup }
        ensures { result ≡ slice_index_or self.now.state.done pid.0 0 }
    {
        self.done[pid.0 as usize]
    }

    /// How many serials the segment has given.
    pub fn made(&self, seg: Seg) -> u32
        requires { seg.0 < segment_count self.now.setup }
        ensures { result ≡ slice_index_or self.now.state.made seg.0 0 }
    {
        self.made[seg.0 as usize]
    }

    /// The name that the segment's next object gets.
    pub fn next_name(&self, seg: Seg) -> Name
        requires seg { seg.0 < segment_count self.now.setup }
        requires room { slice_index_or self.now.state.made seg.0 0 < 2 ^ 32 - 1 }
        ensures { result ≡ next_name seg.0 self.now.state }
    {
        Name {
            seg,
            serial: Serial(self.made[seg.0 as usize] + 1),
        }
    }

    /// How many segments there are: the kernel's, one for each process and one for each shared heap.
    pub fn segment_count(&self) -> u32
        ensures { result ≡ segment_count self.now.setup }
    {
        1 + self.setup.procs.len() as u32 + self.setup.shared
    }

    /// The objects of the segment, in the order of their names; none where there is no such segment. The segments' objects one
    /// after another are all objects.
    pub fn objects_in(&self, seg: Seg) -> &[PlainObject]
        ensures { result.now ≡ objects_in self.now.state.objects seg.0 }
    {
        self.segments.all_in(seg)
    }

    /// The object of that name, found by halving in its segment.
    pub fn object(&self, name: Name) -> Option<&PlainObject>
        ensures { option_copied result ≡ object_at self.now.state.objects name }
    {
        self.segments.find(name)
    }

    /// The place of the object of that name among those of its segment, found by halving.
    pub fn index_of(&self, name: Name) -> Option<usize>
        ensures some { IfSome result (λ k. IsNamedAt (objects_in self.now.state.objects name.seg.0) k name) }
        ensures known { IfSome result (λ k. name.seg.0 < segment_count self.now.setup) }
        ensures none { IfNone result (IsFalse (has self.now.state.objects name)) }
    {
        self.segments.index_of(name)
    }

    /// Whether the process has not ended.
    pub fn lives(&self, pid: Pid) -> bool
        ensures { result ≡ not (among pid.0 self.now.state.ended) }
    {
        !is_among(&self.ended, pid.0)
    }

    /// The phase of the shared heap; unmade where there is none of that number.
    #[tactic(auto, using(k_laws::proofs::SetupShapes::phase_known))]
    pub fn phase(&self, shared: SharedId) -> Phase
        ensures exact { result ≡ phase_of self.now.state.phases shared.0 }
        ensures known { IsKnownPhase self.now.setup result }
    {
        match self.phases.get(shared.0 as usize) {
            Some(phase) => *phase,
            None => Phase::Unmade,
        }
    }

    /// The exit items, in the order in which they stand.
    pub fn exits(&self) -> &[ExitItem]
        ensures { result.now ≡ self.now.state.exits }
    {
        self.exits.all()
    }

    /// The place of the heap's last exit item to that target, found by the hash of the target.
    pub fn exit_at(&self, heap: Heap, target: Name) -> Option<usize>
        ensures some { IfSome result (λ at. IsExitAt self.now.state.exits heap target at) }
        ensures none { IfNone result (IsFalse (has_exit self.now.state.exits heap target)) }
    {
        self.exits.find(heap, target)
    }

    /// Whether the heap has an exit item to that target, found by the hash of the target.
    pub fn has_exit(&self, heap: Heap, target: Name) -> bool
        ensures { result ≡ has_exit self.now.state.exits heap target }
    {
        self.exits.has(heap, target)
    }

    /// The shares, in the order in which they stand.
    pub fn shares(&self) -> &[Share]
        ensures { result.now ≡ self.now.state.shares }
    {
        &self.shares
    }

    /// Whether the process pays for the shared heap. Walks over all shares.
    pub fn has_share(&self, pid: Pid, shared: SharedId) -> bool
        ensures { result ≡ has_share self.now.state.shares pid.0 shared.0 }
    {
        has_share(&self.shares, pid, shared)
    }

    // The open collection of the heap.
    fn scan_of(&self, heap: Heap) -> Option<&Scan>
        ensures { option_map (λ (scan : Opened). scan.roots) (option_copied result) ≡ scan_of self.now.state.scans heap }
    {
        for scan in &self.scans {
            if scan.is_of(heap) {
                return Some(scan);
            }
        }
        None
    }

    /// Whether a collection of the heap is open.
    pub fn is_scanned(&self, heap: Heap) -> bool
        ensures { result ≡ is_scanned self.now.state.scans heap }
    {
        self.scan_of(heap).is_some()
    }

    /// The roots with which the heap's open collection began.
    pub fn scan_roots(&self, heap: Heap) -> Option<&[Name]>
        ensures { option_copied result ≡ scan_of self.now.state.scans heap }
    {
        match self.scan_of(heap) {
            Some(scan) => Some(scan.roots()),
            None => None,
        }
    }

    /// Whether the last collection of the kernel has begun.
    pub fn closed(&self) -> bool
        ensures { result ≡ self.now.state.closed }
    {
        self.closed
    }
}
