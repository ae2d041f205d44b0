//! Who owns the segments.
ghost use Rattle.std.specs.Prelude.{◌≡◌, ◌<◌, ◌-◌};
ghost use Rattle.k_types.specs.Owners.{owner_of, owner_of_process, owner_of_shared};
ghost use Rattle.k_types.specs.Trace.{IsHeap, segment_count, segment_of};

use crate::items::is_among;
use crate::lists::PlainLists;
use k_types::{Heap, Phase, Pid, Seg, SharedId};

impl PlainLists {
    /// The heap that owns the segment.
    #[tactic(auto, unfolding(k_types::specs::Owners::owner_of_segment))]
    pub fn owner(&self, seg: Seg) -> Heap
        ensures { result ≡ owner_of self.now.setup self.now.state seg.0 }
    {
        let procs = self.setup.procs.len();
        if seg.0 == 0 {
            Heap::Kernel
        } else if seg.0 as usize <= procs {
            self.owner_of_process(seg.0 - 1)
        } else {
            self.owner_of_shared(seg.0 - 1 - procs as u32)
        }
    }

    fn owner_of_process(&self, p: u32) -> Heap
        ensures { result ≡ owner_of_process self.now.state.ended p }
    {
        if is_among(&self.ended, p) {
            Heap::Kernel
        } else {
            Heap::User(Pid(p))
        }
    }

    fn owner_of_shared(&self, s: u32) -> Heap
        ensures { result ≡ owner_of_shared self.now.state.phases s }
    {
        match self.phase(SharedId(s)) {
            Phase::Absorbed => Heap::Kernel,
            _ => Heap::Shared(SharedId(s)),
        }
    }

    /// The segment in which the heap's allocations stand.
    pub fn segment_of(&self, heap: Heap) -> Seg
        requires { IsHeap self.now.setup heap }
        ensures segment { result.0 ≡ segment_of self.now.setup heap }
        ensures known { result.0 < segment_count self.now.setup }
    {
        match heap {
            Heap::Kernel => Seg(0),
            Heap::User(pid) => Seg(pid.0 + 1),
            Heap::Shared(shared) => Seg(1 + self.setup.procs.len() as u32 + shared.0),
        }
    }
}
