//! The bytes of heaps, and what processes are charged.
ghost use Rattle.std.specs.Prelude.{◌≡◌, ◌≢◌, ◌<◌, ◌≤◌, ◌+◌, ◌-◌, ◌^◌, [], length, min, slice_index_or, slice_set};
ghost use Rattle.k_state.specs.Sums.{AreSums};
ghost use Rattle.k_types.specs.Owners.{bytes_of, charge_by, charge_of, shared};
ghost use Rattle.k_types.specs.Trace.{process_count, segment_of};
ghost use Rattle.k_types.specs.declared.names.Heap.TheVariants.{Kernel};

use crate::items::is_among;
use crate::lists::PlainLists;
use crate::names::is_same_heap;
use k_types::{Heap, MOST_PROCESSES, MOST_SHARED_HEAPS, Pid, Seg, SharedId};

// Adds so much to the number of that index, up to the greatest number of 64 bits.
pub(crate) fn add(sums: &mut [u64], k: usize, part: u64)
    requires { k < length sums.old }
    ensures { sums.new ≡ slice_set sums.old k (min (slice_index_or sums.old k 0 + part) (2 ^ 64 - 1)) }
{
    sums[k] = sums[k].saturating_add(part);
}

impl PlainLists {
    /// The bytes of the heap's objects. The kernel's are added up segment by segment; another heap has at most one segment.
    pub fn bytes(&self, heap: Heap) -> u64
        ensures sum { result ≡ bytes_of self.now.setup self.now.state heap }
        ensures small { result ≤ 2 ^ 40 }
    {
        match heap {
            Heap::Kernel => self.bytes_of_all(heap),
            Heap::User(pid) => self.bytes_at(heap, 1 + pid.0 as usize),
            Heap::Shared(shared) => {
                self.bytes_at(heap, 1 + self.setup.procs.len() + shared.0 as usize)
            }
        }
    }

    // The bytes of the heap's objects in all segments.
    fn bytes_of_all(&self, heap: Heap) -> u64
        ensures sum { result ≡ bytes_of self.now.setup self.now.state heap }
        ensures small { result ≤ 2 ^ 40 }
    {
        let mut sum = 0;
        for seg in 0..self.segments.count() {
            if is_same_heap(self.owner(Seg(seg as u32)), heap) {
                sum += self.segments.bytes(seg);
            }
        }
        sum
    }

    // The bytes of the heap's objects, which are in the heap's own segment.
    fn bytes_at(&self, heap: Heap, seg: usize) -> u64
        requires other { heap ≢ Kernel }
        requires own { seg ≡ segment_of self.now.setup heap }
        ensures sum { result ≡ bytes_of self.now.setup self.now.state heap }
        ensures small { result ≤ 2 ^ 40 }
    {
        if seg < self.segments.count() && is_same_heap(self.owner(Seg(seg as u32)), heap) {
            self.segments.bytes(seg)
        } else {
            0
        }
    }

    /// What the process is charged, or the greatest number of 64 bits where it is more.
    #[tactic(auto, using(crate::proofs::Sums::sum_left, crate::proofs::Sums::sum_over))]
    pub fn charge(&self, pid: Pid) -> u64
        ensures { result ≡ min (charge_of self.now.setup self.now.state pid.0) (2 ^ 64 - 1) }
    {
        if is_among(&self.ended, pid.0) {
            return 0;
        }
        let mut sum = self.bytes(Heap::User(pid));
        for share in &self.shares {
            if share.process().0 == pid.0 {
                sum = sum.saturating_add(self.bytes(Heap::Shared(share.heap())));
            }
        }
        sum
    }

    // The bytes of each living process's heap.
    fn own_bytes(&self) -> [u64; MOST_PROCESSES]
        ensures { AreSums result
            (charge_by (bytes_of self.now.setup self.now.state) self.now.state.ended []) (process_count self.now.setup) }
    {
        let mut sums = [0; MOST_PROCESSES];
        for p in 0..self.setup.procs.len() {
            let pid = Pid(p as u32);
            if self.lives(pid) {
                sums[p] = self.bytes(Heap::User(pid));
            }
        }
        sums
    }

    // The bytes of each shared heap.
    fn shared_bytes(&self) -> [u64; MOST_SHARED_HEAPS]
        ensures { AreSums result (λ s. bytes_of self.now.setup self.now.state (shared s)) self.now.setup.shared_heaps }
    {
        let mut sums = [0; MOST_SHARED_HEAPS];
        for s in 0..self.setup.shared {
            sums[s as usize] = self.bytes(Heap::Shared(SharedId(s)));
        }
        sums
    }

    // The bytes of a shared heap, from those of all where the trace has it.
    fn bytes_among(&self, all: &[u64; MOST_SHARED_HEAPS], id: SharedId) -> u64
        requires { AreSums all.now (λ s. bytes_of self.now.setup self.now.state (shared s)) self.now.setup.shared_heaps }
        ensures sum { result ≡ bytes_of self.now.setup self.now.state (shared id.0) }
        ensures small { result ≤ 2 ^ 40 }
    {
        if id.0 < self.setup.shared {
            all[id.0 as usize]
        } else {
            self.bytes(Heap::Shared(id))
        }
    }

    // What each process is charged, or the greatest number of 64 bits where it is more. Walks once over the shares.
    pub(crate) fn charges(&self) -> [u64; MOST_PROCESSES]
        ensures { AreSums result (charge_of self.now.setup self.now.state) (process_count self.now.setup) }
    {
        let all = self.shared_bytes();
        let mut sums = self.own_bytes();
        for share in &self.shares {
            let process = share.process();
            let p = process.0 as usize;
            if p < self.setup.procs.len() && self.lives(process) {
                add(&mut sums, p, self.bytes_among(&all, share.heap()));
            }
        }
        sums
    }
}
