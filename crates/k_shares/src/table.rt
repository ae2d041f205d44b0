//! The table of processes and shared heaps.
ghost use Rattle.std.specs.Prelude.{◌≡◌, ◌+◌, ◌-◌, ◌*◌, ◌<◌, ◌≤◌, ◌^◌, ℕ, not, Some, None, IfOk, IsTrue, IsFalse, length, option_map, slice_index, slice_set};
ghost use Rattle.k_types.specs.Names.{among};
ghost use Rattle.k_types.specs.Owners.{phase_of};
ghost use Rattle.k_types.specs.State.{has_share};
ghost use Rattle.k_shares.specs.Sharers.{unshared, bytes_in_phase, heap_number, is_orphan_by, living_of, lowest_orphan, GainsShare, LosesShare, GainsEnded};

use crate::bits::{is_shared, place_of_pair, take_bytes, was_made};
use k_types::{NoMemory, Phase, Pid, SharedId};
use std::alloc::Global;
use std::marker::Model;

/// Which processes live, who shares which shared heap, and the phase and the bytes of each shared heap. Processes and shared
/// heaps are numbered from 0. Each call but [`ShareTable::make`] and [`ShareTable::first_orphan`] takes constant time.
pub struct ShareTable {
    // Whether each process has not ended, and how many have not.
    alive: Vec<bool>,
    living: u32,
    // Whether a process shares a heap: one row of all shared heaps for each process.
    bits: Vec<bool>,
    phases: Vec<Phase>,
    bytes: Vec<u64>,
}

impl Drop for ShareTable {
    fn drop(self) {
        let ShareTable {
            alive: _,
            living: _,
            bits: _,
            phases: _,
            bytes: _,
        } = self;
    }
}

impl Model for ShareTable {
    ghost use Rattle.k_shares.specs.Sharers.{ShareValue};

    ghost Value = { ShareValue };

    ghost use Rattle.std.specs.Prelude.{◌≡◌, length};
    ghost use Rattle.k_shares.specs.Sharers.{living_of};
    ghost use Rattle.k_shares.specs.Places.{ended_in, shown, HaveSizes};

    ghost view = { λ t. shown t.alive.items t.bits.items t.phases.items t.bytes.items };

    ghost invariant = { λ t. HaveSizes t.alive.items t.bits.items t.phases.items t.bytes.items × (t.living ≡ living_of (ended_in t.alive.items) (length t.alive.items)) };
}

impl ShareTable {
    /// A table of so many processes, which all live, and so many shared heaps, which are unmade and have no bytes.
    #[tactic(auto, using(crate::proofs::Places::row_fits))]
    pub fn make(alloc: Global, procs: u32, shared: u32) -> Result<ShareTable, NoMemory>
        ensures { IfOk result (λ t. t ≡ unshared procs shared) }
    {
        let pairs = procs as usize * shared as usize;
        let alive = vec![in alloc; true; procs as usize]?;
        let bits = vec![in alloc; false; pairs]?;
        let phases = vec![in alloc; Phase::Unmade; shared as usize]?;
        let bytes = vec![in alloc; 0; shared as usize]?;
        Ok(ShareTable {
            alive,
            living: procs,
            bits,
            phases,
            bytes,
        })
    }

    /// The number of processes.
    pub fn procs(&self) -> u32
        ensures { result ≡ self.now.procs }
    {
        self.alive.len() as u32
    }

    /// The number of shared heaps.
    pub fn shared_heaps(&self) -> u32
        ensures { result ≡ length self.now.phases }
    {
        self.phases.len() as u32
    }

    /// The number of processes that have not ended.
    pub fn living(&self) -> u32
        ensures { result ≡ living_of self.now.ended self.now.procs }
    {
        self.living
    }

    /// Whether the process has not ended.
    #[tactic(auto, using(crate::proofs::BitTests::living_bit))]
    pub fn lives(&self, pid: Pid) -> bool
        requires { pid.0 < self.now.procs }
        ensures { result ≡ not (among pid.0 self.now.ended) }
    {
        self.alive[pid.0 as usize]
    }

    /// Whether the process shares the heap, and so pays for it.
    #[tactic(auto, using(crate::proofs::BitTests::share_bit, crate::proofs::Places::place_inside))]
    pub fn has(&self, pid: Pid, shared: SharedId) -> bool
        requires process { pid.0 < self.now.procs }
        requires heap { shared.0 < length self.now.phases }
        ensures { result ≡ has_share self.now.shares pid.0 shared.0 }
    {
        self.bits[place_of_pair(pid.0, shared.0, self.phases.len())]
    }

    /// The phase of the shared heap.
    pub fn phase_of(&self, shared: SharedId) -> Phase
        requires { shared.0 < length self.now.phases }
        ensures { result ≡ phase_of self.now.phases shared.0 }
    {
        self.phases[shared.0 as usize]
    }

    /// The bytes of the shared heap's objects.
    pub fn bytes_of(&self, shared: SharedId) -> u64
        requires { shared.0 < length self.now.phases }
        ensures { result ≡ slice_index self.now.shared_bytes shared.0 }
    {
        self.bytes[shared.0 as usize]
    }

    #[tactic(auto, using(crate::proofs::BitTests::sharer_bit))]
    fn is_orphan(&self, shared: SharedId) -> bool
        requires { shared.0 < length self.now.phases }
        ensures { result ≡ is_orphan_by self.now.phases self.now.shares shared.0 }
    {
        let heaps = self.phases.len();
        let made = was_made(self.phases[shared.0 as usize]);
        made && !is_shared(&self.bits, self.alive.len() as u32, heaps, shared.0)
    }

    /// The shared heap of the lowest number that was made, isn't absorbed and has no sharer. It takes time in the number of
    /// processes and shared heaps.
    #[tactic(auto, using(crate::proofs::Walks::first_goes_on, crate::proofs::Walks::first_ends, crate::proofs::Walks::first_past))]
    pub fn first_orphan(&self) -> Option<SharedId>
        ensures { option_map heap_number result ≡ lowest_orphan self.now.phases self.now.shares }
    {
        for s in 0..self.shared_heaps() {
            if self.is_orphan(SharedId(s)) {
                return Some(SharedId(s));
            }
        }
        None
    }

    /// The process shares the heap from now on.
    #[tactic(auto, using(crate::proofs::BitTests::gains, crate::proofs::Places::place_inside))]
    pub fn add(&mut self, pid: Pid, shared: SharedId)
        requires process { pid.0 < self.old.procs }
        requires heap { shared.0 < length self.old.phases }
        requires fresh { IsFalse (has_share self.old.shares pid.0 shared.0) }
        ensures shares { GainsShare self.old.shares self.new.shares pid.0 shared.0 }
        ensures rest { self.new ≡ record self.old { shares = self.new.shares } }
    {
        let at = place_of_pair(pid.0, shared.0, self.phases.len());
        self.bits[at] = true;
    }

    /// The process shares the heap no longer.
    #[tactic(auto, using(crate::proofs::BitTests::loses, crate::proofs::Places::place_inside))]
    pub fn remove(&mut self, pid: Pid, shared: SharedId)
        requires process { pid.0 < self.old.procs }
        requires heap { shared.0 < length self.old.phases }
        requires there { IsTrue (has_share self.old.shares pid.0 shared.0) }
        ensures shares { LosesShare self.old.shares self.new.shares pid.0 shared.0 }
        ensures rest { self.new ≡ record self.old { shares = self.new.shares } }
    {
        let at = place_of_pair(pid.0, shared.0, self.phases.len());
        self.bits[at] = false;
    }

    /// The shared heap is in the phase from now on. An absorbed one has no bytes.
    pub fn set_phase(&mut self, shared: SharedId, phase: Phase)
        requires { shared.0 < length self.old.phases }
        ensures { self.new ≡ record self.old { phases = slice_set self.old.phases shared.0 phase; shared_bytes = bytes_in_phase self.old.shared_bytes shared.0 phase } }
    {
        take_bytes(&mut self.bytes, shared.0, phase);
        self.phases[shared.0 as usize] = phase;
    }

    /// The shared heap has so many bytes more.
    pub fn grow(&mut self, shared: SharedId, bytes: u64)
        requires there { shared.0 < length self.old.phases }
        requires sum { slice_index self.old.shared_bytes shared.0 + bytes < 2 ^ 64 }
        ensures { self.new ≡ record self.old { shared_bytes = slice_set self.old.shared_bytes shared.0 (slice_index self.old.shared_bytes shared.0 + bytes) } }
    {
        self.bytes[shared.0 as usize] += bytes;
    }

    /// The process has ended.
    #[tactic(auto, using(crate::proofs::BitTests::ends))]
    pub fn end(&mut self, pid: Pid)
        requires there { pid.0 < self.old.procs }
        requires lives { IsFalse (among pid.0 self.old.ended) }
        ensures ended { GainsEnded self.old.ended self.new.ended pid.0 }
        ensures rest { self.new ≡ record self.old { ended = self.new.ended } }
    {
        self.alive[pid.0 as usize] = false;
        self.living -= 1;
    }
}
