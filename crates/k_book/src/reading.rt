//! What the book answers.
ghost use Rattle.std.specs.Prelude.{◌≡◌, ◌<◌, ◌≤◌, ◌^◌, not, IsTrue, length, option_map, slice_index, slice_index_or};
ghost use Rattle.k_types.specs.Counted.{counted};
ghost use Rattle.k_types.specs.Limits.{ancestors_of, max_of};
ghost use Rattle.k_types.specs.Names.{among};
ghost use Rattle.k_types.specs.Owners.{phase_of};
ghost use Rattle.k_types.specs.State.{has_share};
ghost use Rattle.k_entry.specs.Entries.{AreEntries, home_of};
ghost use Rattle.k_limits.specs.Limits.{use_at};
ghost use Rattle.k_shares.specs.Sharers.{heap_number, living_of, lowest_orphan};
ghost use Rattle.k_book.specs.Books.{book_entries, book_limits, book_pins};

use crate::parts::Book;
use k_types::{Heap, LimitId, Name, Phase, Pid, Seg, SharedId};

impl Book {
    /// The heap that owns the segment.
    pub fn owner(&self, seg: Seg) -> Heap
        requires { seg.0 < length self.now.value.homes }
        ensures { result ≡ home_of self.now.value.homes seg.0 }
    {
        self.entered.home(seg)
    }

    /// Whether the process has not ended.
    pub fn lives(&self, pid: Pid) -> bool
        requires { pid.0 < length self.now.procs }
        ensures { result ≡ not (among pid.0 self.now.value.ended) }
    {
        let _processes = &self.of_process;
        self.table.lives(pid)
    }

    /// The number of processes that have not ended.
    pub fn living(&self) -> u32
        ensures { result ≡ living_of self.now.value.ended (length self.now.procs) }
    {
        let _processes = &self.of_process;
        self.table.living()
    }

    /// Into how many objects exit items lead. Constant time.
    pub fn entry_count(&self) -> u32
        ensures { result ≡ length self.now.value.entries }
    {
        self.entered.entry_count()
    }

    /// Whether the process shares the heap, and so pays for it.
    pub fn shares(&self, pid: Pid, shared: SharedId) -> bool
        requires process { pid.0 < length self.now.procs }
        requires heap { shared.0 < length self.now.value.phases }
        ensures { result ≡ has_share self.now.value.shares pid.0 shared.0 }
    {
        self.table.has(pid, shared)
    }

    /// The bytes of the shared heap, of which each sharer is charged all.
    pub fn bytes_of(&self, shared: SharedId) -> u64
        requires { shared.0 < length self.now.value.phases }
        ensures { result ≡ slice_index self.now.value.shared_bytes shared.0 }
    {
        self.table.bytes_of(shared)
    }

    /// The phase of the shared heap.
    pub fn phase_of(&self, shared: SharedId) -> Phase
        requires { shared.0 < length self.now.value.phases }
        ensures { result ≡ phase_of self.now.value.phases shared.0 }
    {
        self.table.phase_of(shared)
    }

    /// The shared heap of the lowest number that was made, isn't absorbed and has no sharer.
    pub fn first_orphan(&self) -> Option<SharedId>
        ensures { option_map heap_number result ≡ lowest_orphan self.now.value.phases self.now.value.shares }
    {
        self.table.first_orphan()
    }

    /// The bytes in use at the limit.
    pub fn use_of(&self, limit: LimitId) -> u64
        requires { limit.0 < length self.now.rows }
        ensures sum { result ≡ use_at (book_limits self.now) limit.0 }
        ensures fits { result ≤ max_of (book_limits self.now).rows limit.0 }
    {
        self.limits.use_of(limit)
    }

    /// The most bytes that may be in use at the limit.
    pub fn max_of(&self, limit: LimitId) -> u64
        requires { limit.0 < length self.now.rows }
        ensures value { result ≡ max_of (book_limits self.now).rows limit.0 }
        ensures small { result < 2 ^ 40 }
    {
        self.limits.max_of(limit)
    }

    /// Whether `upper` is an ancestor of `lower`. No limit is its own ancestor.
    pub fn below(&self, lower: LimitId, upper: LimitId) -> bool
        requires { lower.0 < length self.now.rows }
        ensures above { result ≡ among upper.0 (ancestors_of self.now.rows lower.0) }
        ensures before { IsTrue result → upper.0 < lower.0 }
    {
        self.limits.below(lower, upper)
    }

    /// The limit of the process.
    pub fn limit_of(&self, pid: Pid) -> LimitId
        requires { pid.0 < length self.now.procs }
        ensures { result ≡ slice_index_or self.now.procs pid.0 (record { 0 = 0 }) }
    {
        self.of_process[pid.0 as usize]
    }

    /// The most bytes that the kernel heap may have for an allocation in it.
    pub fn ceiling(&self) -> u64
        ensures { result ≡ self.now.ceiling }
    {
        self.ceiling
    }

    /// The number of processes.
    pub fn procs(&self) -> u32
        ensures { result ≡ length self.now.procs }
    {
        let _processes = &self.of_process;
        self.table.procs()
    }

    /// The number of shared heaps.
    pub fn shared_heaps(&self) -> u32
        ensures { result ≡ length self.now.value.phases }
    {
        self.table.shared_heaps()
    }

    /// How many heaps have an exit item to the object.
    pub fn entries(&self, target: Name) -> u32
        ensures count { result ≡ counted self.now.value.entries target }
        ensures items { AreEntries (book_entries self.now) }
    {
        self.entered.entries(target)
    }

    /// How many registers of other processes than its owner hold the object.
    pub fn pins(&self, target: Name) -> u32
        ensures count { result ≡ counted self.now.value.pins target }
        ensures items { AreEntries (book_pins self.now) }
    {
        self.entered.pins(target)
    }

    /// Whether the last collection of the kernel has begun.
    pub fn is_closed(&self) -> bool
        ensures { result ≡ self.now.value.closed }
    {
        self.closed
    }
}
