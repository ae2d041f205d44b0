//! The changes of a state that touch one place.
ghost use Rattle.std.specs.Prelude.{◌≡◌, ◌<◌, ◌-◌, ◌^◌, OnErr, OnOk, length, slice_index_or};
ghost use Rattle.k_types.specs.Bounds.{maximum_below};
ghost use Rattle.k_types.specs.Known.{IsKnownPhase};
ghost use Rattle.k_types.specs.Trace.{process_count};
ghost use Rattle.k_types.specs.Updates.{
  add_share,
  clear_registers,
  close,
  close_scan,
  count_done,
  end_process,
  open_scan,
  set_max,
  set_phase,
  set_register,
};

use crate::items::{Scan, Share, has_share};
use crate::lists::PlainLists;
use crate::registers::Registers;
use k_types::{Heap, LimitId, Name, NoMemory, Phase, Pid, Reg, SharedId};

impl PlainLists {
    /// One more operation of the process is done.
    #[tactic(auto, unfolding(k_types::specs::Updates::count_done))]
    pub fn count_done(&mut self, pid: Pid)
        requires process { pid.0 < process_count self.old.setup }
        requires room { slice_index_or self.old.state.done pid.0 0 < 2 ^ 32 - 1 }
        ensures setup { self.new.setup ≡ self.old.setup }
        ensures state { self.new.state ≡ count_done pid.0 self.old.state }
    {
        self.done[pid.0 as usize] += 1;
    }

    /// The register of the process holds the value.
    #[tactic(auto, unfolding(k_types::specs::Updates::set_register))]
    pub fn set_register(&mut self, pid: Pid, r: Reg, value: Option<Name>)
        requires process { pid.0 < process_count self.old.setup }
        requires register { r.0 < 16 }
        ensures setup { self.new.setup ≡ self.old.setup }
        ensures state { self.new.state ≡ set_register pid.0 r.0 value self.old.state }
    {
        let registers = &mut self.registers[pid.0 as usize];
        registers.set(r, value);
    }

    /// The registers of the process are null.
    #[tactic(auto, unfolding(k_types::specs::Updates::clear_registers))]
    pub fn clear_registers(&mut self, pid: Pid)
        requires { pid.0 < process_count self.old.setup }
        ensures setup { self.new.setup ≡ self.old.setup }
        ensures state { self.new.state ≡ clear_registers pid.0 self.old.state }
    {
        self.registers[pid.0 as usize] = Registers::null();
    }

    /// The shared heap has the phase.
    #[tactic(auto, unfolding(k_types::specs::Updates::set_phase))]
    pub fn set_phase(&mut self, shared: SharedId, phase: Phase)
        requires heap { shared.0 < self.old.setup.shared_heaps }
        requires phase { IsKnownPhase self.old.setup phase }
        ensures setup { self.new.setup ≡ self.old.setup }
        ensures state { self.new.state ≡ set_phase shared.0 phase self.old.state }
    {
        self.phases[shared.0 as usize] = phase;
    }

    /// The limit has the maximum from now on.
    #[tactic(auto, unfolding(k_types::specs::Updates::set_max))]
    pub fn set_max(&mut self, limit: LimitId, max: u64)
        requires limit { limit.0 < length self.old.setup.limits }
        requires small { max < maximum_below }
        ensures setup { self.new.setup ≡ self.old.setup }
        ensures state { self.new.state ≡ set_max limit.0 max self.old.state }
    {
        self.maxima[limit.0 as usize] = max;
    }

    /// The process shares the heap, if it does not yet. `NoMemory` comes where the share finds no memory, and leaves the state
    /// as it was.
    #[tactic(auto, unfolding(k_types::specs::Updates::add_share))]
    pub fn add_share(&mut self, pid: Pid, shared: SharedId) -> Result<(), NoMemory>
        ensures setup { self.new.setup ≡ self.old.setup }
        ensures ok { OnOk result (self.new.state ≡ add_share pid.0 shared.0 self.old.state) }
        ensures err { OnErr result (self.new ≡ self.old) }
    {
        if !has_share(&self.shares, pid, shared) {
            self.shares.push(Share::of(pid, shared))?;
        }
        Ok(())
    }

    /// The process counts as ended. `NoMemory` comes where its number finds no memory, and leaves the state as it was.
    #[tactic(auto, unfolding(k_types::specs::Updates::end_process))]
    pub fn end_process(&mut self, pid: Pid) -> Result<(), NoMemory>
        ensures setup { self.new.setup ≡ self.old.setup }
        ensures ok { OnOk result (self.new.state ≡ end_process pid.0 self.old.state) }
        ensures err { OnErr result (self.new ≡ self.old) }
    {
        self.ended.push(pid.0)?;
        Ok(())
    }

    /// A collection of the heap is open, with these roots. `NoMemory` comes where it finds no memory, and leaves the state as
    /// it was.
    #[tactic(auto, unfolding(k_types::specs::Updates::open_scan))]
    pub fn open_scan(&mut self, heap: Heap, roots: Vec<Name>) -> Result<(), NoMemory>
        ensures setup { self.new.setup ≡ self.old.setup }
        ensures ok { OnOk result (self.new.state ≡ open_scan heap roots.items self.old.state) }
        ensures err { OnErr result (self.new ≡ self.old) }
    {
        self.scans.insert(0, Scan::of(heap, roots))?;
        Ok(())
    }

    /// No collection of the heap is open.
    #[tactic(auto, unfolding(k_types::specs::Updates::close_scan))]
    pub fn close_scan(&mut self, heap: Heap)
        ensures setup { self.new.setup ≡ self.old.setup }
        ensures state { self.new.state ≡ close_scan heap self.old.state }
    {
        self.scans.retain(|scan| !scan.is_of(heap));
    }

    /// The last collection has begun.
    #[tactic(auto, unfolding(k_types::specs::Updates::close))]
    pub fn close(&mut self)
        ensures setup { self.new.setup ≡ self.old.setup }
        ensures state { self.new.state ≡ close self.old.state }
    {
        self.closed = true;
    }
}
