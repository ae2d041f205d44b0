//! Processes end once, and segments change their owner once.
ghost use Rattle.std.specs.Prelude.{IsTrue, List, ◌++◌, ◌≡◌, ℕ};
ghost use Rattle.k_laws.specs.Kept.{KeepsOrGives};
ghost use Rattle.k_types.specs.Effects.{step};
ghost use Rattle.k_types.specs.Names.{among};
ghost use Rattle.k_types.specs.Owners.{owner_of};
ghost use Rattle.k_types.specs.State.{State};
ghost use Rattle.k_types.specs.Steps.{state_after};
ghost use Rattle.k_types.specs.Trace.{Trace};
ghost use Rattle.k_types.specs.declared.event.Event.{Event};
ghost use Rattle.k_types.specs.declared.names.Heap.TheVariants.{Kernel};

/// A process that has ended stays ended.
pub fn ended_processes_stay_ended()
    ensures { (trace : Trace) (known rest : List Event) (p : ℕ) → IsTrue (among p (state_after trace known).ended) →
        IsTrue (among p (state_after trace (known ++ rest)).ended) }
{}

/// A segment's owner changes at most once, to the kernel: an event leaves it or gives the segment to the kernel, and what the kernel
/// owns it keeps.
pub fn owners_change_once()
    ensures step { (trace : Trace) (st : State) (event : Event) (seg : ℕ) →
        KeepsOrGives trace st (step trace st event) seg }
    ensures kernel { (trace : Trace) (known rest : List Event) (seg : ℕ) →
        owner_of trace (state_after trace known) seg ≡ Kernel → owner_of trace (state_after trace (known ++ rest)) seg ≡ Kernel }
{}
