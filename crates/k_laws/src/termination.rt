//! What the end of a process leaves, credits and passes on.
ghost use Rattle.std.specs.Prelude.{IsTrue, ◌<◌, ◌↔◌, ◌≡◌, ℕ, ◌≢◌};
ghost use Rattle.k_laws.specs.Termination.{CreditsTheCharge, LeavesTheRest, StaysOrPasses};
ghost use Rattle.k_types.specs.Effects.{after_end_of, step};
ghost use Rattle.k_types.specs.Names.{among};
ghost use Rattle.k_types.specs.Replies.{ends_other};
ghost use Rattle.k_types.specs.Sound.{IsSound};
ghost use Rattle.k_types.specs.State.{State, has_exit};
ghost use Rattle.k_types.specs.Steps.{IsPossible};
ghost use Rattle.k_types.specs.Trace.{Trace, process_count};
ghost use Rattle.k_types.specs.TraceRules.{AreLimits};
ghost use Rattle.k_types.specs.Updates.{count_done};
ghost use Rattle.k_types.specs.declared.event.Event.TheVariants.{Done};
ghost use Rattle.k_types.specs.declared.event.Reply.{Reply};
ghost use Rattle.k_types.specs.declared.names.Heap.{Heap};
ghost use Rattle.k_types.specs.declared.names.Name.{Name};
ghost use Rattle.k_types.specs.declared.names.Pid.{Pid};
ghost use Rattle.k_types.specs.declared.op.Op.TheVariants.{Exit, Kill};
ghost use Rattle.k_types.specs.Limits.{is_above};
ghost use Rattle.k_laws.specs.Changes.{MayExit};

/// The end of a process, by its `exit` or by a `kill` that ends it, credits its whole charge: the use of each limit on the path of
/// its limit falls by what the process was charged before, and every other limit's use, and what every other process is charged,
/// stays. Nobody kills itself, and whoever a possible kill ends may end: neither its heap nor the kernel's is scanned.
///
/// Source: KaffeOS paper, on the full reclamation of a process's memory.
pub fn termination_credits_the_whole_charge()
    ensures end { (trace : Trace) (st : State) (p : ℕ) → AreLimits trace → p < process_count trace →
        CreditsTheCharge trace st p (after_end_of trace p st) }
    ensures exit { (trace : Trace) (st : State) (pid : Pid) (said : Reply) → AreLimits trace →
        IsPossible trace st (Done pid Exit said) → CreditsTheCharge trace st pid.0 (step trace st (Done pid Exit said)) }
    ensures kill { (trace : Trace) (st : State) (pid target : Pid) (said : Reply) → AreLimits trace →
        IsPossible trace st (Done pid (Kill target) said) → IsTrue (ends_other trace st pid.0 target.0) →
        CreditsTheCharge trace st target.0 (step trace st (Done pid (Kill target) said)) }
    ensures may { (trace : Trace) (st : State) (pid target : Pid) (said : Reply) →
        IsPossible trace st (Done pid (Kill target) said) → IsTrue (ends_other trace st pid.0 target.0) → MayExit trace st target.0 }
    ensures another { (trace : Trace) (p q : ℕ) → AreLimits trace → q < process_count trace → IsTrue (is_above trace p q) → p ≢ q }
{}

/// The end of a process takes nothing from others: every object and field stays, as do the registers and shares of all other
/// processes. The exit items between its heap and the kernel go, those into shared heaps become the kernel's, and all others
/// stay. A `kill` of a process that has ended changes nothing.
///
/// Source: KaffeOS paper, on merging the heap of a terminated process into the kernel heap.
pub fn termination_leaves_the_rest()
    ensures rest { (trace : Trace) (st : State) (p : ℕ) → IsSound trace st → p < process_count trace →
        LeavesTheRest st p (after_end_of trace p st) }
    ensures exit { (trace : Trace) (st : State) (pid : Pid) (said : Reply) →
        step trace st (Done pid Exit said) ≡ count_done pid.0 (after_end_of trace pid.0 st) }
    ensures kill { (trace : Trace) (st : State) (pid target : Pid) (said : Reply) → IsTrue (ends_other trace st pid.0 target.0) →
        step trace st (Done pid (Kill target) said) ≡ count_done pid.0 (after_end_of trace target.0 st) }
    ensures again { (trace : Trace) (st : State) (pid target : Pid) (said : Reply) → IsTrue (among target.0 st.ended) →
        step trace st (Done pid (Kill target) said) ≡ count_done pid.0 st }
    ensures exits { (trace : Trace) (st : State) (p : ℕ) (h : Heap) (n : Name) → IsSound trace st →
        (IsTrue (has_exit (after_end_of trace p st).exits h n) ↔ StaysOrPasses trace st p h n) }
{}
