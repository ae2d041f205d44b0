//! Cells that give themselves away: a process that ends, a shared heap that is absorbed.
ghost use Rattle.std.specs.Prelude.{[], ◌++◌, ◌∷◌, ◌≡◌, ℕ, IsTrue};
ghost use Rattle.k_agree.specs.Agreement.{BookAgrees, Shows};
ghost use Rattle.k_agree.specs.GivingAway.{HasTakenIn, absorbed_cell, ended_cell, with_one_done};
ghost use Rattle.k_laws.specs.Changes.{MayAbsorb, MayExit};
ghost use Rattle.k_tie.specs.Values.{JournalValue};
ghost use Rattle.k_laws.specs.k_types.Agree.{BookValue, CellValue};
ghost use Rattle.k_laws.specs.k_types.Effects.{after_absorbed, after_end_of};
ghost use Rattle.k_laws.specs.k_types.Owners.{owner_of, shared, user};
ghost use Rattle.k_laws.specs.k_types.Sound.{IsSound};
ghost use Rattle.k_laws.specs.k_types.State.{State};
ghost use Rattle.k_laws.specs.k_types.Steps.{IsPossible, state_after};
ghost use Rattle.k_laws.specs.k_types.Trace.{Trace};
ghost use Rattle.k_laws.specs.k_types.TraceRules.{AreLimits};
ghost use Rattle.k_laws.specs.k_types.declared.event.Event.TheVariants.{Absorbed, Done};
ghost use Rattle.k_laws.specs.k_types.declared.event.Reply.{Reply};
ghost use Rattle.k_laws.specs.k_types.declared.names.CellPhase.TheVariants.{Idle};
ghost use Rattle.k_laws.specs.k_types.declared.names.Heap.TheVariants.{Kernel};
ghost use Rattle.k_laws.specs.k_types.declared.names.Pid.{Pid};
ghost use Rattle.k_laws.specs.k_types.declared.names.SharedId.{SharedId};
ghost use Rattle.k_laws.specs.k_types.declared.op.Op.TheVariants.{Exit, Kill};
ghost use Rattle.k_laws.specs.k_types.Replies.{ends_other};

/// At the end of a process its cell is emptied and the kernel's has taken in what was there. No collection of either is open.
pub fn cells_show_the_end_of_a_process()
    ensures cell { (trace : Trace) (st : State) (p : ℕ) (heap : CellValue) → IsSound trace st → MayExit trace st p →
        Shows trace st (user p) heap → heap.collection ≡ Idle → Shows trace (after_end_of trace p st) (user p) (ended_cell heap) }
    ensures kernel { (trace : Trace) (st : State) (p : ℕ) (heap kernel after : CellValue) → IsSound trace st → MayExit trace st p →
        Shows trace st (user p) heap → Shows trace st Kernel kernel → kernel.collection ≡ Idle →
        HasTakenIn (owner_of trace st) (user p) heap kernel after → Shows trace (after_end_of trace p st) Kernel after }
{}

/// An absorption does the same with the shared heap's cell.
pub fn cells_show_an_absorption()
    ensures cell { (trace : Trace) (st : State) (s : ℕ) (heap : CellValue) → IsSound trace st → MayAbsorb trace st s →
        Shows trace st (shared s) heap → heap.collection ≡ Idle →
        Shows trace (after_absorbed trace s st) (shared s) (absorbed_cell heap) }
    ensures kernel { (trace : Trace) (st : State) (s : ℕ) (heap kernel after : CellValue) → IsSound trace st →
        MayAbsorb trace st s → Shows trace st (shared s) heap → Shows trace st Kernel kernel → kernel.collection ≡ Idle →
        HasTakenIn (owner_of trace st) (shared s) heap kernel after → Shows trace (after_absorbed trace s st) Kernel after }
{}

/// The cells that an absorption touches show the state after its event.
pub fn cells_show_the_event_of_an_absorption()
    ensures cell { (trace : Trace) (journal : JournalValue) (s : SharedId) (heap : CellValue) (book : BookValue) → AreLimits trace →
        BookAgrees trace journal book → IsPossible trace (state_after trace journal.list) (Absorbed s) →
        Shows trace (state_after trace journal.list) (shared s.0) heap → heap.collection ≡ Idle →
        Shows trace (state_after trace (journal.list ++ Absorbed s ∷ [])) (shared s.0) (absorbed_cell heap) }
    ensures kernel { (trace : Trace) (journal : JournalValue) (s : SharedId) (heap kernel after : CellValue) (book : BookValue) →
        AreLimits trace → BookAgrees trace journal book → IsPossible trace (state_after trace journal.list) (Absorbed s) →
        Shows trace (state_after trace journal.list) (shared s.0) heap → Shows trace (state_after trace journal.list) Kernel kernel →
        kernel.collection ≡ Idle → HasTakenIn (owner_of trace (state_after trace journal.list)) (shared s.0) heap kernel after →
        Shows trace (state_after trace (journal.list ++ Absorbed s ∷ [])) Kernel after }
{}

/// The cells that an exit touches show the state after its event: it counts also as an operation done.
pub fn cells_show_the_event_of_an_exit()
    ensures cell { (trace : Trace) (journal : JournalValue) (pid : Pid) (said : Reply) (heap : CellValue) (book : BookValue) → AreLimits trace →
        BookAgrees trace journal book → IsPossible trace (state_after trace journal.list) (Done pid Exit said) →
        Shows trace (state_after trace journal.list) (user pid.0) heap → heap.collection ≡ Idle →
        Shows trace (state_after trace (journal.list ++ Done pid Exit said ∷ [])) (user pid.0) (with_one_done (ended_cell heap)) }
    ensures kernel { (trace : Trace) (journal : JournalValue) (pid : Pid) (said : Reply) (heap kernel after : CellValue) (book : BookValue) →
        AreLimits trace → BookAgrees trace journal book → IsPossible trace (state_after trace journal.list) (Done pid Exit said) →
        Shows trace (state_after trace journal.list) (user pid.0) heap → Shows trace (state_after trace journal.list) Kernel kernel →
        kernel.collection ≡ Idle → HasTakenIn (owner_of trace (state_after trace journal.list)) (user pid.0) heap kernel after →
        Shows trace (state_after trace (journal.list ++ Done pid Exit said ∷ [])) Kernel after }
{}

/// The cells that a kill touches where it ends its target show the state after its event: the operation counts in the cell of the
/// process that asks, and the target's cell and the kernel's are as after the end of the target.
pub fn cells_show_the_event_of_a_kill()
    ensures own { (trace : Trace) (journal : JournalValue) (pid target : Pid) (said : Reply) (own : CellValue) (book : BookValue) →
        AreLimits trace → BookAgrees trace journal book → IsPossible trace (state_after trace journal.list) (Done pid (Kill target) said) →
        IsTrue (ends_other trace (state_after trace journal.list) pid.0 target.0) →
        Shows trace (state_after trace journal.list) (user pid.0) own → own.collection ≡ Idle →
        Shows trace (state_after trace (journal.list ++ Done pid (Kill target) said ∷ [])) (user pid.0) (with_one_done own) }
    ensures target { (trace : Trace) (journal : JournalValue) (pid target : Pid) (said : Reply) (heap : CellValue) (book : BookValue) →
        AreLimits trace → BookAgrees trace journal book → IsPossible trace (state_after trace journal.list) (Done pid (Kill target) said) →
        IsTrue (ends_other trace (state_after trace journal.list) pid.0 target.0) →
        Shows trace (state_after trace journal.list) (user target.0) heap → heap.collection ≡ Idle →
        Shows trace (state_after trace (journal.list ++ Done pid (Kill target) said ∷ [])) (user target.0) (ended_cell heap) }
    ensures kernel { (trace : Trace) (journal : JournalValue) (pid target : Pid) (said : Reply) (heap kernel after : CellValue) (book : BookValue) →
        AreLimits trace → BookAgrees trace journal book → IsPossible trace (state_after trace journal.list) (Done pid (Kill target) said) →
        IsTrue (ends_other trace (state_after trace journal.list) pid.0 target.0) →
        Shows trace (state_after trace journal.list) (user target.0) heap → Shows trace (state_after trace journal.list) Kernel kernel →
        kernel.collection ≡ Idle → HasTakenIn (owner_of trace (state_after trace journal.list)) (user target.0) heap kernel after →
        Shows trace (state_after trace (journal.list ++ Done pid (Kill target) said ∷ [])) Kernel after }
{}
