//! What becomes of the exit items that are kept back for the ends of processes, and of the number of objects.
ghost use Rattle.std.specs.Prelude.{◌≡◌, ℕ, ◌+◌, ◌≤◌, ◌++◌, List, length};
ghost use Rattle.k_types.specs.declared.event.Event.{Event};
ghost use Rattle.k_types.specs.declared.names.Heap.TheVariants.{User};
ghost use Rattle.k_types.specs.declared.names.Pid.{Pid};
ghost use Rattle.k_types.specs.Agree.{BookValue, CellValue};
ghost use Rattle.k_types.specs.Effects.{step};
ghost use Rattle.k_types.specs.State.{State};
ghost use Rattle.k_types.specs.Steps.{IsLegalHistory, IsPossible, state_after};
ghost use Rattle.k_types.specs.Trace.{Trace};
ghost use Rattle.k_tie.specs.Values.{JournalValue, NoteValue};
ghost use Rattle.k_agree.specs.Agreement.{Agrees, BookAgrees};
ghost use Rattle.k_agree.specs.Meeting.{Fits};
ghost use Rattle.k_book.specs.Objects.{gone_by, made_by, objects_after, objects_told};
ghost use Rattle.k_guests.specs.Reserve.{Spares, kept_for};

/// The kernel's heap has exit items, and for each process that lives so many more are kept back, since what the process has becomes
/// the kernel's when it ends. Both together are never more than all that the kernel's heap can have: each event that is possible
/// leaves them so, unless it is a store into the kernel's heap that finds none free, or ends a process that has more than are kept back
/// for it. What a process publishes leaves them so too.
pub fn what_is_kept_back_is_enough()
    ensures event { (trace : Trace) (each all : ℕ) (st : State) → kept_for trace each st ≤ all → (event : Event) → IsPossible trace st event →
        Spares trace each all st event → kept_for trace each (step trace st event) ≤ all }
    ensures published { (trace : Trace) (each all : ℕ) (journal : JournalValue) (book : BookValue) (pid : Pid) (note : NoteValue) (value : CellValue) →
        Agrees trace (User pid) note value → BookAgrees trace journal book → Fits journal note →
        kept_for trace each (state_after trace journal.list) ≤ all → kept_for trace each (state_after trace (journal.list ++ value.tail)) ≤ all }
{}

/// An event makes an object where its reply names one, and frees as many as it says. So the events of a history tell how many objects the
/// machine has after it. What a process publishes makes and frees none.
pub fn objects_come_and_go()
    ensures event { (trace : Trace) (st : State) (event : Event) → IsPossible trace st event →
        length (step trace st event).objects + gone_by event ≡ length st.objects + made_by event }
    ensures told { (trace : Trace) (history : List Event) → IsLegalHistory trace history → objects_after trace history ≡ objects_told history }
    ensures published { (trace : Trace) (history : List Event) (pid : Pid) (note : NoteValue) (value : CellValue) →
        Agrees trace (User pid) note value → IsLegalHistory trace (history ++ value.tail) →
        objects_after trace (history ++ value.tail) ≡ objects_after trace history }
{}
