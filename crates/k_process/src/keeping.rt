//! What the locks keep is kept by each step.
ghost use Rattle.std.specs.Prelude.{IsFalse, List, Some, [], length, ◌+◌, ◌-◌, ◌<◌, ◌≡◌, ◌≤◌, ◌∷◌, ◌++◌, ◌^◌};
ghost use Rattle.atomic_table.specs.Seated.{TableId};
ghost use Rattle.k_commit.specs.k_agree.Meeting.{Fits};
ghost use Rattle.k_commit.specs.Books.{BookRecord};
ghost use Rattle.k_commit.specs.Holdings.{HoldingsValue};
ghost use Rattle.k_commit.specs.Beside.{HasSteppedWithKernel, HasSteppedWithShared};
ghost use Rattle.k_commit.specs.Stepped.{HasStepped};
ghost use Rattle.k_laws.specs.PartUpdates.{done_in};
ghost use Rattle.k_commit.specs.Heaps.{HeapRecord, has_ended_in};
ghost use Rattle.k_process.specs.Locals.{HasRegisters, after_local, local_answer};
ghost use Rattle.k_process.specs.Keeping.{BookKeeps, HeapKeeps, KernelKeeps, SharedKeeps, operations_left};
ghost use Rattle.k_commit.specs.SharedHeaps.{SharedRecord};
ghost use Rattle.k_types.specs.Following.{FollowsTrace};
ghost use Rattle.k_types.specs.Trace.{Trace};
ghost use Rattle.k_types.specs.declared.event.Event.{Event};
ghost use Rattle.k_types.specs.declared.event.Reply.{Reply};
ghost use Rattle.k_types.specs.declared.op.Op.{Op};

/// After a step each cell that it touched, and the book, keep what the locks ask, and the process has the other operations left.
pub fn steps_keep_what_the_locks_ask()
    ensures own { (trace : Trace) (tie : TableId) (c w : HeapRecord) (b l : BookRecord) (op : Op) (rest : List Op) (event : Event) → HeapKeeps trace tie c → BookKeeps trace tie b →
        operations_left trace c ≡ op ∷ rest → IsFalse (has_ended_in c.value.process) → HasStepped trace op c w b l event →
        HeapKeeps trace tie w × BookKeeps trace tie l × (operations_left trace w ≡ rest) }
    ensures kernel { (trace : Trace) (tie : TableId) (c w : HeapRecord) (k x : HoldingsValue) (b l : BookRecord) (op : Op) (event : Event) → KernelKeeps trace tie k → BookKeeps trace tie b →
        HasSteppedWithKernel trace op c w k x b l event → KernelKeeps trace tie x }
    ensures shared { (trace : Trace) (tie : TableId) (c w : HeapRecord) (s x : SharedRecord) (b l : BookRecord) (op : Op) (event : Event) → SharedKeeps trace tie s → BookKeeps trace tie b →
        HasSteppedWithShared trace op c w s x b l event → SharedKeeps trace tie x }
{}

/// Once its note fits the journal, a process's unpublished events have room there, and the longer journal follows the trace.
pub fn tails_can_be_published()
    ensures room { (trace : Trace) (tie : TableId) (c : HeapRecord) (b : BookRecord) → HeapKeeps trace tie c → BookKeeps trace tie b → Fits b.journal c.note →
        length b.journal.list + length c.value.tail ≤ b.event_room }
    ensures follows { (trace : Trace) (tie : TableId) (c : HeapRecord) (b : BookRecord) → HeapKeeps trace tie c → BookKeeps trace tie b → Fits b.journal c.note →
        FollowsTrace trace (b.journal.list ++ c.value.tail) }
{}

/// A living process's next operation meets what `local` asks, and where that answers, the cell keeps what its lock asks.
pub fn next_operations_can_be_local()
    ensures registers { (trace : Trace) (tie : TableId) (c : HeapRecord) (op : Op) (rest : List Op) → HeapKeeps trace tie c → operations_left trace c ≡ op ∷ rest → HasRegisters op }
    ensures room { (trace : Trace) (tie : TableId) (c : HeapRecord) (op : Op) (rest : List Op) → HeapKeeps trace tie c → operations_left trace c ≡ op ∷ rest →
        length c.value.tail < c.tail_room }
    ensures count { (trace : Trace) (tie : TableId) (c : HeapRecord) (op : Op) (rest : List Op) → HeapKeeps trace tie c → operations_left trace c ≡ op ∷ rest →
        done_in c.value.process < 2 ^ 64 - 1 }
    ensures keeps { (trace : Trace) (tie : TableId) (c : HeapRecord) (op : Op) (rest : List Op) (said : Reply) → HeapKeeps trace tie c → operations_left trace c ≡ op ∷ rest →
        IsFalse (has_ended_in c.value.process) → local_answer c.value c.pid.0 op ≡ Some said →
        HeapKeeps trace tie (record c { value = after_local c.pid op said c.value }) × (operations_left trace (record c { value = after_local c.pid op said c.value }) ≡ rest) }
{}
