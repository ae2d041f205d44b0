//! What the locks keep is what step calls ask.
ghost use Rattle.std.specs.Prelude.{IsFalse, IsTrue, List, [], ◌∷◌, ◌≡◌};
ghost use Rattle.atomic_table.specs.Seated.{TableId};
ghost use Rattle.k_types.specs.Distinct.{AreDistinctNames};
ghost use Rattle.k_commit.specs.Books.{BookRecord, book_entries};
ghost use Rattle.k_laws.specs.Counts.{allocates_in, is_allocation};
ghost use Rattle.k_commit.specs.Holdings.{HoldingsValue};
ghost use Rattle.k_commit.specs.Rooms.{CanOperate, CanOperateWithKernel, CanOperateWithShared};
ghost use Rattle.k_entry.specs.Entries.{AreEntries};
ghost use Rattle.k_commit.specs.Heaps.{HeapRecord, has_ended_in, own_segment};
ghost use Rattle.k_process.specs.Keeping.{BookKeeps, HeapKeeps, KernelKeeps, SharedKeeps, operations_left};
ghost use Rattle.k_commit.specs.SharedHeaps.{SharedRecord};
ghost use Rattle.k_types.specs.Trace.{Trace};
ghost use Rattle.k_types.specs.declared.op.Op.{Op};

/// What the locks keep is enough for the next operation of a living process whose events are published: in its own heap, with the
/// kernel's, and with that of a shared heap, where the operation allocates nowhere else.
pub fn kept_values_can_operate()
    ensures own { (trace : Trace) (table : TableId) (c : HeapRecord) (b : BookRecord) (op : Op) (rest : List Op) → HeapKeeps trace table c → BookKeeps trace table b →
        operations_left trace c ≡ op ∷ rest → c.value.tail ≡ [] → IsFalse (has_ended_in c.value.process) → AreEntries (book_entries b) →
        AreDistinctNames c.value.exits → (IsTrue (is_allocation op) → IsTrue (allocates_in trace (own_segment c.pid) c.pid.0 op)) →
        CanOperate trace c b op }
    ensures kernel { (trace : Trace) (table : TableId) (c : HeapRecord) (k : HoldingsValue) (b : BookRecord) (op : Op) (rest : List Op) → HeapKeeps trace table c →
        KernelKeeps trace table k → BookKeeps trace table b → operations_left trace c ≡ op ∷ rest → c.value.tail ≡ [] →
        IsFalse (has_ended_in c.value.process) → AreEntries (book_entries b) → AreDistinctNames k.value.exits →
        (IsTrue (is_allocation op) → IsTrue (allocates_in trace 0 c.pid.0 op)) → CanOperateWithKernel trace c k b op }
    ensures shared { (trace : Trace) (table : TableId) (c : HeapRecord) (s : SharedRecord) (b : BookRecord) (op : Op) (rest : List Op) → HeapKeeps trace table c →
        SharedKeeps trace table s → BookKeeps trace table b → operations_left trace c ≡ op ∷ rest → c.value.tail ≡ [] →
        IsFalse (has_ended_in c.value.process) → AreEntries (book_entries b) → AreDistinctNames s.value.exits →
        (IsTrue (is_allocation op) → IsTrue (allocates_in trace s.seg.0 c.pid.0 op)) → CanOperateWithShared trace c s b op }
{}
