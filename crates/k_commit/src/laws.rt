//! What cells and book that have met tell beyond what a step asks.
ghost use Rattle.std.specs.Prelude.{◌+◌, ◌-◌, ◌<◌, ◌^◌, ℕ, length, slice_index_or};
ghost use Rattle.k_book.specs.Books.{BookRecord, book_pins};
ghost use Rattle.k_book.specs.k_entry.Entries.{AreEntries};
ghost use Rattle.k_laws.specs.PartUpdates.{done_in};
ghost use Rattle.k_heap.specs.Heaps.{HeapRecord};
ghost use Rattle.k_heap.specs.Holdings.{HoldingsValue};
ghost use Rattle.k_shared.specs.SharedHeaps.{SharedRecord};
ghost use Rattle.k_types.specs.Counted.{counted};
ghost use Rattle.k_types.specs.Owners.{object_bytes};
ghost use Rattle.k_types.specs.Totals.{total};
ghost use Rattle.k_types.specs.Trace.{Trace};
ghost use Rattle.k_types.specs.declared.event.Event.{Event};
ghost use Rattle.k_types.specs.declared.names.Name.{Name};
ghost use Rattle.k_types.specs.declared.op.Op.{Op};
ghost use Rattle.k_commit.specs.Beside.{HasSteppedWith};
ghost use Rattle.k_commit.specs.Met.{Before, BeforeWith, HaveMet, HaveMetWith, HeapHasMet, KernelHasMet, OtherHasMet, SharedHasMet};
ghost use Rattle.k_commit.specs.Others.{OtherValue, of_kernel, of_shared};
ghost use Rattle.k_commit.specs.Rooms.{HasEventRoom};
ghost use Rattle.k_commit.specs.Standing.{BookStands, HeapStands, KernelStands, SharedStands};
ghost use Rattle.k_commit.specs.Stepped.{HasStepped};

/// Cells and book that stand still do once each cell has met the journal, whichever of two cells meets it first.
pub fn cells_that_met_have_met()
    ensures alone { (trace : Trace) (c cell : HeapRecord) (b book : BookRecord) → BookStands trace b → HeapStands trace c b →
        HeapHasMet trace c cell b book → HaveMet (record { trace = trace; cell = cell; book = book }) }
    ensures kernel { (trace : Trace) (c cell : HeapRecord) (k kernel : HoldingsValue) (b book last : BookRecord) → BookStands trace b →
        HeapStands trace c b → KernelStands trace k b → HeapHasMet trace c cell b book → KernelHasMet trace k kernel book last →
        HaveMetWith (record { own = record { trace = trace; cell = cell; book = last }; other = of_kernel kernel }) }
    ensures shared { (trace : Trace) (c cell : HeapRecord) (s shared : SharedRecord) (b book last : BookRecord) → BookStands trace b →
        HeapStands trace c b → SharedStands trace s b → HeapHasMet trace c cell b book → SharedHasMet trace s shared book last →
        HaveMetWith (record { own = record { trace = trace; cell = cell; book = last }; other = of_shared shared }) }
{}

/// What has stepped since the meeting has stepped since before it.
pub fn steps_began_before_the_meeting()
    ensures alone { (trace : Trace) (op : Op) (c cell w : HeapRecord) (b book l : BookRecord) (event : Event) →
        HeapHasMet trace c cell b book → HasStepped trace op cell w book l event → HasStepped trace op c w b l event }
    ensures beside { (trace : Trace) (op : Op) (c cell w : HeapRecord) (o other x : OtherValue) (b book last l : BookRecord) (event : Event) →
        HeapHasMet trace c cell b book → OtherHasMet trace o other book last →
        HasSteppedWith trace op cell w other x last l event → HasSteppedWith trace op c w o x b l event }
{}

/// What is counted fits its numbers, and the pins have room for one more: the operations that the process has done fit 64 bits, the entries
/// and the pins of an object 32.
pub fn counts_fit()
    ensures done { (before : Before) → HaveMet before → HasEventRoom before.book → done_in before.cell.value.process < 2 ^ 64 - 1 }
    ensures entries { (before : Before) → HaveMet before → (n : Name) → counted before.book.value.entries n < 2 ^ 32 - 1 }
    ensures pins { (before : Before) → HaveMet before → (n : Name) → counted before.book.value.pins n < 2 ^ 32 - 1 }
    ensures pin_room { (before : Before) → HaveMet before → AreEntries (book_pins before.book) → length before.book.value.pins < before.book.pin_room }
{}

/// The bytes of a heap fit 64 bits, with one object more of whatever size.
pub fn bytes_fit()
    ensures heap { (before : Before) → HaveMet before → HasEventRoom before.book → total object_bytes before.cell.value.objects + 144 < 2 ^ 64 }
    ensures beside { (before : BeforeWith) → HaveMetWith before → HasEventRoom before.own.book → total object_bytes before.other.held.value.objects + 144 < 2 ^ 64 }
    ensures charged { (before : Before) → HaveMet before → HasEventRoom before.book → (s : ℕ) → slice_index_or before.book.value.shared_bytes s 0 + 144 < 2 ^ 64 }
{}
