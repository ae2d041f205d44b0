//! How large the tables can get, by what the history has done.
ghost use Rattle.std.specs.Prelude.{List, if◌then◌else◌, length, slice_index_or, ◌*◌, ◌+◌, ◌==◌, ◌≡◌, ◌≤◌, ◌⊎◌, ℕ};
ghost use Rattle.k_laws.specs.Counts.{
  MadeBy,
  absorbed_count,
  allocation_count,
  allocations,
  begun_count,
  closing_count,
  ended_count,
  exit_count,
  one_if,
  operation_count,
  store_count,
  stores_by,
};
ghost use Rattle.k_types.specs.Distinct.{AreDistinctNames};
ghost use Rattle.k_types.specs.Cells.{entries, pins};
ghost use Rattle.k_types.specs.Owners.{shared, user};
ghost use Rattle.k_types.specs.Steps.{IsLegalHistory, done_by, state_after};
ghost use Rattle.k_types.specs.Totals.{total};
ghost use Rattle.k_types.specs.Trace.{Trace, process_count};
ghost use Rattle.k_types.specs.TraceRules.{AreLimits};
ghost use Rattle.k_types.specs.declared.event.Event.{Event};
ghost use Rattle.k_types.specs.declared.names.Name.{Name};

/// All exit items together are at most the stores of the history. Those of a user heap are at most the stores of its process,
/// and those of a shared heap at most the stores of one process that took it.
pub fn exit_items_are_at_most_the_stores()
    ensures all { (trace : Trace) (history : List Event) → length (state_after trace history).exits ≤ store_count history }
    ensures user { (trace : Trace) (p : ℕ) (history : List Event) → IsLegalHistory trace history →
        exit_count (state_after trace history).exits (user p) ≤ stores_by p history }
    ensures shared { (trace : Trace) (s : ℕ) (history : List Event) → AreLimits trace → IsLegalHistory trace history →
        (exit_count (state_after trace history).exits (shared s) ≡ 0)
        ⊎ ((p : ℕ) × MadeBy trace s history (exit_count (state_after trace history).exits (shared s)) p) }
{}

/// The serials that a segment has given are at most its allocations, and in the kernel's segment one more for the directory.
pub fn serials_are_at_most_the_allocations()
    ensures { (trace : Trace) (history : List Event) (seg : ℕ) →
        slice_index_or (state_after trace history).made seg 0 ≤ one_if (seg == 0) + allocation_count trace seg history }
{}

/// The objects that are there are at most the allocations, and one more for the directory.
pub fn objects_are_at_most_the_allocations()
    ensures { (trace : Trace) (history : List Event) →
        length (state_after trace history).objects ≤ 1 + allocations history }
{}

/// Of the collections that were begun, by a process or by the closing, each has ended once or is still open.
pub fn collections_end_once()
    ensures { (trace : Trace) (history : List Event) → AreLimits trace → IsLegalHistory trace history →
        ended_count history + length (state_after trace history).scans ≡ begun_count history }
{}

/// There are at most as many absorptions as shared heaps, and there is at most one closing.
pub fn heaps_are_absorbed_once()
    ensures absorbed { (trace : Trace) (history : List Event) → IsLegalHistory trace history →
        absorbed_count history ≤ trace.shared_heaps }
    ensures closed { (trace : Trace) (history : List Event) → IsLegalHistory trace history →
        closing_count history ≡ one_if (state_after trace history).closed }
{}

/// A history has at most two events for each operation, one for each shared heap, and two more.
pub fn histories_are_short()
    ensures { (trace : Trace) (history : List Event) → AreLimits trace → IsLegalHistory trace history →
        length history ≤ 2 * operation_count history + trace.shared_heaps + 2 }
{}

/// A process has done as many operations as the history has of it.
pub fn operations_done_are_those_of_the_history()
    ensures { (trace : Trace) (p : ℕ) (history : List Event) → IsLegalHistory trace history →
        slice_index_or (state_after trace history).done p 0 ≡ length (done_by p history) }
{}

/// The pins of distinct objects are together at most 16 for each process, and their entries at most the exit items.
pub fn pins_are_at_most_the_registers()
    ensures pins { (trace : Trace) (history : List Event) (names : List Name) → AreDistinctNames names →
        total (pins trace (state_after trace history)) names ≤ 16 * process_count trace }
    ensures entries { (trace : Trace) (history : List Event) (names : List Name) → AreDistinctNames names →
        total (entries (state_after trace history)) names ≤ length (state_after trace history).exits }
{}
