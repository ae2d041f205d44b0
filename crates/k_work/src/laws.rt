//! What the table comes to, and worked tables.
ghost use Rattle.std.specs.Prelude.{◌≡◌, ◌∷◌, ◌++◌, List, Option, ℕ};
ghost use Rattle.k_types.specs.declared.event.Event.{Event};
ghost use Rattle.k_types.specs.declared.event.Event.TheVariants.{Ended};
ghost use Rattle.k_types.specs.declared.names.Heap.{Heap};
ghost use Rattle.k_types.specs.Steps.{IsLegalHistory};
ghost use Rattle.k_types.specs.Totals.{total};
ghost use Rattle.k_types.specs.Trace.{Trace};
ghost use Rattle.k_types.specs.TraceRules.{AreLimits};
ghost use Rattle.k_work.specs.Beginnings.{Beginning, IsAskedBy, IsCredited};
ghost use Rattle.k_work.specs.Credits.{credits};
ghost use Rattle.k_work.specs.Tables.{ends_in, total_row, work_of};
ghost use Rattle.k_work.specs.Worked.{ended_and_closed, ended_and_closed_lines, file_order_work, kernel_collections, kernel_collections_lines, own_collection, own_collection_lines};

/// Each end of a collection in a legal history is in exactly one row: the rows come to as many as there are, and to their work.
#[tactic(auto, using(crate::proofs::Small::ends_in_rows, crate::proofs::Small::work_in_rows))]
pub fn each_collection_is_in_one_row()
    ensures collections { (trace : Trace) (history : List Event) → AreLimits trace → IsLegalHistory trace history →
        (total_row (work_of trace history)).collections ≡ total ends_in history }
    ensures work { (trace : Trace) (history : List Event) → AreLimits trace → IsLegalHistory trace history →
        (total_row (work_of trace history)).work ≡ total (λ c. c.work) (credits trace history) }
{}

/// Each end of a collection in a legal history is credited to the one whose event began that collection: a process, or the closing.
///
/// Of whichever heap it is, there is exactly one such event: before it no collection of the heap is open, after it one is, and no
/// event since is its end.
pub fn ends_are_credited_to_who_began()
    ensures began { (trace : Trace) (known rest : List Event) (h : Heap) (objects bytes exits shares : ℕ) →
        IsLegalHistory trace (known ++ Ended h objects bytes exits shares ∷ rest) → Beginning trace known h }
    ensures one { (trace : Trace) (history : List Event) (h : Heap) (began other : Beginning trace history h) →
        (began.before ≡ other.before) × (began.event ≡ other.event) }
    ensures credited { (trace : Trace) (known rest : List Event) (h : Heap) (objects bytes exits shares : ℕ) (began : Beginning trace known h) →
        IsLegalHistory trace (known ++ Ended h objects bytes exits shares ∷ rest) →
        (who : Option ℕ) × IsAskedBy began.event who × IsCredited trace known (Ended h objects bytes exits shares) rest h who }
{}

/// The lines of work of a process that collects its own heap, computed by the definitions.
#[tactic(auto, using(crate::proofs::Worked::own_collection_is))]
pub fn own_collection_row()
    ensures { file_order_work own_collection ≡ own_collection_lines }
{}

/// The lines of work where two processes ask for collections of the kernel, computed by the definitions.
#[tactic(auto, using(crate::proofs::Worked::kernel_collections_is))]
pub fn kernel_collections_row()
    ensures { file_order_work kernel_collections ≡ kernel_collections_lines }
{}

/// The lines of work where one who asked is ended by another and the closing collects last, computed by the definitions.
#[tactic(auto, using(crate::proofs::Worked::ended_and_closed_is))]
pub fn ended_and_closed_row()
    ensures { file_order_work ended_and_closed ≡ ended_and_closed_lines }
{}
