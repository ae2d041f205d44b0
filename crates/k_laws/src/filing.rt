//! The history in the order of the file: it is legal and complete.
ghost use Rattle.k_types.specs.Complete.{IsComplete};
ghost use Rattle.k_types.specs.FileOrder.{file_order};
ghost use Rattle.k_types.specs.Steps.{IsLegalHistory};
ghost use Rattle.k_types.specs.Trace.{Trace};
ghost use Rattle.k_types.specs.TraceRules.{AreOperations};

/// The history in the order of the file is legal and complete for every trace whose operations keep the rules: it does the
/// operations of each process in order, up to its end where another ends it, absorbs the orphans before each collection of the
/// kernel, ends each collection that it begins, and where every process has ended it closes.
pub fn the_file_order_is_legal_and_complete()
    ensures legal { (trace : Trace) → AreOperations trace → IsLegalHistory trace (file_order trace) }
    ensures complete { (trace : Trace) → AreOperations trace → IsComplete trace (file_order trace) }
{}
