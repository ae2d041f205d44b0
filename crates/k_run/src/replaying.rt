//! The operations of a trace, done in the order of the file on the caller's thread.
ghost use Rattle.std.specs.Prelude.{◌≡◌};
ghost use Rattle.k_opening.specs.k_outcome.Ends.{journal_of};
ghost use Rattle.k_run.specs.Runs.{IsRunOf};
ghost use Rattle.k_opening.specs.Stills.{IsOpenedStill};
ghost use Rattle.k_trace.specs.Named.{NamedTrace};
ghost use Rattle.k_types.specs.FileOrder.{file_order};

use k_opening::{FirstCells, Outcome, Still, outcome_of};

/// Does the operations of the trace in the order of the file, each with all its events, then what comes last where every process has
/// ended, and shows the end. There are no locks, and it takes no memory.
pub fn replay(still: Still) -> Outcome
    ghost named: { NamedTrace }
    requires { IsOpenedStill named still }
    ensures run { IsRunOf named result }
    ensures journal { journal_of result ≡ file_order named.trace }
{
    let Still { cells, rooms } = still;
    let FirstCells {
        setup,
        names,
        order,
        mut heaps,
    } = cells;
    k_complete::replay(&mut heaps, &order);
    outcome_of(names, setup, heaps, rooms)
}
