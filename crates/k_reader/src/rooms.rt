//! Room for what a limit below the root reserves.
ghost use Rattle.std.specs.Prelude.{◌≡◌, ◌<◌, ◌≤◌, ◌^◌, ◌||◌, not, length, IfOk};
ghost use Rattle.k_limits.specs.k_types.Bounds.{most_limits};
ghost use Rattle.k_trace.specs.Grown.{fits};
ghost use Rattle.k_trace.specs.Outcome.{AreReserved};

use k_io::NoMemory;
use k_limits::{LimitId, LimitRow, LimitTree, MakeError};
use std::alloc::Global;

/// Whether a limit of so many bytes may be added below the parent: a soft one always, a hard one where
/// its maximum fits on the parent's path. The rows are those of the limits that were added before.
pub fn has_room(
    alloc: Global,
    rows: &[LimitRow],
    parent: LimitId,
    hard: bool,
    max: u64,
) -> Result<bool, NoMemory>
    requires rows { AreReserved rows.now }
    requires few { length rows.now ≤ most_limits }
    requires parent { parent.0 < length rows.now }
    requires small { max < 2 ^ 40 }
    ensures { IfOk result (λ room. room ≡ (not hard || fits rows.now parent.0 max)) }
{
    if !hard {
        return Ok(true);
    }
    match LimitTree::make(alloc, rows) {
        Ok(mut tree) => match tree.charge(parent, max) {
            Ok(()) => Ok(true),
            Err(_) => Ok(false),
        },
        Err(MakeError::ReserveFull(_)) => unreachable!(),
        Err(MakeError::NoMemory(refused)) => Err(refused),
    }
}
