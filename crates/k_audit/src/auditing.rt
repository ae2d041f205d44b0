//! The audit of a snapshot.
ghost use Rattle.std.specs.Prelude.{◌<◌, ◌-◌, ◌^◌, [], IfOk, IfNone, IfSome, length};
ghost use Rattle.k_state.specs.Setups.{AreSetupRules};
ghost use Rattle.k_types.specs.Trace.{trace_of};
ghost use Rattle.k_text.specs.Named.{AreNamed};
ghost use Rattle.k_reports.specs.Spelled.{AreProper};
ghost use Rattle.k_audit.specs.Grammar.{IsSpelledSnap};
ghost use Rattle.k_audit.specs.Judged.{AreHeld, IsJudged};
ghost use Rattle.k_audit.specs.Verdicts.{IsVerdict};

use crate::claims::Claimed;
use crate::errors::SnapshotError;
use crate::points::{are_exits, are_guarded, are_numbered, has_no_dangling};
use crate::reading::{Snapshot, read_snapshot};
use crate::remains::{are_gone, are_phases};
use crate::sums::{claims_are, uses_fit};
use crate::verdicts::Verdict;
use k_io::NoMemory;
use k_state::PlainLists;
use k_trace::Names;
use k_types::Setup;
use std::alloc::Global;

/// The number of the lowest point from the second on that does not hold.
fn lowest_false(lists: &PlainLists, claims: &Claimed) -> Option<u32>
    requires { AreHeld lists.now claims.now }
    ensures { IsJudged lists.now.setup (record { state = lists.now.state; claims = claims.now }) result }
{
    if !has_no_dangling(lists) {
        Some(2)
    } else if !are_guarded(lists) {
        Some(3)
    } else if !are_exits(lists) {
        Some(4)
    } else if !are_gone(lists) {
        Some(5)
    } else if !are_phases(lists) {
        Some(6)
    } else if !uses_fit(lists) {
        Some(7)
    } else if !claims_are(lists, claims) {
        Some(8)
    } else {
        None
    }
}

/// The number of the lowest point that does not hold.
fn judge(alloc: Global, setup: &Setup, snapshot: Snapshot) -> Result<Option<u32>, NoMemory>
    requires rules { AreSetupRules (trace_of setup.now [] []) }
    requires spelled { IsSpelledSnap (trace_of setup.now [] []) snapshot }
    requires few { (length snapshot.state.objects < 2 ^ 32) × (length snapshot.state.exits < 2 ^ 32) }
    ensures { IfOk result (IsJudged (trace_of setup.now [] []) snapshot) }
{
    if !are_numbered(&snapshot.state) {
        return Ok(Some(1));
    }
    let Snapshot { state, claims } = snapshot;
    let lists = PlainLists::of(alloc, setup, state)?;
    Ok(lowest_false(&lists, &claims))
}

/// What the audit answers of the bytes, over the header of a trace: whether they are the text of a snapshot, and whether what it says
/// is sound and its claims are so.
///
/// Reads each line a fixed number of times, and finds objects and exit items by halving. `NoMemory` comes where what was read finds no
/// room.
pub fn audit(alloc: Global, setup: &Setup, names: &Names, bytes: &[u8]) -> Result<Verdict, NoMemory>
    requires rules { AreSetupRules (trace_of setup.now [] []) }
    requires named { AreNamed names.now (trace_of setup.now [] []) }
    requires proper { AreProper names.now }
    requires few { length bytes.now < 2 ^ 32 - 1 }
    ensures { IfOk result (IsVerdict names.now (trace_of setup.now [] []) bytes.now) }
{
    let snapshot = match read_snapshot(alloc, setup, names, bytes) {
        Ok(snapshot) => snapshot,
        Err(SnapshotError::Bad(line)) => return Ok(Verdict::Line(line)),
        Err(SnapshotError::NoMemory(error)) => return Err(error),
    };
    match judge(alloc, setup, snapshot)? {
        Some(point) => Ok(Verdict::Point(point)),
        None => Ok(Verdict::Sound),
    }
}
