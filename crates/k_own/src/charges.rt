//! The charge of a process at its end: its shares go, and all that it was charged is credited.
ghost use Rattle.std.specs.Prelude.{◌≡◌, ◌+◌, ◌-◌, ◌<◌, ◌≤◌, ◌^◌, ◌==◌, ◌&&◌, ℕ, not, IsTrue, length, slice_index, slice_set, if◌then◌else◌};
ghost use Rattle.k_types.specs.Owners.{object_bytes};
ghost use Rattle.k_types.specs.State.{has_share};
ghost use Rattle.k_types.specs.Totals.{total};
ghost use Rattle.k_commit.specs.k_book.Calls.{ChangesShares};
ghost use Rattle.k_shares.specs.Sharers.{LosesShare};
ghost use Rattle.k_own.specs.Charges.{HasCredited, bytes_if_shared, bytes_shared, LosesShares, limit_in};

use k_commit::{Book, HeapCell};
use k_types::{Pid, SharedId};

/// Credits all that the process is charged at its limit, and drops its shares. The cost is in proportion to the number of shared
/// heaps.
pub(crate) fn credit_charge(cell: &HeapCell, book: &mut Book)
    requires process { cell.now.pid.0 < length book.old.procs }
    requires limit { limit_in book.old cell.now.pid.0 < length book.old.rows }
    requires shared { (t : ℕ) → IsTrue (has_share book.old.value.shares cell.now.pid.0 t) → t < length book.old.value.phases }
    requires charged { total object_bytes cell.now.value.objects + bytes_shared book.old.value cell.now.pid.0 (length book.old.value.phases) ≤ slice_index book.old.value.direct (limit_in book.old cell.now.pid.0) }
    requires small { slice_index book.old.value.direct (limit_in book.old cell.now.pid.0) < 2 ^ 64 }
    ensures { HasCredited book.old book.new cell.now.pid.0 (total object_bytes cell.now.value.objects + bytes_shared book.old.value cell.now.pid.0 (length book.old.value.phases)) }
{
    let pid = cell.pid();
    let bytes = cell.bytes() + drop_shares(book, pid);
    book.credit(book.limit_of(pid), bytes);
}

/// Drops the shares of the process, and gives the bytes of the heaps that it shared, each in full.
fn drop_shares(book: &mut Book, pid: Pid) -> u64
    requires process { pid.0 < length book.old.procs }
    requires shared { (t : ℕ) → IsTrue (has_share book.old.value.shares pid.0 t) → t < length book.old.value.phases }
    requires small { bytes_shared book.old.value pid.0 (length book.old.value.phases) < 2 ^ 64 }
    ensures bytes { result ≡ bytes_shared book.old.value pid.0 (length book.old.value.phases) }
    ensures shares { LosesShares book.old.value.shares book.new.value.shares pid.0 }
    ensures rest { ChangesShares book.old book.new }
{
    let mut bytes = 0;
    for s in 0..book.shared_heaps() {
        bytes += drop_share(book, pid, SharedId(s));
    }
    bytes
}

/// Drops the share of the process in the heap if there is one, and gives what it was charged for it.
fn drop_share(book: &mut Book, pid: Pid, shared: SharedId) -> u64
    requires process { pid.0 < length book.old.procs }
    requires heap { shared.0 < length book.old.value.phases }
    ensures bytes { result ≡ bytes_if_shared book.old.value pid.0 shared.0 }
    ensures shares { LosesShare book.old.value.shares book.new.value.shares pid.0 shared.0 }
    ensures rest { ChangesShares book.old book.new }
{
    if !book.shares(pid, shared) {
        return 0;
    }
    book.drop_share(pid, shared);
    book.bytes_of(shared)
}
