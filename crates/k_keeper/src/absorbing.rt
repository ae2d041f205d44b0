//! Absorptions of all shared heaps that nobody shares any more.
ghost use Rattle.std.specs.Prelude.{◌≡◌, ◌+◌, ◌≤◌, Some};
ghost use Rattle.k_shares.specs.Sharers.{lowest_orphan};
ghost use Rattle.k_keeper.specs.Keeping.{IsKept, needed_by_the_kernel};
ghost use Rattle.k_keeper.specs.Kept.{HasNoOrphan, HaveAbsorbed};

use crate::rooms::left_after;
use k_host::Host;
use k_types::SharedId;

/// Absorbs the shared heap, which is the first orphan, and answers how many events are left.
fn absorb_first(host: &mut Host, left: u64, id: SharedId) -> u64
    requires kept { IsKept host.old left }
    requires some { 1 ≤ left }
    requires first { lowest_orphan host.old.book.value.phases host.old.book.value.shares ≡ Some id.0 }
    ensures kept { IsKept host.new result }
    ensures absorbed { HaveAbsorbed host.old host.new left result }
    ensures one { left ≡ result + 1 }
{
    let came = host.absorb(id);
    host.serves();
    left_after(left, 1, &came)
}

/// Absorbs orphans until there is none, and answers how many events are left. No history absorbs a shared heap twice.
pub(crate) fn absorb_all(host: &mut Host, left: u64) -> u64
    requires kept { IsKept host.old left }
    requires enough { needed_by_the_kernel host.old ≤ left }
    ensures kept { IsKept host.new result }
    ensures absorbed { HaveAbsorbed host.old host.new left result }
    ensures none_left { HasNoOrphan host.new }
    ensures enough { 2 ≤ result }
{
    let mut rest = left;
    while let Some(id) = host.first_orphan() {
        rest = absorb_first(host, rest, id);
    }
    rest
}
