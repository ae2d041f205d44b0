//! The shares that the end of a collection drops.
ghost use Rattle.std.specs.Prelude.{◌≡◌, ◌+◌, ◌<◌, ◌^◌, ◌&&◌, not, length};
ghost use Rattle.std.specs.List.{list_any};
ghost use Rattle.k_types.specs.Bounds.{register_count};
ghost use Rattle.k_types.specs.Numbers.{numbers_below};
ghost use Rattle.k_types.specs.Replies.{is_populating};
ghost use Rattle.k_types.specs.State.{has_share};
ghost use Rattle.k_laws.specs.BookChanges.{registers_in};
ghost use Rattle.k_collect.specs.Unsharing.{CanUnshare, HasUnshared, bytes_lost, lies_in, shares_lost, ways_left};

use k_commit::{Book, HeapCell};
use k_types::{Phase, Pid, REGISTERS, Reg, Seg, SharedId};

/// The shares that went: how many, and the bytes of their heaps.
#[derive(Clone, Copy, Debug)]
pub(crate) struct Unshared {
    pub(crate) shares: u32,
    pub(crate) bytes: u64,
}

/// Whether some register of the process leads into that segment.
fn holds_into(cell: &HeapCell, seg: Seg) -> bool
    requires { length (registers_in cell.now.value.process) ≡ register_count }
    ensures { result ≡ list_any (lies_in seg.0) (registers_in cell.now.value.process) }
{
    for r in 0..REGISTERS {
        if let Some(target) = cell.reg(Reg(r)) {
            if target.seg.0 == seg.0 {
                return true;
            }
        }
    }
    false
}

/// Whether the process populates a shared heap that is in this phase.
fn populates(phase: Phase, pid: Pid) -> bool
    ensures { result ≡ is_populating phase pid.0 }
{
    match phase {
        Phase::Populating(populating) => populating.0 == pid.0,
        Phase::Unmade | Phase::Frozen(_) | Phase::Absorbed => false,
    }
}

/// Whether the process still has a way into the shared heap: a register, an exit item, or that it populates the heap. It passes
/// the registers and the exit items until it finds one.
fn has_way(cell: &HeapCell, book: &Book, shared: SharedId) -> bool
    requires registers { length (registers_in cell.now.value.process) ≡ register_count }
    requires segments { 1 + length book.now.procs + length book.now.value.phases < 2 ^ 32 }
    requires heap { shared.0 < length book.now.value.phases }
    ensures { result ≡ ways_left cell.now.value cell.now.pid.0 book.now shared.0 }
{
    let seg = Seg(1 + book.procs() + shared.0);
    if holds_into(cell, seg) || cell.leads_into(seg) {
        return true;
    }
    populates(book.phase_of(shared), cell.pid())
}

/// Whether the process shares the heap and has no way into it left.
fn loses_share(cell: &HeapCell, book: &Book, shared: SharedId) -> bool
    requires process { cell.now.pid.0 < length book.now.procs }
    requires registers { length (registers_in cell.now.value.process) ≡ register_count }
    requires segments { 1 + length book.now.procs + length book.now.value.phases < 2 ^ 32 }
    requires heap { shared.0 < length book.now.value.phases }
    ensures { result ≡ (has_share book.now.value.shares cell.now.pid.0 shared.0 && not (ways_left cell.now.value cell.now.pid.0 book.now shared.0)) }
{
    book.shares(cell.pid(), shared) && !has_way(cell, book, shared)
}

/// Drops the shares of the process into whose heaps it has no way left. The cost is in proportion to the number of shared heaps, and
/// for each that the process shares to the registers and the exit items that are left.
pub(crate) fn drop_shares(cell: &HeapCell, book: &mut Book) -> Unshared
    requires { CanUnshare cell.now.value cell.now.pid.0 book.old }
    ensures book { HasUnshared (ways_left cell.now.value cell.now.pid.0 book.old) cell.now.pid.0 book.old book.new }
    ensures shares { result.shares ≡ shares_lost (ways_left cell.now.value cell.now.pid.0 book.old) book.old.value cell.now.pid.0 (numbers_below (length book.old.value.phases)) }
    ensures bytes { result.bytes ≡ bytes_lost (ways_left cell.now.value cell.now.pid.0 book.old) book.old.value cell.now.pid.0 (numbers_below (length book.old.value.phases)) }
{
    let mut unshared = Unshared {
        shares: 0,
        bytes: 0,
    };
    for s in 0..book.shared_heaps() {
        let shared = SharedId(s);
        if loses_share(cell, book, shared) {
            unshared.bytes += book.bytes_of(shared);
            unshared.shares += 1;
            book.drop_share(cell.pid(), shared);
        }
    }
    unshared
}
