//! Which steps the machine can do now.
ghost use Rattle.std.specs.Prelude.{◌≡◌, ◌<◌, ◌↔◌, ◌||◌, not, IsTrue, length};
ghost use Rattle.std.specs.List.{list_all};
ghost use Rattle.k_state.specs.Rooms.{HasRoom};
ghost use Rattle.k_types.specs.Cells.{access_cell, base_cell, other_cells, cells_touched, Cell};
ghost use Rattle.k_types.specs.Numbers.{numbers_below};
ghost use Rattle.k_types.specs.Names.{among};
ghost use Rattle.k_types.specs.Complete.{all_ended};
ghost use Rattle.k_types.specs.State.{is_scanned, register};
ghost use Rattle.k_types.specs.Steps.{
  IsPossible,
  has_sharer,
  in_range,
  is_live,
  is_orphan,
  no_orphan,
  waits_for_orphans,
};
ghost use Rattle.k_reply.specs.OneCell.{one_cell};
ghost use Rattle.k_types.specs.declared.event.Reply.{Reply};
ghost use Rattle.k_types.specs.Trace.{process_count};
ghost use Rattle.k_types.specs.declared.event.Event.TheVariants.{Absorbed, Closing, Done};

use crate::governing::ends_other;
use crate::ranges::is_in_range;
use crate::replies::reply_to;
use k_state::{PlainLists, Share};
use k_types::{Heap, Op, Phase, Pid, Reg, Reply, SharedId};

// Whether some process shares the heap.
fn has_sharer(shares: &[Share], shared: SharedId) -> bool
    ensures { result ≡ has_sharer shares.now shared.0 }
{
    for share in shares {
        if share.heap().0 == shared.0 {
            return true;
        }
    }
    false
}

fn is_live(phase: Phase) -> bool
    ensures { result ≡ is_live phase }
{
    match phase {
        Phase::Unmade => false,
        Phase::Populating(_) => true,
        Phase::Frozen(_) => true,
        Phase::Absorbed => false,
    }
}

/// Whether the shared heap was made, is not absorbed, and nobody shares it. Walks over all shares.
pub fn is_orphan(lists: &PlainLists, shared: SharedId) -> bool
    ensures { result ≡ is_orphan lists.now.state shared.0 }
{
    is_live(lists.phase(shared)) && !has_sharer(lists.shares(), shared)
}

/// Whether no shared heap is an orphan. Walks over all shares for each shared heap.
#[tactic(auto, using(k_state::proofs::Sums::all_next, k_state::proofs::Sums::all_over))]
pub fn no_orphan(lists: &PlainLists) -> bool
    ensures { result ≡ no_orphan lists.now.setup lists.now.state }
{
    for s in 0..lists.shared_count() {
        if is_orphan(lists, SharedId(s)) {
            return false;
        }
    }
    true
}

/// Whether every process of the trace has ended.
#[tactic(auto, using(k_state::proofs::Sums::all_next, k_state::proofs::Sums::all_over))]
pub fn all_ended(lists: &PlainLists) -> bool
    ensures { result ≡ all_ended lists.now.setup lists.now.state }
{
    let count = lists.setup().procs.len();
    for p in 0..count {
        if lists.lives(Pid(p as u32)) {
            return false;
        }
    }
    true
}

// The cell beside the process's own that an access to an object of the heap touches.
fn base_cell(lists: &PlainLists, pid: Pid, owner: Heap) -> Option<Heap>
    ensures { base_cell lists.now.state pid.0 owner ≡ one_cell result }
{
    match owner {
        Heap::Shared(shared) if lists.has_share(pid, shared) => Some(owner),
        Heap::Kernel => Some(Heap::Kernel),
        _ => None,
    }
}

// The cell beside the process's own that an access through the register touches.
fn access_cell(lists: &PlainLists, pid: Pid, base: Reg) -> Option<Heap>
    requires process { pid.0 < process_count lists.now.setup }
    requires base { base.0 < 16 }
    ensures { access_cell lists.now.setup lists.now.state pid.0 (register lists.now.state.registers pid.0 base.0) ≡ one_cell result }
{
    match lists.register(pid, base) {
        None => None,
        Some(x) => base_cell(lists, pid, lists.owner(x.seg)),
    }
}

// Whether the cell has no open collection, where there is one.
fn is_cell_idle(lists: &PlainLists, cell: Option<Heap>) -> bool
    ensures { result ≡ list_all (λ (c : Cell). not (is_scanned lists.now.state.scans c)) (one_cell cell) }
{
    match cell {
        Some(heap) => !lists.is_scanned(heap),
        None => true,
    }
}

// Whether no cell that the operation touches beside the process's own has an open collection.
#[tactic(auto, using(std::proofs::lemmas::Bool::Decides::nat_tests), unfolding(k_types::specs::Cells::other_cells, k_types::specs::Steps::in_range))]
fn are_others_idle(lists: &PlainLists, pid: Pid, op: &Op) -> bool
    requires process { pid.0 < process_count lists.now.setup }
    requires in_range { IsTrue (in_range lists.now.setup op.now) }
    ensures { result ≡ list_all (λ (c : Cell). not (is_scanned lists.now.state.scans c))
        (other_cells lists.now.setup lists.now.state pid.0 op.now) }
{
    match *op {
        Op::Store { base, .. } => is_cell_idle(lists, access_cell(lists, pid, base)),
        Op::Load { base, .. } => is_cell_idle(lists, access_cell(lists, pid, base)),
        Op::Put { base, .. } => is_cell_idle(lists, access_cell(lists, pid, base)),
        Op::Get { base, .. } => is_cell_idle(lists, access_cell(lists, pid, base)),
        Op::KNew { .. } | Op::KCollect | Op::Exit => !lists.is_scanned(Heap::Kernel),
        Op::SNew { shared, .. } => !lists.is_scanned(Heap::Shared(shared)),
        Op::Share { shared } => !lists.is_scanned(Heap::Shared(shared)),
        Op::Freeze { shared, .. } => !lists.is_scanned(Heap::Shared(shared)),
        Op::Attach { shared, .. } => !lists.is_scanned(Heap::Shared(shared)),
        Op::Kill { target } => {
            !ends_other(lists, pid, target)
                || !lists.is_scanned(Heap::User(target)) && !lists.is_scanned(Heap::Kernel)
        }
        Op::New { .. } => true,
        Op::Move { .. } => true,
        Op::Clear { .. } => true,
        Op::Dir { .. } => true,
        Op::Collect => true,
        Op::Resize { .. } => true,
    }
}

// Whether no cell that the operation touches has an open collection.
#[tactic(auto, unfolding(k_types::specs::Cells::cells_touched))]
fn is_idle(lists: &PlainLists, pid: Pid, op: &Op) -> bool
    requires process { pid.0 < process_count lists.now.setup }
    requires in_range { IsTrue (in_range lists.now.setup op.now) }
    ensures { (said : Reply) → result ≡ list_all (λ (c : Cell). not (is_scanned lists.now.state.scans c))
        (cells_touched lists.now.setup lists.now.state (Done pid op.now said)) }
{
    !lists.is_scanned(Heap::User(pid)) && are_others_idle(lists, pid, op)
}

fn waits_for_orphans(op: &Op) -> bool
    ensures { result ≡ waits_for_orphans op.now }
{
    matches!(*op, Op::KCollect)
}

/// Whether the machine can do the operation now and gives this reply: the process lives, no heap that the operation touches is
/// scanned, there is no orphan where it waits for orphans, and the reply is the machine's.
///
/// Walks over all shares for each shared heap where it waits for orphans; else it costs what the reply costs.
pub fn may_be_done(lists: &PlainLists, pid: Pid, op: &Op, said: &Reply) -> bool
    requires { HasRoom 1 lists.now.state }
    ensures { IsTrue result ↔ IsPossible lists.now.setup lists.now.state (Done pid op.now said.now) }
{
    if pid.0 as usize >= lists.process_count() || !is_in_range(lists, op) {
        return false;
    }
    let waits = waits_for_orphans(op) && !no_orphan(lists);
    lists.lives(pid) && is_idle(lists, pid, op) && !waits && reply_to(lists, pid, op) == *said
}

/// Whether the machine can absorb the shared heap now: it is an orphan, and the kernel is not scanned. Walks over all shares.
pub fn may_be_absorbed(lists: &PlainLists, shared: SharedId) -> bool
    ensures { IsTrue result ↔ IsPossible lists.now.setup lists.now.state (Absorbed shared) }
{
    shared.0 < lists.shared_count() && is_orphan(lists, shared) && !lists.is_scanned(Heap::Kernel)
}

/// Whether the last collection of the kernel can begin now: every process has ended, no shared heap is an orphan, the kernel is
/// not scanned, and the last collection has not begun. Walks over all shares for each shared heap.
pub fn may_close(lists: &PlainLists) -> bool
    ensures { IsTrue result ↔ IsPossible lists.now.setup lists.now.state Closing }
{
    all_ended(lists) && no_orphan(lists) && !lists.is_scanned(Heap::Kernel) && !lists.closed()
}
