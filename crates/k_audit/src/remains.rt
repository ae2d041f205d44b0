//! The points of a snapshot that speak of what is gone and of phases, each decided exactly.
ghost use Rattle.std.specs.Prelude.{◌≡◌, ◌<◌, ◌↔◌, [], IsTrue, slice_index_or};
ghost use Rattle.std.specs.List.{list_all};
ghost use Rattle.k_types.specs.Owners.{is_absorbed, owner_of, phase_of};
ghost use Rattle.k_types.specs.Sound.{AreGone, ArePhases};
ghost use Rattle.k_types.specs.Trace.{process_count};
ghost use Rattle.k_audit.specs.Tests.{all_phases_fit, all_registers_gone, exits_stay, heap_stays, is_null, nothing_left, object_fits, owner_made, phase_fits, phases_agree, registers_gone, share_fits, share_stays, sharer_fits};

use k_state::{PlainLists, PlainObject, Share, is_same_heap};
use k_types::{Heap, Name, Phase, Pid, Seg, SharedId};

/// Whether the registers are null.
fn are_null(registers: &[Option<Name>]) -> bool
    ensures { result ≡ list_all is_null registers.now }
{
    for reference in registers {
        if reference.is_some() {
            return false;
        }
    }
    true
}

/// Whether the registers of the process are null, unless it lives.
fn registers_gone(lists: &PlainLists, pid: Pid) -> bool
    requires { pid.0 < process_count lists.now.setup }
    ensures { result ≡ registers_gone lists.now.state.ended pid.0 (slice_index_or lists.now.state.registers pid.0 []) }
{
    lists.lives(pid) || are_null(lists.registers(pid))
}

/// Whether the registers of all processes that have ended are null.
#[tactic(auto, using(k_state::proofs::Sums::all_next, k_state::proofs::Sums::all_over))]
fn all_registers_gone(lists: &PlainLists) -> bool
    ensures { result ≡ all_registers_gone lists.now.setup lists.now.state }
{
    let _shape = lists.setup();
    for p in 0..lists.process_count() {
        if !registers_gone(lists, Pid(p as u32)) {
            return false;
        }
    }
    true
}

/// Whether the kernel has absorbed the shared heap.
fn is_absorbed(lists: &PlainLists, shared: SharedId) -> bool
    ensures { result ≡ is_absorbed (phase_of lists.now.state.phases shared.0) }
{
    matches!(lists.phase(shared), Phase::Absorbed)
}

/// Whether the sharer lives, and the shared heap was not absorbed.
fn share_stays(lists: &PlainLists, share: &Share) -> bool
    ensures { result ≡ share_stays lists.now.state.ended lists.now.state.phases share.now }
{
    lists.lives(share.process()) && !is_absorbed(lists, share.heap())
}

/// Whether that holds of all shares.
fn shares_stay(lists: &PlainLists) -> bool
    ensures { result ≡ list_all (share_stays lists.now.state.ended lists.now.state.phases) lists.now.state.shares }
{
    for share in lists.shares() {
        if !share_stays(lists, share) {
            return false;
        }
    }
    true
}

/// Whether the heap is there: its process lives, or it was not absorbed.
fn heap_stays(lists: &PlainLists, heap: Heap) -> bool
    ensures { result ≡ heap_stays lists.now.state.ended lists.now.state.phases heap }
{
    match heap {
        Heap::Kernel => true,
        Heap::User(pid) => lists.lives(pid),
        Heap::Shared(shared) => !is_absorbed(lists, shared),
    }
}

/// Whether the heaps of all exit items are there.
fn exits_stay(lists: &PlainLists) -> bool
    ensures { result ≡ exits_stay lists.now.state }
{
    for exit in lists.exits() {
        if !heap_stays(lists, exit.heap()) {
            return false;
        }
    }
    true
}

/// Whether nothing is left of what is gone.
fn nothing_left(lists: &PlainLists) -> bool
    ensures { result ≡ nothing_left lists.now.setup lists.now.state }
{
    all_registers_gone(lists) && shares_stay(lists) && exits_stay(lists)
}

/// The fifth point: what an ended process and an absorbed heap have left.
pub fn are_gone(lists: &PlainLists) -> bool
    requires { lists.now.state.scans ≡ [] }
    ensures { IsTrue result ↔ AreGone lists.now.state }
{
    let _shape = lists.setup();
    nothing_left(lists)
}

/// Whether the phase allows that the process shares the heap.
fn sharer_fits(phase: Phase, pid: Pid) -> bool
    ensures { result ≡ sharer_fits phase pid.0 }
{
    match phase {
        Phase::Unmade => false,
        Phase::Populating(maker) => pid.0 == maker.0,
        _ => true,
    }
}

/// Whether the phases of their heaps allow all shares.
fn shares_fit(lists: &PlainLists) -> bool
    ensures { result ≡ list_all (share_fits lists.now.state.phases) lists.now.state.shares }
{
    for share in lists.shares() {
        if !sharer_fits(lists.phase(share.heap()), share.process()) {
            return false;
        }
    }
    true
}

/// Whether a heap that owns an object was made.
fn owner_made(lists: &PlainLists, owner: Heap) -> bool
    ensures { result ≡ owner_made lists.now.state.phases owner }
{
    match owner {
        Heap::Shared(shared) => !matches!(lists.phase(shared), Phase::Unmade),
        _ => true,
    }
}

/// Whether the owners of these objects were made.
fn all_fit(lists: &PlainLists, objects: &[PlainObject]) -> bool
    ensures { result ≡ list_all (object_fits (owner_of lists.now.setup lists.now.state) lists.now.state.phases) objects.now }
{
    for object in objects {
        if !owner_made(lists, lists.owner(object.name().seg)) {
            return false;
        }
    }
    true
}

/// Whether the owners of all objects were made, segment by segment.
fn objects_fit(lists: &PlainLists) -> bool
    ensures { result ≡ list_all (object_fits (owner_of lists.now.setup lists.now.state) lists.now.state.phases) lists.now.state.objects }
{
    let _shape = lists.setup();
    for s in 0..lists.segment_count() {
        if !all_fit(lists, lists.objects_in(Seg(s))) {
            return false;
        }
    }
    true
}

/// Whether who populates the heap shares it, unless it has ended, and a frozen heap owns its root.
fn phase_fits(lists: &PlainLists, shared: SharedId) -> bool
    ensures { result ≡ phase_fits (owner_of lists.now.setup lists.now.state) lists.now.state.ended lists.now.state.shares shared.0 (phase_of lists.now.state.phases shared.0) }
{
    match lists.phase(shared) {
        Phase::Populating(maker) => !lists.lives(maker) || lists.has_share(maker, shared),
        Phase::Frozen(root) => is_same_heap(lists.owner(root.seg), Heap::Shared(shared)),
        _ => true,
    }
}

/// Whether that holds of all shared heaps.
#[tactic(auto, using(k_state::proofs::Sums::all_next, k_state::proofs::Sums::all_over))]
fn phases_fit(lists: &PlainLists) -> bool
    ensures { result ≡ all_phases_fit lists.now.setup lists.now.state }
{
    for s in 0..lists.shared_count() {
        if !phase_fits(lists, SharedId(s)) {
            return false;
        }
    }
    true
}

/// Whether the phases agree with shares, objects and roots.
fn phases_agree(lists: &PlainLists) -> bool
    ensures { result ≡ phases_agree lists.now.setup lists.now.state }
{
    shares_fit(lists) && objects_fit(lists) && phases_fit(lists)
}

/// The sixth point: what the phases of shared heaps say of sharers, objects and roots.
pub fn are_phases(lists: &PlainLists) -> bool
    ensures { IsTrue result ↔ ArePhases lists.now.setup lists.now.state }
{
    let _shape = lists.setup();
    phases_agree(lists)
}
