//! The beginning of collections, absorptions and ends of processes.
ghost use Rattle.std.specs.Prelude.{◌≡◌, ◌<◌, ◌==◌, not, length, map, IfOk, OnErr, OnOk};
ghost use Rattle.k_state.specs.Marks.{turned_item, turned_items};
ghost use Rattle.k_types.specs.Effects.{after_absorbed, after_closing, after_end_of, exit_after, stays_after_absorb};
ghost use Rattle.k_types.specs.Reach.{is_shared_heap, roots_of};
ghost use Rattle.k_types.specs.State.{Sharing};
ghost use Rattle.k_types.specs.Trace.{process_count};
ghost use Rattle.k_types.specs.Updates.{open_scan};

use crate::rooting::roots;
use crate::surviving::lies_in;
use k_state::{ExitItem, PlainLists, is_same_heap};
use k_types::{Heap, Name, NoMemory, Phase, Pid, SharedId};
use std::alloc::Global;

/// Begins a collection of the heap, with the roots that it has now.
///
/// `NoMemory` comes where the roots or the collection find no memory, and leaves the state as it was.
pub fn begin(alloc: Global, lists: &mut PlainLists, heap: Heap) -> Result<(), NoMemory>
    ensures setup { lists.new.setup ≡ lists.old.setup }
    ensures ok { OnOk result (lists.new.state ≡ open_scan heap (roots_of lists.old.setup lists.old.state heap) lists.old.state) }
    ensures err { OnErr result (lists.new ≡ lists.old) }
{
    let names = roots(alloc, lists, heap)?;
    lists.open_scan(heap, names)
}

/// Begins the last collection of the kernel.
///
/// `NoMemory` comes where the roots or the collection find no memory, and leaves the state as it was.
#[tactic(auto, unfolding(k_types::specs::Effects::after_closing))]
pub fn close(alloc: Global, lists: &mut PlainLists) -> Result<(), NoMemory>
    ensures setup { lists.new.setup ≡ lists.old.setup }
    ensures ok { OnOk result (lists.new.state ≡ after_closing lists.old.setup lists.old.state) }
    ensures err { OnErr result (lists.new ≡ lists.old) }
{
    begin(alloc, lists, Heap::Kernel)?;
    lists.close();
    Ok(())
}

// Whether the exit item stays once the shared heap is absorbed.
fn stays_after_absorb(lists: &PlainLists, shared: SharedId, item: &ExitItem) -> bool
    ensures { result ≡ stays_after_absorb lists.now.setup lists.now.state shared.0 item.now }
{
    let target = item.target();
    let is_into_kernel = item.is_of(Heap::Shared(shared))
        && is_same_heap(lists.owner(target.seg), Heap::Kernel);
    let is_of_kernel = item.is_of(Heap::Kernel) && lies_in(lists, shared, target);
    !(is_into_kernel || is_of_kernel)
}

// The exit items that stay once the shared heap is absorbed.
fn exits_after_absorb(
    alloc: Global,
    lists: &PlainLists,
    shared: SharedId,
) -> Result<Vec<bool>, NoMemory>
    ensures { IfOk result (λ stays. stays.items ≡ map (stays_after_absorb lists.now.setup lists.now.state shared.0) lists.now.state.exits) }
{
    let mut stays = Vec::new(alloc);
    for item in lists.exits() {
        stays.push(stays_after_absorb(lists, shared, item))?;
    }
    Ok(stays)
}

/// Absorbs the shared heap: its objects are the kernel's from now on, and the exit items between it and the kernel go.
///
/// `NoMemory` comes where the marks of the exit items find no memory, and leaves the state as it was.
#[tactic(auto, unfolding(k_types::specs::Effects::after_absorbed))]
pub fn absorb(alloc: Global, lists: &mut PlainLists, shared: SharedId) -> Result<(), NoMemory>
    requires { shared.0 < lists.old.setup.shared_heaps }
    ensures setup { lists.new.setup ≡ lists.old.setup }
    ensures ok { OnOk result (lists.new.state ≡ after_absorbed lists.old.setup shared.0 lists.old.state) }
    ensures err { OnErr result (lists.new ≡ lists.old) }
{
    let stays = exits_after_absorb(alloc, lists, shared)?;
    lists.keep_exits(&stays);
    lists.set_phase(shared, Phase::Absorbed);
    Ok(())
}

fn is_shared(heap: Heap) -> bool
    ensures { result ≡ is_shared_heap heap }
{
    matches!(heap, Heap::Shared(_))
}

// The heap whose exit item this is after the process has ended; none where the item goes.
fn heap_after(lists: &PlainLists, pid: Pid, item: &ExitItem) -> Option<Heap>
    ensures { turned_item result item.now ≡ exit_after lists.now.setup lists.now.state pid.0 item.now }
{
    let target = item.target();
    let owner = lists.owner(target.seg);
    if item.is_of(Heap::User(pid)) {
        if is_shared(owner) && !lists.has_exit(Heap::Kernel, target) {
            Some(Heap::Kernel)
        } else {
            None
        }
    } else if item.is_of(Heap::Kernel) && is_same_heap(owner, Heap::User(pid)) {
        None
    } else {
        Some(item.heap())
    }
}

// The heap of each exit item after the process has ended.
#[tactic(auto, using(crate::proofs::Turning::turned_more, crate::proofs::Turning::turned_all))]
fn heaps_after(alloc: Global, lists: &PlainLists, pid: Pid) -> Result<Vec<Option<Heap>>, NoMemory>
    ensures heaps { IfOk result (λ heaps. turned_items heaps.items lists.now.state.exits ≡ map (exit_after lists.now.setup lists.now.state pid.0) lists.now.state.exits) }
    ensures size { IfOk result (λ heaps. length heaps.items ≡ length lists.now.state.exits) }
{
    let mut heaps = Vec::new(alloc);
    for item in lists.exits() {
        heaps.push(heap_after(lists, pid, item))?;
    }
    Ok(heaps)
}

// The shares of other processes.
fn shares_of_others(alloc: Global, lists: &PlainLists, pid: Pid) -> Result<Vec<bool>, NoMemory>
    ensures { IfOk result (λ stays. stays.items ≡ map (λ (e : Sharing). not (e.process == pid.0)) lists.now.state.shares) }
{
    let mut stays = Vec::new(alloc);
    for share in lists.shares() {
        stays.push(share.process().0 != pid.0)?;
    }
    Ok(stays)
}

/// Ends the process: its registers are null, its shares are gone, its heap is the kernel's, its exit items into shared heaps
/// are the kernel's, once each, and the kernel's into its heap are gone. No object goes or changes.
///
/// `NoMemory` comes where the marks or the list of those who have ended find no memory, and leaves the state as it was.
pub fn end_of_process(alloc: Global, lists: &mut PlainLists, pid: Pid) -> Result<(), NoMemory>
    requires { pid.0 < process_count lists.old.setup }
    ensures setup { lists.new.setup ≡ lists.old.setup }
    ensures ok { OnOk result (lists.new.state ≡ after_end_of lists.old.setup pid.0 lists.old.state) }
    ensures err { OnErr result (lists.new ≡ lists.old) }
{
    let heaps = heaps_after(alloc, lists, pid)?;
    let stays = shares_of_others(alloc, lists, pid)?;
    lists.end_process(pid)?;
    lists.turn_exits(&heaps);
    lists.keep_shares(&stays);
    lists.clear_registers(pid);
    Ok(())
}
