//! The targets of exit items in order, heap by heap.
ghost use Rattle.std.specs.Prelude.{◌≡◌, ◌<◌, ◌-◌, ◌+◌, IfOk, filter, map};
ghost use Rattle.k_solo.specs.Runs.{AreTargets};
ghost use Rattle.k_text.specs.Heaps.{heap_at};
ghost use Rattle.k_text.specs.Shown.{exits_of};
ghost use Rattle.k_types.specs.Names.{heap_eq};
ghost use Rattle.k_types.specs.Sound.{AreDistinctExits};
ghost use Rattle.k_types.specs.State.{ExitItem as Item};

use k_state::PlainLists;
use k_types::{Heap, Name, NoMemory, Pid, SharedId};
use std::alloc::Global;

// The targets of the heap's exit items, as they stand.
fn targets(alloc: Global, lists: &PlainLists, heap: Heap) -> Result<Vec<Name>, NoMemory>
    ensures { IfOk result (λ names. names.items
        ≡ map (λ (e : Item). e.target) (filter (λ (e : Item). heap_eq e.heap heap) lists.now.state.exits)) }
{
    let mut names = Vec::new(alloc);
    for item in lists.exits() {
        if item.is_of(heap) {
            names.push(item.target())?;
        }
    }
    Ok(names)
}

// The targets of the heap's exit items, by segment and serial.
fn targets_in_order(alloc: Global, lists: &PlainLists, heap: Heap) -> Result<Vec<Name>, NoMemory>
    requires { AreDistinctExits lists.now.state.exits }
    ensures { IfOk result (λ names. names.items ≡ exits_of lists.now.state.exits heap) }
{
    let mut names = targets(alloc, lists, heap)?;
    names.sort_unstable_by_key(|name| *name);
    Ok(names)
}

// The heap that begins with the segment.
fn heap_at(lists: &PlainLists, seg: u32) -> Heap
    ensures { result ≡ heap_at lists.now.setup seg }
{
    let procs = lists.process_count();
    if seg == 0 {
        Heap::Kernel
    } else if seg as usize <= procs {
        Heap::User(Pid(seg - 1))
    } else {
        Heap::Shared(SharedId(seg - 1 - procs as u32))
    }
}

// The targets of each heap's exit items in order, by the segments with which the heaps begin. Walks over all exit items for
// each heap, and sorts each heap's.
pub(crate) fn all_targets(alloc: Global, lists: &PlainLists) -> Result<Vec<Vec<Name>>, NoMemory>
    requires { AreDistinctExits lists.now.state.exits }
    ensures { IfOk result (λ rows. AreTargets lists.now (map (λ row. row.items) rows.items)) }
{
    let setup = lists.setup();
    let count = 1 + setup.procs.len() + setup.shared as usize;
    let mut rows = Vec::new(alloc);
    for seg in 0..count {
        rows.push(targets_in_order(alloc, lists, heap_at(lists, seg as u32))?)?;
    }
    Ok(rows)
}
