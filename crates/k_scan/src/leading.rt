//! Into which shared heaps the exit items lead that a collection keeps.
ghost use Rattle.std.specs.Prelude.{◌≡◌, ◌<◌, ◌||◌, ℕ, false, map, slice_index_or};
ghost use Rattle.k_scan.specs.Leading.{AreLed, leads_in};
ghost use Rattle.k_types.specs.Effects.{exit_stays};
ghost use Rattle.k_types.specs.Names.{heap_eq};
ghost use Rattle.k_types.specs.Owners.{shared};

use crate::surviving::lies_in;
use k_state::PlainLists;
use k_types::{Heap, MOST_SHARED_HEAPS, SharedId};

// Marks the shared heap, where this is one.
fn mark_led(led: &mut [bool; MOST_SHARED_HEAPS], owner: Heap)
    ensures { (s : ℕ) → s < 64 → slice_index_or led.new s false ≡ (slice_index_or led.old s false || heap_eq owner (shared s)) }
{
    if let Heap::Shared(shared) = owner {
        let at = shared.0 as usize;
        if at < MOST_SHARED_HEAPS {
            led[at] = true;
        }
    }
}

// Into which shared heaps an exit item of the heap leads that stays. Walks once over all exit items.
pub(crate) fn led_into(lists: &PlainLists, heap: Heap, exits: &[bool]) -> [bool; MOST_SHARED_HEAPS]
    requires { exits.now ≡ map (exit_stays lists.now.setup lists.now.state heap) lists.now.state.exits }
    ensures { AreLed lists.now.setup lists.now.state heap lists.now.state.exits result }
{
    let mut led = [false; MOST_SHARED_HEAPS];
    for (at, item) in lists.exits().iter().enumerate() {
        if item.is_of(heap) && exits[at] {
            mark_led(&mut led, lists.owner(item.target().seg));
        }
    }
    led
}

// Whether an exit item of the heap that stays leads into the shared heap. Looks at each exit item.
#[tactic(auto, using(crate::proofs::Marks::mark_is))]
fn some_exit_leads_in(lists: &PlainLists, heap: Heap, exits: &[bool], shared: SharedId) -> bool
    requires { exits.now ≡ map (exit_stays lists.now.setup lists.now.state heap) lists.now.state.exits }
    ensures { result ≡ leads_in lists.now.setup lists.now.state heap lists.now.state.exits shared.0 }
{
    for (at, item) in lists.exits().iter().enumerate() {
        if item.is_of(heap) && lies_in(lists, shared, item.target()) && exits[at] {
            return true;
        }
    }
    false
}

// The same by the marks of the shared heaps, where the shared heap has one.
pub(crate) fn is_led_into(
    lists: &PlainLists,
    heap: Heap,
    exits: &[bool],
    led: &[bool; MOST_SHARED_HEAPS],
    shared: SharedId,
) -> bool
    requires exits { exits.now ≡ map (exit_stays lists.now.setup lists.now.state heap) lists.now.state.exits }
    requires led { AreLed lists.now.setup lists.now.state heap lists.now.state.exits led.now }
    ensures { result ≡ leads_in lists.now.setup lists.now.state heap lists.now.state.exits shared.0 }
{
    let at = shared.0 as usize;
    if at < MOST_SHARED_HEAPS {
        led[at]
    } else {
        some_exit_leads_in(lists, heap, exits, shared)
    }
}
