//! What the points ask of the lists of a snapshot.
ghost use Rattle.std.specs.Prelude.{◌≡◌, ◌≤◌, [], None};
ghost use Rattle.k_types.specs.State.{has, has_exit};
ghost use Rattle.k_types.specs.Trace.{process_count, segment_of, trace_of};
ghost use Rattle.k_audit.specs.Grammar.{AreExitsFrom};
ghost use Rattle.k_audit.specs.Places.{IsExitPlace};
ghost use Rattle.k_audit.specs.Tests.{exit_lt, passes};

use k_state::{ExitItem, PlainLists, is_before, is_same_heap, kind_of};
use k_types::{Heap, Name, Setup, legal};

/// Whether there is an object of that name, found by halving.
pub fn has(lists: &PlainLists, name: Name) -> bool
    ensures { result ≡ has lists.now.state.objects name }
{
    match lists.index_of(name) {
        Some(_) => true,
        None => false,
    }
}

/// Whether the barrier lets a reference from the one heap to the other pass.
pub fn passes(from: Heap, to: Heap) -> bool
    ensures { result ≡ passes from to }
{
    legal(kind_of(from), kind_of(to), is_same_heap(from, to))
}

/// The segment in which the heap's allocations stand.
pub fn segment_of(setup: &Setup, heap: Heap) -> u64
    requires { process_count (trace_of setup.now [] []) ≤ 64 }
    ensures { result ≡ segment_of (trace_of setup.now [] []) heap }
{
    match heap {
        Heap::Kernel => 0,
        Heap::User(pid) => u64::from(pid.0) + 1,
        Heap::Shared(shared) => 1 + setup.procs.len() as u64 + u64::from(shared.0),
    }
}

/// Whether the exit item comes before that of the heap to the target.
fn is_exit_before(lists: &PlainLists, exit: &ExitItem, heap: Heap, target: Name) -> bool
    ensures { result ≡ exit_lt lists.now.setup exit.now (record { heap = heap; target = target }) }
{
    let setup = lists.setup();
    let own = segment_of(setup, exit.heap());
    let other = segment_of(setup, heap);
    own < other || (own == other && is_before(exit.target(), target))
}

/// How many exit items come before that of the heap to the target, found by halving.
fn exit_place(lists: &PlainLists, heap: Heap, target: Name) -> usize
    requires { AreExitsFrom lists.now.setup 0 None lists.now.state.exits }
    ensures { IsExitPlace lists.now.setup lists.now.state.exits (record { heap = heap; target = target }) result }
{
    let exits = lists.exits();
    let mut low = 0;
    let mut high = exits.len();
    while low < high {
        let middle = low + (high - low) / 2;
        if is_exit_before(lists, &exits[middle], heap, target) {
            low = middle + 1;
        } else {
            high = middle;
        }
    }
    low
}

/// Whether the heap has an exit item to the target, found by halving.
pub fn has_exit(lists: &PlainLists, heap: Heap, target: Name) -> bool
    requires { AreExitsFrom lists.now.setup 0 None lists.now.state.exits }
    ensures { result ≡ has_exit lists.now.state.exits heap target }
{
    let at = exit_place(lists, heap, target);
    let exits = lists.exits();
    at < exits.len() && exits[at].is(heap, target)
}
