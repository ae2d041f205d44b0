//! What the end of a heap's collection keeps: a mark for each object of the heap, each exit item and each share.
ghost use Rattle.std.specs.Prelude.{◌≡◌, IfOk, Some, map};
ghost use Rattle.std.specs.List.{list_any};
ghost use Rattle.k_scan.specs.Leading.{AreLed};
ghost use Rattle.k_scan.specs.Marks.{AreMarks, is_reached};
ghost use Rattle.k_types.specs.Effects.{exit_stays, lies_in, register_lies_in, registers_of, share_stays};
ghost use Rattle.k_types.specs.Names.{heap_eq};
ghost use Rattle.k_types.specs.Replies.{is_populating};
ghost use Rattle.k_types.specs.State.{ExitItem as Item, Sharing};

use crate::leading::{is_led_into, led_into};
use crate::marking::Marks;
use crate::reaching::reached;
use crate::referring::{is_noted, note_referred};
use k_state::{PlainLists, Share, is_same_heap};
use k_types::{Heap, MOST_SHARED_HEAPS, Name, NoMemory, Phase, Pid, SharedId};
use std::alloc::Global;

// What the roots of the heap's open collection reach.
pub(crate) fn reached_of_scan(
    alloc: Global,
    lists: &PlainLists,
    heap: Heap,
) -> Result<Marks, NoMemory>
    ensures { IfOk result (λ marks. AreMarks lists.now.setup lists.now.state (Some heap) marks (is_reached lists.now.setup lists.now.state heap)) }
{
    match lists.scan_roots(heap) {
        Some(roots) => reached(alloc, lists, heap, roots),
        None => reached(alloc, lists, heap, &[]),
    }
}

// Whether some exit item is the heap's.
fn has_exits(lists: &PlainLists, heap: Heap) -> bool
    ensures { result ≡ list_any (λ (x : Item). heap_eq x.heap heap) lists.now.state.exits }
{
    for item in lists.exits() {
        if item.is_of(heap) {
            return true;
        }
    }
    false
}

// The exit items that stay, where some are the heap's.
fn surviving_among(
    alloc: Global,
    lists: &PlainLists,
    heap: Heap,
    reached: &Marks,
) -> Result<Vec<bool>, NoMemory>
    requires { AreMarks lists.now.setup lists.now.state (Some heap) reached.now (is_reached lists.now.setup lists.now.state heap) }
    ensures { IfOk result (λ stays. stays.items ≡ map (exit_stays lists.now.setup lists.now.state heap) lists.now.state.exits) }
{
    let noted = note_referred(alloc, lists, heap, reached)?;
    let mut stays = Vec::new(alloc);
    for item in lists.exits() {
        stays.push(!item.is_of(heap) || is_noted(lists, heap, &noted, item.target()))?;
    }
    Ok(stays)
}

// The exit items that stay. It looks once at the fields of the reached objects, where some items are the heap's.
#[tactic(auto, using(crate::proofs::Found::all_stay))]
pub(crate) fn surviving_exits(
    alloc: Global,
    lists: &PlainLists,
    heap: Heap,
    reached: &Marks,
) -> Result<Vec<bool>, NoMemory>
    requires { AreMarks lists.now.setup lists.now.state (Some heap) reached.now (is_reached lists.now.setup lists.now.state heap) }
    ensures { IfOk result (λ stays. stays.items ≡ map (exit_stays lists.now.setup lists.now.state heap) lists.now.state.exits) }
{
    if has_exits(lists, heap) {
        return surviving_among(alloc, lists, heap, reached);
    }
    Ok(vec![in alloc; true; lists.exits().len()]?)
}

pub(crate) fn lies_in(lists: &PlainLists, shared: SharedId, name: Name) -> bool
    ensures { result ≡ lies_in lists.now.setup lists.now.state shared.0 name }
{
    is_same_heap(lists.owner(name.seg), Heap::Shared(shared))
}

fn register_lies_in(lists: &PlainLists, shared: SharedId, register: Option<Name>) -> bool
    ensures { result ≡ register_lies_in lists.now.setup lists.now.state shared.0 register }
{
    match register {
        None => false,
        Some(name) => lies_in(lists, shared, name),
    }
}

fn some_lies_in(lists: &PlainLists, shared: SharedId, registers: &[Option<Name>]) -> bool
    ensures { result ≡ list_any (register_lies_in lists.now.setup lists.now.state shared.0) registers.now }
{
    for register in registers {
        if register_lies_in(lists, shared, *register) {
            return true;
        }
    }
    false
}

fn is_populating(phase: Phase, pid: Pid) -> bool
    ensures { result ≡ is_populating phase pid.0 }
{
    match phase {
        Phase::Populating(maker) => maker.0 == pid.0,
        _ => false,
    }
}

// Whether some register of the process leads into the shared heap.
#[tactic(auto, using(crate::proofs::Numbers::none_leads_past))]
fn some_register_leads_in(lists: &PlainLists, pid: Pid, shared: SharedId) -> bool
    ensures { result ≡ list_any (register_lies_in lists.now.setup lists.now.state shared.0) (registers_of lists.now.state pid.0) }
{
    if (pid.0 as usize) < lists.process_count() {
        some_lies_in(lists, shared, lists.registers(pid))
    } else {
        let _setup = lists.setup();
        false
    }
}

#[tactic(auto, unfolding(k_types::specs::Effects::share_stays))]
fn share_stays(
    lists: &PlainLists,
    heap: Heap,
    exits: &[bool],
    led: &[bool; MOST_SHARED_HEAPS],
    share: &Share,
) -> bool
    requires exits { exits.now ≡ map (exit_stays lists.now.setup lists.now.state heap) lists.now.state.exits }
    requires led { AreLed lists.now.setup lists.now.state heap lists.now.state.exits led.now }
    ensures { result ≡ share_stays lists.now.setup lists.now.state heap share.now }
{
    let process = share.process();
    let shared = share.heap();
    !is_same_heap(heap, Heap::User(process))
        || some_register_leads_in(lists, process, shared)
        || is_led_into(lists, heap, exits, led, shared)
        || is_populating(lists.phase(shared), process)
}

// The shares that stay, by the exit items that stay.
pub(crate) fn surviving_shares(
    alloc: Global,
    lists: &PlainLists,
    heap: Heap,
    exits: &[bool],
) -> Result<Vec<bool>, NoMemory>
    requires { exits.now ≡ map (exit_stays lists.now.setup lists.now.state heap) lists.now.state.exits }
    ensures { IfOk result (λ stays. stays.items ≡ map (share_stays lists.now.setup lists.now.state heap) lists.now.state.shares) }
{
    let mut stays = Vec::new(alloc);
    if lists.shares().is_empty() {
        return Ok(stays);
    }
    let led = led_into(lists, heap, exits);
    for share in lists.shares() {
        stays.push(share_stays(lists, heap, exits, &led, share))?;
    }
    Ok(stays)
}
