//! The end of a heap's collection.
ghost use Rattle.std.specs.Prelude.{◌≡◌, ◌↔◌, ◌<◌, ◌^◌, not, count_by, filter, length, map, IfOk, IsFalse, IsTrue, OnErr, OnOk, Some};
ghost use Rattle.k_scan.specs.Marks.{AreMarks, is_reached};
ghost use Rattle.k_state.specs.Marks.{marked};
ghost use Rattle.k_state.specs.Rooms.{HasRoom};
ghost use Rattle.k_types.specs.Effects.{after_ended, exit_stays, share_stays, survives};
ghost use Rattle.k_types.specs.FileOrder.{end_of};
ghost use Rattle.k_types.specs.Owners.{object_bytes};
ghost use Rattle.k_types.specs.State.{Object};
ghost use Rattle.k_types.specs.Totals.{total};
ghost use Rattle.k_types.specs.Updates.{keep_objects};

use crate::marking::Marks;
use crate::surviving::{reached_of_scan, surviving_exits, surviving_shares};
use k_state::{PlainLists, PlainObject, is_same_heap};
use k_types::{Event, Heap, NoMemory, Seg};
use std::alloc::Global;

// What the end of a collection keeps: the objects that are reached, and a mark for each exit item and share.
#[derive(Drop)]
struct Stays {
    reached: Marks,
    exits: Vec<bool>,
    shares: Vec<bool>,
}

fn what_stays(alloc: Global, lists: &PlainLists, heap: Heap) -> Result<Stays, NoMemory>
    ensures objects { IfOk result (λ stays. AreMarks lists.now.setup lists.now.state (Some heap) stays.reached (is_reached lists.now.setup lists.now.state heap)) }
    ensures exits { IfOk result (λ stays. stays.exits.items ≡ map (exit_stays lists.now.setup lists.now.state heap) lists.now.state.exits) }
    ensures shares { IfOk result (λ stays. stays.shares.items ≡ map (share_stays lists.now.setup lists.now.state heap) lists.now.state.shares) }
{
    let reached = reached_of_scan(alloc, lists, heap)?;
    let exits = surviving_exits(alloc, lists, heap, &reached)?;
    let shares = surviving_shares(alloc, lists, heap, &exits)?;
    Ok(Stays {
        reached,
        exits,
        shares,
    })
}

// How many go.
fn gone(stays: &[bool]) -> u32
    requires { length stays.now < 2 ^ 32 }
    ensures { result ≡ count_by not stays.now }
{
    stays.iter().filter(|stay| !**stay).count() as u32
}

// The bytes of the objects that go. There is a mark for each object, in their order.
fn bytes_gone(objects: &[PlainObject], stays: &[bool]) -> u64
    requires marks { length stays.now ≡ length objects.now }
    requires few { length objects.now < 2 ^ 32 }
    ensures { result ≡ total object_bytes (marked (map not stays.now) objects.now) }
{
    let mut sum = 0;
    for (at, object) in objects.iter().enumerate() {
        if !stays[at] {
            sum += object.size();
        }
    }
    sum
}

// How many objects go, and their bytes.
#[derive(Drop)]
struct Freed {
    objects: u32,
    bytes: u64,
}

// What goes of the heap's objects.
fn what_goes(lists: &PlainLists, heap: Heap, reached: &Marks) -> Freed
    requires { AreMarks lists.now.setup lists.now.state (Some heap) reached.now (is_reached lists.now.setup lists.now.state heap) }
    ensures objects { result.objects ≡ length (filter (λ (o : Object). not (survives lists.now.setup lists.now.state heap o.name)) lists.now.state.objects) }
    ensures bytes { result.bytes ≡ total object_bytes (filter (λ (o : Object). not (survives lists.now.setup lists.now.state heap o.name)) lists.now.state.objects) }
{
    let _shape = lists.setup();
    let mut objects = 0;
    let mut bytes = 0;
    for s in 0..lists.segment_count() {
        let seg = Seg(s);
        if is_same_heap(lists.owner(seg), heap) {
            objects += gone(reached.of(seg));
            bytes += bytes_gone(lists.objects_in(seg), reached.of(seg));
        }
    }
    Freed { objects, bytes }
}

// The event with which the heap's open collection ends, where this stays.
#[tactic(auto, using(crate::proofs::Counts::items_gone))]
fn event_of(lists: &PlainLists, heap: Heap, stays: &Stays) -> Event
    requires room { HasRoom 1 lists.now.state }
    requires objects { AreMarks lists.now.setup lists.now.state (Some heap) stays.now.reached (is_reached lists.now.setup lists.now.state heap) }
    requires exits { stays.now.exits.items ≡ map (exit_stays lists.now.setup lists.now.state heap) lists.now.state.exits }
    requires shares { stays.now.shares.items ≡ map (share_stays lists.now.setup lists.now.state heap) lists.now.state.shares }
    ensures { result ≡ end_of lists.now.setup lists.now.state heap }
{
    let freed = what_goes(lists, heap, &stays.reached);
    Event::Ended {
        heap,
        freed_objects: freed.objects,
        freed_bytes: freed.bytes,
        exits_dropped: gone(&stays.exits),
        shares_dropped: gone(&stays.shares),
    }
}

// The reached objects of the heap stay, its others go.
fn keep_reached(lists: &mut PlainLists, heap: Heap, reached: &Marks)
    requires { AreMarks lists.old.setup lists.old.state (Some heap) reached.now (is_reached lists.old.setup lists.old.state heap) }
    ensures setup { lists.new.setup ≡ lists.old.setup }
    ensures state { lists.new.state ≡ keep_objects (survives lists.old.setup lists.old.state heap) lists.old.state }
{
    let _shape = lists.setup();
    for s in 0..lists.segment_count() {
        let seg = Seg(s);
        if is_same_heap(lists.owner(seg), heap) {
            lists.keep_objects(seg, reached.of(seg));
        }
    }
}

// What stays is left, and the collection is closed.
fn keep(lists: &mut PlainLists, heap: Heap, stays: &Stays)
    requires objects { AreMarks lists.old.setup lists.old.state (Some heap) stays.now.reached (is_reached lists.old.setup lists.old.state heap) }
    requires exits { stays.now.exits.items ≡ map (exit_stays lists.old.setup lists.old.state heap) lists.old.state.exits }
    requires shares { stays.now.shares.items ≡ map (share_stays lists.old.setup lists.old.state heap) lists.old.state.shares }
    ensures setup { lists.new.setup ≡ lists.old.setup }
    ensures state { lists.new.state ≡ after_ended lists.old.setup heap lists.old.state }
{
    keep_reached(lists, heap, &stays.reached);
    lists.keep_exits(&stays.exits);
    lists.keep_shares(&stays.shares);
    lists.close_scan(heap);
}

/// The event with which the heap's open collection ends: how many objects go and their bytes, and how many exit items and
/// shares are dropped.
///
/// It walks over the objects of the heap, all exit items and shares, and finds by halving what reached objects refer to. `NoMemory` comes where
/// the marks of what stays find no memory.
pub fn ending(alloc: Global, lists: &PlainLists, heap: Heap) -> Result<Event, NoMemory>
    requires { HasRoom 1 lists.now.state }
    ensures { IfOk result (λ event. event ≡ end_of lists.now.setup lists.now.state heap) }
{
    let stays = what_stays(alloc, lists, heap)?;
    Ok(event_of(lists, heap, &stays))
}

/// Ends the heap's open collection: what its roots do not reach goes, with the exit items and shares that nothing needs any
/// more, and the collection is closed.
///
/// It costs what [`ending`] costs. `NoMemory` comes where the marks of what stays find no memory, and leaves the state as it was.
pub fn end_collection(alloc: Global, lists: &mut PlainLists, heap: Heap) -> Result<(), NoMemory>
    ensures setup { lists.new.setup ≡ lists.old.setup }
    ensures ok { OnOk result (lists.new.state ≡ after_ended lists.old.setup heap lists.old.state) }
    ensures err { OnErr result (lists.new ≡ lists.old) }
{
    let stays = what_stays(alloc, lists, heap)?;
    keep(lists, heap, &stays);
    Ok(())
}

/// Ends the heap's open collection as [`end_collection`] does, where this event is its end, and says whether it is.
///
/// What stays is found once, for both. `NoMemory` comes as there.
pub fn end_collection_by(
    alloc: Global,
    lists: &mut PlainLists,
    heap: Heap,
    event: &Event,
) -> Result<bool, NoMemory>
    requires { HasRoom 1 lists.old.state }
    ensures setup { lists.new.setup ≡ lists.old.setup }
    ensures is { IfOk result (λ is. IsTrue is ↔ event.now ≡ end_of lists.old.setup lists.old.state heap) }
    ensures ended { IfOk result (λ is. IsTrue is → lists.new.state ≡ after_ended lists.old.setup heap lists.old.state) }
    ensures same { IfOk result (λ is. IsFalse is → lists.new ≡ lists.old) }
    ensures err { OnErr result (lists.new ≡ lists.old) }
{
    let stays = what_stays(alloc, lists, heap)?;
    if event_of(lists, heap, &stays) != *event {
        return Ok(false);
    }
    keep(lists, heap, &stays);
    Ok(true)
}
