//! The points of a snapshot, each decided exactly: that nothing dangles, and that references and exit items are lawful.
ghost use Rattle.std.specs.Prelude.{◌≡◌, ◌↔◌, [], IsTrue, None};
ghost use Rattle.std.specs.List.{list_all};
ghost use Rattle.k_state.specs.Contents.{content};
ghost use Rattle.k_types.specs.Owners.{owner_of};
ghost use Rattle.k_types.specs.Sound.{AreExits, AreGuarded, AreNumbered, HasNoDangling};
ghost use Rattle.k_audit.specs.Grammar.{AreExitsFrom};
ghost use Rattle.k_audit.specs.Tests.{all_registers_there, content_guarded, content_there, exit_leaves, is_numbered, is_there, nothing_dangles, object_guarded, object_there, reference_guarded, registers_there, root_there, roots_there, target_there};

use crate::holding::{has, has_exit, passes};
use k_state::{ExitItem, FieldValue, PlainLists, PlainObject, StillState, is_same_heap};
use k_types::{Heap, Name, Phase, Pid, Seg, Serial, SharedId};

/// The name of the directory.
const DIRECTORY: Name = Name {
    seg: Seg(0),
    serial: Serial(1),
};

/// Whether the object's serial is one that its segment has given.
fn is_numbered(made: &[u32], object: &PlainObject) -> bool
    ensures { result ≡ is_numbered made.now object.now }
{
    let name = object.name();
    let given = match made.get(name.seg.0 as usize) {
        Some(given) => *given,
        None => 0,
    };
    name.serial.0 <= given
}

/// Whether the serials of all objects are such.
fn all_numbered(state: &StillState) -> bool
    ensures { result ≡ list_all (is_numbered state.now.made) state.now.objects }
{
    let made = state.made();
    for object in state.objects() {
        if !is_numbered(made, object) {
            return false;
        }
    }
    true
}

/// The first point: no serial is above the number of those that its segment has given. The order of the objects is the grammar's.
pub fn are_numbered(state: &StillState) -> bool
    ensures { IsTrue result ↔ AreNumbered state.now.objects state.now.made }
{
    all_numbered(state)
}

/// Whether what the reference leads to is there.
fn is_there(lists: &PlainLists, reference: Option<Name>) -> bool
    ensures { result ≡ is_there lists.now.state.objects reference }
{
    match reference {
        None => true,
        Some(name) => has(lists, name),
    }
}

/// Whether what the field leads to is there.
fn value_there(lists: &PlainLists, value: FieldValue) -> bool
    ensures { result ≡ content_there lists.now.state.objects (content value) }
{
    match value {
        FieldValue::Reference(reference) => is_there(lists, reference),
        FieldValue::Integer(_) => true,
    }
}

/// Whether what the object's fields lead to is there.
fn object_there(lists: &PlainLists, object: &PlainObject) -> bool
    ensures { result ≡ object_there lists.now.state.objects object.now }
{
    for value in object.fields() {
        if !value_there(lists, *value) {
            return false;
        }
    }
    true
}

/// Whether what these objects' fields lead to is there.
fn all_there(lists: &PlainLists, objects: &[PlainObject]) -> bool
    ensures { result ≡ list_all (object_there lists.now.state.objects) objects.now }
{
    for object in objects {
        if !object_there(lists, object) {
            return false;
        }
    }
    true
}

/// Whether what the objects' fields lead to is there, segment by segment.
fn objects_there(lists: &PlainLists) -> bool
    ensures { result ≡ list_all (object_there lists.now.state.objects) lists.now.state.objects }
{
    let _shape = lists.setup();
    for s in 0..lists.segment_count() {
        if !all_there(lists, lists.objects_in(Seg(s))) {
            return false;
        }
    }
    true
}

/// Whether what the registers lead to is there.
fn registers_there(lists: &PlainLists, registers: &[Option<Name>]) -> bool
    ensures { result ≡ registers_there lists.now.state.objects registers.now }
{
    for reference in registers {
        if !is_there(lists, *reference) {
            return false;
        }
    }
    true
}

/// Whether what the registers of all processes lead to is there.
#[tactic(auto, using(k_state::proofs::Sums::all_next, k_state::proofs::Sums::all_over))]
fn all_registers_there(lists: &PlainLists) -> bool
    ensures { result ≡ all_registers_there lists.now.setup lists.now.state }
{
    let _shape = lists.setup();
    for p in 0..lists.process_count() {
        if !registers_there(lists, lists.registers(Pid(p as u32))) {
            return false;
        }
    }
    true
}

/// Whether the targets of the exit items are there.
fn targets_there(lists: &PlainLists) -> bool
    ensures { result ≡ list_all (target_there lists.now.state.objects) lists.now.state.exits }
{
    for exit in lists.exits() {
        if !has(lists, exit.target()) {
            return false;
        }
    }
    true
}

/// Whether the root of the phase is there.
fn root_there(lists: &PlainLists, phase: Phase) -> bool
    ensures { result ≡ root_there lists.now.state.objects phase }
{
    match phase {
        Phase::Frozen(root) => has(lists, root),
        _ => true,
    }
}

/// Whether the roots of the phases are there.
#[tactic(auto, using(k_state::proofs::Sums::all_next, k_state::proofs::Sums::all_over))]
fn roots_there(lists: &PlainLists) -> bool
    ensures { result ≡ roots_there lists.now.setup lists.now.state }
{
    for s in 0..lists.shared_count() {
        if !root_there(lists, lists.phase(SharedId(s))) {
            return false;
        }
    }
    true
}

/// Whether nothing dangles.
fn nothing_dangles(lists: &PlainLists) -> bool
    ensures { result ≡ nothing_dangles lists.now.setup lists.now.state }
{
    has(lists, DIRECTORY)
        && objects_there(lists)
        && all_registers_there(lists)
        && targets_there(lists)
        && roots_there(lists)
}

/// The second point: the directory is there, and what fields, registers, exit items and phases name. Finds each name by halving.
pub fn has_no_dangling(lists: &PlainLists) -> bool
    requires { lists.now.state.scans ≡ [] }
    ensures { IsTrue result ↔ HasNoDangling lists.now.state }
{
    let _shape = lists.setup();
    nothing_dangles(lists)
}

/// Whether the reference of an object of the heap passes the barrier, and has its exit item where it leaves the heap.
fn reference_guarded(lists: &PlainLists, from: Heap, reference: Option<Name>) -> bool
    requires { AreExitsFrom lists.now.setup 0 None lists.now.state.exits }
    ensures { result ≡ reference_guarded (owner_of lists.now.setup lists.now.state) lists.now.state.exits from reference }
{
    match reference {
        None => true,
        Some(name) => {
            let to = lists.owner(name.seg);
            passes(from, to) && (is_same_heap(from, to) || has_exit(lists, from, name))
        }
    }
}

/// The same of a field.
fn value_guarded(lists: &PlainLists, from: Heap, value: FieldValue) -> bool
    requires { AreExitsFrom lists.now.setup 0 None lists.now.state.exits }
    ensures { result ≡ content_guarded (owner_of lists.now.setup lists.now.state) lists.now.state.exits from (content value) }
{
    match value {
        FieldValue::Reference(reference) => reference_guarded(lists, from, reference),
        FieldValue::Integer(_) => true,
    }
}

/// The same of all fields of an object.
fn object_guarded(lists: &PlainLists, object: &PlainObject) -> bool
    requires { AreExitsFrom lists.now.setup 0 None lists.now.state.exits }
    ensures { result ≡ object_guarded (owner_of lists.now.setup lists.now.state) lists.now.state.exits object.now }
{
    let from = lists.owner(object.name().seg);
    for value in object.fields() {
        if !value_guarded(lists, from, *value) {
            return false;
        }
    }
    true
}

/// The same of these objects.
fn all_guarded(lists: &PlainLists, objects: &[PlainObject]) -> bool
    requires { AreExitsFrom lists.now.setup 0 None lists.now.state.exits }
    ensures { result ≡ list_all (object_guarded (owner_of lists.now.setup lists.now.state) lists.now.state.exits) objects.now }
{
    for object in objects {
        if !object_guarded(lists, object) {
            return false;
        }
    }
    true
}

/// The same of all objects, segment by segment.
fn objects_guarded(lists: &PlainLists) -> bool
    requires { AreExitsFrom lists.now.setup 0 None lists.now.state.exits }
    ensures { result ≡ list_all (object_guarded (owner_of lists.now.setup lists.now.state) lists.now.state.exits) lists.now.state.objects }
{
    let _shape = lists.setup();
    for s in 0..lists.segment_count() {
        if !all_guarded(lists, lists.objects_in(Seg(s))) {
            return false;
        }
    }
    true
}

/// The third point: each reference passes the barrier, and has its exit item where it leaves its heap. Finds each exit item by halving.
pub fn are_guarded(lists: &PlainLists) -> bool
    requires { AreExitsFrom lists.now.setup 0 None lists.now.state.exits }
    ensures { IsTrue result ↔ AreGuarded (owner_of lists.now.setup lists.now.state) lists.now.state.objects lists.now.state.exits }
{
    objects_guarded(lists)
}

/// Whether the exit item leaves its heap, and the barrier lets it pass.
fn exit_leaves(lists: &PlainLists, exit: &ExitItem) -> bool
    ensures { result ≡ exit_leaves (owner_of lists.now.setup lists.now.state) exit.now }
{
    let to = lists.owner(exit.target().seg);
    !is_same_heap(exit.heap(), to) && passes(exit.heap(), to)
}

/// Whether that holds of all exit items.
fn exits_leave(lists: &PlainLists) -> bool
    ensures { result ≡ list_all (exit_leaves (owner_of lists.now.setup lists.now.state)) lists.now.state.exits }
{
    for exit in lists.exits() {
        if !exit_leaves(lists, exit) {
            return false;
        }
    }
    true
}

/// The fourth point: each exit item leaves its heap, and the barrier lets it pass.
pub fn are_exits(lists: &PlainLists) -> bool
    ensures { IsTrue result ↔ AreExits (owner_of lists.now.setup lists.now.state) lists.now.state.exits }
{
    exits_leave(lists)
}
