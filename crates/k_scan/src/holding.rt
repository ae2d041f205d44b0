//! Marks of the objects that are held from outside their heap, or by the heap's own process.
ghost use Rattle.std.specs.Prelude.{◌≡◌, IfOk, Some};
ghost use Rattle.std.specs.List.{list_any};
ghost use Rattle.k_scan.specs.Marks.{AreMarks, HasFound, lengths, sizes_of};
ghost use Rattle.k_types.specs.Names.{leads_to, name_eq};
ghost use Rattle.k_types.specs.Owners.{objects_of, owner_of};
ghost use Rattle.k_types.specs.Reach.{has_entry, is_held, is_pinned, is_root};
ghost use Rattle.k_types.specs.Trace.{process_count};

use crate::marking::Marks;
use k_state::{PlainLists, is_same_heap};
use k_types::{Heap, Name, NoMemory, Pid, Seg, Serial};
use std::alloc::Global;

// The object from which every run begins.
const DIRECTORY: Name = Name {
    seg: Seg(0),
    serial: Serial(1),
};

// Marks the object of that name, where it is the heap's.
fn find(lists: &PlainLists, heap: Heap, marks: &mut Marks, name: Name)
    requires { lengths marks.old ≡ sizes_of lists.now.setup lists.now.state (Some heap) }
    ensures { HasFound lists.now.state.objects (objects_of (owner_of lists.now.setup lists.now.state) heap lists.now.state.objects)
        (λ n. name_eq name n) marks.old marks.new }
{
    if is_same_heap(lists.owner(name.seg), heap) {
        let _fresh = marks.mark(lists, name);
    }
}

// Marks those of the heap's objects to which another heap has an exit item.
fn find_entered(lists: &PlainLists, heap: Heap, marks: &mut Marks)
    requires { lengths marks.old ≡ sizes_of lists.now.setup lists.now.state (Some heap) }
    ensures { HasFound lists.now.state.objects (objects_of (owner_of lists.now.setup lists.now.state) heap lists.now.state.objects)
        (λ n. has_entry (λ seg. heap) lists.now.state.exits n) marks.old marks.new }
{
    for item in lists.exits() {
        if !item.is_of(heap) {
            find(lists, heap, marks, item.target());
        }
    }
}

// Marks those of the heap's objects that one of the registers holds.
fn find_in_registers(lists: &PlainLists, heap: Heap, marks: &mut Marks, registers: &[Option<Name>])
    requires { lengths marks.old ≡ sizes_of lists.now.setup lists.now.state (Some heap) }
    ensures { HasFound lists.now.state.objects (objects_of (owner_of lists.now.setup lists.now.state) heap lists.now.state.objects)
        (λ n. list_any (λ r. leads_to r n) registers.now) marks.old marks.new }
{
    for register in registers {
        if let Some(name) = *register {
            find(lists, heap, marks, name);
        }
    }
}

// Marks those of the heap's objects that a process of another heap holds in a register.
fn find_pinned(lists: &PlainLists, heap: Heap, marks: &mut Marks)
    requires { lengths marks.old ≡ sizes_of lists.now.setup lists.now.state (Some heap) }
    ensures { HasFound lists.now.state.objects (objects_of (owner_of lists.now.setup lists.now.state) heap lists.now.state.objects)
        (λ n. is_pinned (process_count lists.now.setup) (λ seg. heap) lists.now.state.registers n) marks.old marks.new }
{
    let _shape = lists.setup();
    for p in 0..lists.process_count() as u32 {
        if !is_same_heap(Heap::User(Pid(p)), heap) {
            find_in_registers(lists, heap, marks, lists.registers(Pid(p)));
        }
    }
}

// Marks those of the heap's objects that its own process holds in a register, or the directory in the kernel's heap.
#[tactic(auto, unfolding(k_types::specs::Reach::is_held))]
fn find_held(lists: &PlainLists, heap: Heap, marks: &mut Marks)
    requires { lengths marks.old ≡ sizes_of lists.now.setup lists.now.state (Some heap) }
    ensures { HasFound lists.now.state.objects (objects_of (owner_of lists.now.setup lists.now.state) heap lists.now.state.objects)
        (λ n. is_held lists.now.state heap n) marks.old marks.new }
{
    let _shape = lists.setup();
    match heap {
        Heap::Kernel => find(lists, heap, marks, DIRECTORY),
        Heap::User(pid) if (pid.0 as usize) < lists.process_count() => {
            find_in_registers(lists, heap, marks, lists.registers(pid));
        }
        _ => {}
    }
}

// Marks the objects of the heap with which a collection begins. Walks over all exit items and registers, and finds each object
// by halving.
pub(crate) fn mark_roots(alloc: Global, lists: &PlainLists, heap: Heap) -> Result<Marks, NoMemory>
    ensures { IfOk result (λ marks. AreMarks lists.now.setup lists.now.state (Some heap) marks (is_root lists.now.setup lists.now.state heap)) }
{
    let _shape = lists.setup();
    let mut marks = Marks::none(alloc, lists, Some(heap))?;
    find_entered(lists, heap, &mut marks);
    find_pinned(lists, heap, &mut marks);
    find_held(lists, heap, &mut marks);
    Ok(marks)
}
