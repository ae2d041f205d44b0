//! More objects for the segments of a host, which can be taken back.
ghost use Rattle.std.specs.Prelude.{◌≡◌, ◌+◌, ◌<◌, ◌≤◌, ◌^◌, ℕ, not, OnErr, OnOk, length, map};
ghost use Rattle.k_process.specs.Keeping.{is_absorbed_in};
ghost use Rattle.k_guests.specs.Growing.{FitsIn, HasObjects, HeapFitsIn, HeapHasObjects, OfEach, OfFirst, changed_first, guest_with_objects, heap_with_objects, kernel_with_objects, CanGrowGuest, CanGrowHeap, CanNarrowGuest, CanNarrowHeap, CanNarrowObjects, HaveFit, HaveGrownObjects, HaveObjects};

use crate::guest::Guest;
use k_kernel::KernelCell;
use k_shared::SharedCell;
use k_types::{NoMemory, Phase};

/// Has room for so many objects in the process's own segment, if it lives.
fn grow_guest(guest: &mut Guest, objects: u32) -> Result<(), NoMemory>
    requires more { CanGrowGuest objects guest.old }
    requires small { objects + 1 < 2 ^ 32 }
    ensures ok { OnOk result (guest.new ≡ guest_with_objects objects guest.old) }
    ensures fits { OnOk result ((old : ℕ) → HasObjects old guest.old → FitsIn old guest.old) }
    ensures err { OnErr result (guest.new ≡ guest.old) }
{
    if guest.cell.lives() {
        return guest.cell.grow_objects(objects);
    }
    Ok(())
}

/// Has room for no more than so many objects in the process's own segment, if it lives.
fn narrow_guest(guest: &mut Guest, objects: u32)
    requires { CanNarrowGuest objects guest.old }
    ensures { guest.new ≡ guest_with_objects objects guest.old }
{
    if guest.cell.lives() {
        guest.cell.narrow_objects(objects);
    }
}

/// The same of the first so many processes.
fn narrow_guests(guests: &mut Vec<Guest>, count: usize, objects: u32)
    requires count { count ≤ length guests.old.items }
    requires can { OfFirst (CanNarrowGuest objects) count guests.old.items }
    ensures { guests.new.items ≡ changed_first (guest_with_objects objects) count guests.old.items }
{
    for i in 0..count {
        narrow_guest(&mut guests[i], objects);
    }
}

/// Has room for so many objects in the own segment of each process that lives, where there was room for the old number.
fn grow_guests(guests: &mut Vec<Guest>, old: u32, objects: u32) -> Result<(), NoMemory>
    requires more { old ≤ objects }
    requires small { objects + 1 < 2 ^ 32 }
    requires own { OfEach (HasObjects old) guests.old.items }
    ensures ok { OnOk result (guests.new.items ≡ map (guest_with_objects objects) guests.old.items) }
    ensures fit { OnOk result (OfEach (FitsIn old) guests.old.items) }
    ensures err { OnErr result (guests.new.items ≡ guests.old.items) }
{
    for i in 0..guests.len() {
        if let Err(refused) = grow_guest(&mut guests[i], objects) {
            narrow_guests(guests, i, old);
            return Err(refused);
        }
    }
    Ok(())
}

/// Whether the shared heap is not absorbed.
fn stands(heap: &SharedCell) -> bool
    ensures { result ≡ not (is_absorbed_in heap.now.value.phase) }
{
    !matches!(heap.phase(), Phase::Absorbed)
}

/// Has room for so many objects in the shared heap's own segment, if it is not absorbed.
fn grow_heap(heap: &mut SharedCell, objects: u32) -> Result<(), NoMemory>
    requires more { CanGrowHeap objects heap.old }
    requires small { objects + 1 < 2 ^ 32 }
    ensures ok { OnOk result (heap.new ≡ heap_with_objects objects heap.old) }
    ensures fits { OnOk result ((old : ℕ) → HeapHasObjects old heap.old → HeapFitsIn old heap.old) }
    ensures err { OnErr result (heap.new ≡ heap.old) }
{
    if stands(heap) {
        return heap.grow_objects(objects);
    }
    Ok(())
}

/// Has room for no more than so many objects in the shared heap's own segment, if it is not absorbed.
fn narrow_heap(heap: &mut SharedCell, objects: u32)
    requires { CanNarrowHeap objects heap.old }
    ensures { heap.new ≡ heap_with_objects objects heap.old }
{
    if stands(heap) {
        heap.narrow_objects(objects);
    }
}

/// The same of the first so many shared heaps.
fn narrow_heaps(shared: &mut Vec<SharedCell>, count: usize, objects: u32)
    requires count { count ≤ length shared.old.items }
    requires can { OfFirst (CanNarrowHeap objects) count shared.old.items }
    ensures { shared.new.items ≡ changed_first (heap_with_objects objects) count shared.old.items }
{
    for i in 0..count {
        narrow_heap(&mut shared[i], objects);
    }
}

/// Has room for so many objects in the own segment of each shared heap that is not absorbed, where there was room for the old number.
fn grow_heaps(shared: &mut Vec<SharedCell>, old: u32, objects: u32) -> Result<(), NoMemory>
    requires more { old ≤ objects }
    requires small { objects + 1 < 2 ^ 32 }
    requires own { OfEach (HeapHasObjects old) shared.old.items }
    ensures ok { OnOk result (shared.new.items ≡ map (heap_with_objects objects) shared.old.items) }
    ensures fit { OnOk result (OfEach (HeapFitsIn old) shared.old.items) }
    ensures err { OnErr result (shared.new.items ≡ shared.old.items) }
{
    for i in 0..shared.len() {
        if let Err(refused) = grow_heap(&mut shared[i], objects) {
            narrow_heaps(shared, i, old);
            return Err(refused);
        }
    }
    Ok(())
}

/// Has room for so many objects in the own segment of each heap that lives, where there was room for the old number.
///
/// # Errors
///
/// `NoMemory` where memory runs out: then nothing has changed.
pub(crate) fn grow_objects(
    guests: &mut Vec<Guest>,
    kernel: &mut KernelCell,
    shared: &mut Vec<SharedCell>,
    old: u32,
    objects: u32,
) -> Result<(), NoMemory>
    requires more { old ≤ objects }
    requires small { objects + 1 < 2 ^ 32 }
    requires own { HaveObjects old guests.old.items kernel.old shared.old.items }
    ensures ok { OnOk result (HaveGrownObjects objects guests.old.items guests.new.items kernel.old kernel.new shared.old.items shared.new.items) }
    ensures fit { OnOk result (HaveFit old guests.old.items kernel.old shared.old.items) }
    ensures err { OnErr result ((guests.new.items ≡ guests.old.items) × (kernel.new ≡ kernel.old) × (shared.new.items ≡ shared.old.items)) }
{
    kernel.grow_objects(objects)?;
    if let Err(refused) = grow_guests(guests, old, objects) {
        kernel.narrow_objects(old);
        return Err(refused);
    }
    if let Err(refused) = grow_heaps(shared, old, objects) {
        let count = guests.len();
        narrow_guests(guests, count, old);
        kernel.narrow_objects(old);
        return Err(refused);
    }
    Ok(())
}

/// Has room for no more objects than before in the own segment of each heap that lives.
pub(crate) fn narrow_objects(
    guests: &mut Vec<Guest>,
    kernel: &mut KernelCell,
    shared: &mut Vec<SharedCell>,
    old: u32,
)
    requires { CanNarrowObjects old guests.old.items kernel.old shared.old.items }
    ensures { HaveGrownObjects old guests.old.items guests.new.items kernel.old kernel.new shared.old.items shared.new.items }
{
    let count = guests.len();
    narrow_guests(guests, count, old);
    kernel.narrow_objects(old);
    let count = shared.len();
    narrow_heaps(shared, count, old);
}
