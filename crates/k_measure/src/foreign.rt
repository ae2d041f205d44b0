//! The measurement of marking in a heap of whose references half lead to objects of another heap.
ghost use Rattle.std.specs.Prelude.{◌≡◌, ◌+◌, ◌≤◌, ◌<◌};
ghost use Rattle.k_measure.specs.Inside.{IsOneWith, KeepsExits};

use crate::exits::drain;
use crate::heap::{SEG, link, make, place, roots, types};
use crate::names::{ROUNDS, link_to};
use crate::watch::Watch;
use k_exit::ExitTable;
use k_mark::{clear, mark_uncounted};
use k_space::{Area, Segment};
use k_types::{Field, Link, Name, NoMemory, Seg, Serial};
use std::alloc::Global;
use std::time::CpuClock;

/// The segment of the other heap's objects.
const FAR: Seg = Seg(2);

/// What came of marking.
#[derive(Clone, Copy)]
pub struct Marked {
    /// The bytes of all objects.
    pub bytes: u64,
    /// How many exit items are marked.
    pub targets: u32,
    /// How many aren't.
    pub others: u64,
}

/// A reference to the object of the other heap that stands for that number; so many do.
fn far(number: u32, count: u32) -> Link
    requires some { 0 < count }
    requires small { count ≤ 10000000 }
{
    link_to(Name {
        seg: FAR,
        serial: Serial(1 + number % count),
    })
}

/// Has a field of one object refer to the target, with an exit item to it, where the object is there. That there is room is
/// tested here.
fn refer_out(
    segment: &mut Segment,
    exits: &mut ExitTable,
    from: u32,
    field: u32,
    target: Link,
    room: u32,
)
    requires room { exits.old.room ≡ room }
    requires kept { KeepsExits exits.old.items segment.old }
    ensures room { exits.new.room ≡ room }
    ensures kept { KeepsExits exits.new.items segment.new }
{
    let Some(slot) = segment.find(Serial(from)) else {
        return;
    };
    if exits.len() < room {
        exits.add(target);
        if let Some(Field::Ref) = segment.kind_of(slot, field) {
            segment.write_ref(slot, field, Some(target));
        }
    }
}

/// Has each field that would refer to an object past the last one refer to one of `count` objects of the other heap.
fn link_out(segment: &mut Segment, exits: &mut ExitTable, size: u32, count: u32)
    requires small { size ≤ 10000000 }
    requires count { (0 < count) × (count ≤ 10000000) }
    requires room { exits.old.room ≡ count + 1 }
    requires kept { KeepsExits exits.old.items segment.old }
    ensures kept { KeepsExits exits.new.items segment.new }
{
    for i in 1..size + 1 {
        let first = 2 * i + i % 2;
        if first > size {
            refer_out(segment, exits, i, 0, far(2 * i, count), count + 1);
        }
        if first + 2 > size {
            refer_out(segment, exits, i, 1, far(2 * i + 1, count), count + 1);
        }
    }
}

/// Marks what the objects of serials 1 and 2 reach.
fn mark(area: &mut Area, exits: &mut ExitTable)
    requires { IsOneWith exits.old.items area.old }
{
    clear(area, exits);
    roots(area, true);
    mark_uncounted(area, exits);
}

/// Marks so many objects, half of whose references lead to `size / ROUNDS` objects of another heap.
pub fn run<R: Alloc<A = Global> + CpuClock + Eprint>(
    rt: &R,
    watch: &mut Watch,
    size: u32,
) -> Result<Marked, NoMemory>
    requires { size ≤ 10000000 }
{
    let alloc = rt.alloc();
    let count = size / ROUNDS + 1;
    let mut segment = Segment::make(alloc, SEG, size)?;
    let types = types(alloc)?;
    let bodies = make(alloc, &types, size)?;
    place(&mut segment, bodies);
    link(&mut segment, size);
    let mut exits = ExitTable::make(alloc, count + 1)?;
    link_out(&mut segment, &mut exits, size, count);
    let bytes = segment.bytes();
    let mut area = Area::make(alloc, 1)?;
    area.add(segment);
    watch.lap(rt, "before");
    mark(&mut area, &mut exits);
    watch.lap(rt, "mark_foreign");
    let others = drain(&mut exits);
    Ok(Marked {
        bytes,
        targets: exits.len(),
        others,
    })
}
