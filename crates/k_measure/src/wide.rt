//! Marking an area of many segments, whose objects refer to those of their own segment.
ghost use Rattle.std.specs.Prelude.{◌≡◌, ◌≤◌, ◌<◌, length, IfOk};
ghost use Rattle.k_measure.specs.Inside.{AreInside, HasNoBlack, KeepsInside};

use crate::heap::{link, link_to, make, place, types};
use crate::watch::Watch;
use k_exit::ExitTable;
use k_mark::{clear, mark_uncounted, root};
use k_space::{Area, Segment};
use k_types::{NoMemory, Seg, TypeTable};
use std::alloc::Global;
use std::time::CpuClock;

/// How many segments there are.
const SEGMENTS: u32 = 129;

/// How often the area is marked.
const ROUNDS: u32 = 10;

/// A segment of that number, with so many objects.
fn segment_of(alloc: Global, types: &TypeTable, number: u32, size: u32) -> Result<Segment, NoMemory>
    requires types { 0 < length types.now }
    requires small { size ≤ 10000000 }
    ensures inside { IfOk result (λ s. KeepsInside s) }
    ensures number { IfOk result (λ s. s.number ≡ number) }
{
    let mut segment = Segment::make(alloc, Seg(number), size)?;
    let bodies = make(alloc, types, size)?;
    place(&mut segment, bodies);
    link(&mut segment, size);
    Ok(segment)
}

/// An area of so many segments, each of so many objects.
fn area_of(alloc: Global, types: &TypeTable, each: u32) -> Result<Area, NoMemory>
    requires types { 0 < length types.now }
    requires small { each ≤ 10000000 }
    ensures { IfOk result (λ a. AreInside a.segments) }
{
    let mut area = Area::make(alloc, SEGMENTS)?;
    for number in 0..SEGMENTS {
        let segment = segment_of(alloc, types, number, each)?;
        area.add(segment);
    }
    Ok(area)
}

/// Makes the first object of that segment a root.
fn root_in(area: &mut Area, seg: Seg)
    requires inside { AreInside area.old.segments }
    requires clean { HasNoBlack area.old }
    ensures inside { AreInside area.new.segments }
    ensures clean { HasNoBlack area.new }
{
    let Some(segment) = area.get(seg) else {
        return;
    };
    if let Some(link) = link_to(segment, 1) {
        root(area, link);
    }
}

/// Makes the first object of each segment a root.
fn roots(area: &mut Area)
    requires inside { AreInside area.old.segments }
    requires clean { HasNoBlack area.old }
    ensures inside { AreInside area.new.segments }
    ensures clean { HasNoBlack area.new }
{
    for number in 0..SEGMENTS {
        root_in(area, Seg(number));
    }
}

/// Marks what the first objects reach.
fn mark(area: &mut Area, exits: &mut ExitTable)
    requires { AreInside area.old.segments }
    ensures { AreInside area.new.segments }
{
    clear(area, exits);
    roots(area);
    mark_uncounted(area, exits);
}

/// Marks again and again.
fn mark_rounds(area: &mut Area, exits: &mut ExitTable)
    requires { AreInside area.old.segments }
    ensures { AreInside area.new.segments }
{
    for _round in 0..ROUNDS {
        mark(area, exits);
    }
}

/// The bytes of all segments.
fn bytes_of(area: &Area) -> u64
    requires { AreInside area.now.segments }
{
    let mut bytes: u64 = 0;
    for number in 0..SEGMENTS {
        if let Some(segment) = area.get(Seg(number)) {
            bytes = bytes.saturating_add(segment.bytes());
        }
    }
    bytes
}

/// Marks an area of about `size / ROUNDS` objects again and again. Gives their bytes.
pub fn run<R: Alloc<A = Global> + CpuClock + Eprint>(
    rt: &R,
    watch: &mut Watch,
    size: u32,
) -> Result<u64, NoMemory>
    requires { size ≤ 10000000 }
{
    let alloc = rt.alloc();
    let types = types(alloc)?;
    let mut exits = ExitTable::make(alloc, 1)?;
    let mut area = area_of(alloc, &types, size / (ROUNDS * SEGMENTS))?;
    watch.lap(rt, "before");
    mark_rounds(&mut area, &mut exits);
    watch.lap(rt, "wide");
    Ok(bytes_of(&area))
}
