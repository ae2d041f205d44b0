//! The measurements of a heap: creation, links, marking and sweeping.
ghost use Rattle.std.specs.Prelude.{◌≡◌, ◌+◌, ◌<◌, ◌≤◌, length, IfOk, IfSome};
ghost use Rattle.k_space.specs.Areas.{HasDistinct, unmarked};
ghost use Rattle.k_measure.specs.Inside.{AreNew, KeepsInside, IsOne, HasNoBlack};

use crate::watch::Watch;
use k_exit::ExitTable;
use k_mark::{Swept, clear, mark_uncounted, root, sweep};
use k_space::{Area, Body, Segment};
use k_types::{Field, Link, NoMemory, Seg, Serial, TypeId, TypeTable};
use std::alloc::Global;
use std::time::CpuClock;

/// How far a measurement goes.
#[derive(Clone, Copy, Debug, PartialEq, Eq, PartialOrd, Ord)]
pub enum Stage {
    Make,
    Place,
    Link,
    Mark,
    Sweep,
    MarkHalf,
    SweepHalf,
}

/// What is there in the end, and what was freed.
#[derive(Clone, Copy)]
pub struct Outcome {
    pub objects: u32,
    pub bytes: u64,
    pub freed: u32,
    pub freed_bytes: u64,
}

/// The segment of all objects.
pub const SEG: Seg = Seg(1);

/// More serials than a measurement gives.
const MANY: u32 = 20_000_000;

/// The one type of the objects: two references and an integer.
pub fn types(alloc: Global) -> Result<TypeTable, NoMemory>
    ensures { IfOk result (λ t. length t ≡ 1) }
{
    let row = vec![in alloc; Field::Ref, Field::Ref, Field::Int]?;
    let rows = vec![in alloc; row]?;
    TypeTable::make(alloc, &rows)
}

/// So many new objects.
pub fn make(alloc: Global, types: &TypeTable, size: u32) -> Result<Vec<Body>, NoMemory>
    requires { 0 < length types.now }
    ensures count { IfOk result (λ bodies. length bodies.items ≡ size) }
    ensures new { IfOk result (λ bodies. AreNew bodies.items) }
{
    let mut bodies = Vec::with_capacity(alloc, size as usize)?;
    for _made in 0..size {
        bodies.push_reserved(Body::make(alloc, types, TypeId(0))?);
    }
    Ok(bodies)
}

/// Puts all the objects in.
pub fn place(segment: &mut Segment, bodies: Vec<Body>)
    requires begun { 0 < length segment.old.rows }
    requires room { length segment.old.rows + length bodies.items ≤ segment.old.room + 1 }
    requires new { AreNew bodies.items }
    requires inside { KeepsInside segment.old }
    ensures inside { KeepsInside segment.new }
    ensures number { segment.new.number ≡ segment.old.number }
{
    for body in bodies {
        // Read so that the proof knows that no more live than serials were given.
        let _given = segment.made();
        segment.place(body);
    }
}

/// A reference to the object of that serial, where it is there.
pub fn link_to(segment: &Segment, serial: u32) -> Option<Link>
    ensures { IfSome result (λ link. link.seg.0 ≡ segment.now.number) }
{
    match segment.find(Serial(serial)) {
        Some(slot) => Some(Link {
            seg: segment.number(),
            slot,
            serial: Serial(serial),
        }),
        None => None,
    }
}

/// Has a field of one object refer to another, where both are there.
fn link_one(segment: &mut Segment, from: u32, field: u32, to: u32)
    requires inside { KeepsInside segment.old }
    ensures inside { KeepsInside segment.new }
    ensures number { segment.new.number ≡ segment.old.number }
{
    let Some(slot) = segment.find(Serial(from)) else {
        return;
    };
    let target = link_to(segment, to);
    if let Some(Field::Ref) = segment.kind_of(slot, field) {
        segment.write_ref(slot, field, target);
    }
}

/// Has each object of serial i refer to those of serials 2i + i % 2 and the second after it, where they are there: two trees,
/// of the odd serials below 1 and of the even ones below 2.
pub fn link(segment: &mut Segment, size: u32)
    requires small { size ≤ 10000000 }
    requires inside { KeepsInside segment.old }
    ensures inside { KeepsInside segment.new }
    ensures number { segment.new.number ≡ segment.old.number }
{
    for i in 1..size + 1 {
        let first = 2 * i + i % 2;
        link_one(segment, i, 0, first);
        link_one(segment, i, 1, first + 2);
    }
}

/// Makes the object of that serial a root, if it is there.
fn root_at(area: &mut Area, serial: u32)
    requires distinct { HasDistinct area.old.segments }
    requires clean { HasNoBlack area.old }
    ensures kept { unmarked area.new ≡ unmarked area.old }
    ensures clean { HasNoBlack area.new }
{
    let Some(segment) = area.get(SEG) else {
        return;
    };
    if let Some(link) = link_to(segment, serial) {
        root(area, link);
    }
}

/// Makes the object of serial 1 a root, and with `both` that of serial 2.
pub fn roots(area: &mut Area, both: bool)
    requires distinct { HasDistinct area.old.segments }
    requires clean { HasNoBlack area.old }
    ensures kept { unmarked area.new ≡ unmarked area.old }
    ensures clean { HasNoBlack area.new }
{
    root_at(area, 1);
    if both {
        root_at(area, 2);
    }
}

/// Marks what the object of serial 1 reaches, and with `both` what that of serial 2 reaches.
fn mark(area: &mut Area, exits: &mut ExitTable, both: bool)
    requires one { IsOne area.old }
    ensures one { IsOne area.new }
{
    clear(area, exits);
    roots(area, both);
    mark_uncounted(area, exits);
}

/// Sweeps the segment. That it has fewer than `MANY` serials is tested here, once a sweep.
fn sweep_one(area: &mut Area) -> Swept
    requires one { IsOne area.old }
    ensures one { IsOne area.new }
{
    let mut swept = Swept {
        objects: 0,
        bytes: 0,
    };
    let Some(segment) = area.get(SEG) else {
        return swept;
    };
    // Its range bounds what can be freed.
    let _bytes = segment.bytes();
    if segment.made() < MANY {
        sweep(area, &mut swept);
    }
    swept
}

/// What is there of so many objects after a sweep.
fn found(made: u32, bytes: u64, swept: Swept) -> Outcome {
    Outcome {
        objects: made.saturating_sub(swept.objects),
        bytes,
        freed: swept.objects,
        freed_bytes: swept.bytes,
    }
}

/// The bytes of the one segment.
fn bytes_of(area: &Area) -> u64
    requires { IsOne area.now }
{
    match area.get(SEG) {
        Some(segment) => segment.bytes(),
        None => 0,
    }
}

/// Collects twice: first all objects are reached, then half of them. Gives what the last sweep freed.
fn collect<R: CpuClock + Eprint>(
    rt: &R,
    watch: &mut Watch,
    area: &mut Area,
    exits: &mut ExitTable,
    last: Stage,
) -> Swept
    requires one { IsOne area.old }
    ensures one { IsOne area.new }
{
    let mut swept = Swept {
        objects: 0,
        bytes: 0,
    };
    watch.lap(rt, "before");
    mark(area, exits, true);
    watch.lap(rt, "mark");
    if last >= Stage::Sweep {
        swept = sweep_one(area);
        watch.lap(rt, "sweep");
    }
    if last >= Stage::MarkHalf {
        mark(area, exits, false);
        watch.lap(rt, "mark_half");
    }
    if last >= Stage::SweepHalf {
        swept = sweep_one(area);
        watch.lap(rt, "sweep_half");
    }
    swept
}

/// An area of the one segment.
fn area_of(alloc: Global, segment: Segment) -> Result<Area, NoMemory>
    requires { KeepsInside segment }
    ensures { IfOk result (λ area. IsOne area) }
{
    let mut area = Area::make(alloc, 1)?;
    area.add(segment);
    Ok(area)
}

/// Nothing freed.
const NONE: Swept = Swept {
    objects: 0,
    bytes: 0,
};

/// Goes on from the segment with its objects to that stage.
fn run_on<R: Alloc<A = Global> + CpuClock + Eprint>(
    rt: &R,
    watch: &mut Watch,
    mut segment: Segment,
    size: u32,
    last: Stage,
) -> Result<Outcome, NoMemory>
    requires small { size ≤ 10000000 }
    requires inside { KeepsInside segment }
{
    let made = segment.made();
    if last < Stage::Link {
        return Ok(found(made, segment.bytes(), NONE));
    }
    link(&mut segment, size);
    watch.lap(rt, "link");
    let bytes = segment.bytes();
    if last < Stage::Mark {
        return Ok(found(made, bytes, NONE));
    }
    let mut exits = ExitTable::make(rt.alloc(), 1)?;
    let mut area = area_of(rt.alloc(), segment)?;
    let swept = collect(rt, watch, &mut area, &mut exits, last);
    let left = bytes_of(&area);
    Ok(found(made, left, swept))
}

/// Makes so many objects and goes on to that stage.
pub fn run<R: Alloc<A = Global> + CpuClock + Eprint>(
    rt: &R,
    watch: &mut Watch,
    size: u32,
    last: Stage,
) -> Result<Outcome, NoMemory>
    requires { size ≤ 10000000 }
{
    let alloc = rt.alloc();
    let mut segment = Segment::make(alloc, SEG, size)?;
    let types = types(alloc)?;
    watch.lap(rt, "before");
    let bodies = make(alloc, &types, size)?;
    watch.lap(rt, "make");
    if last < Stage::Place {
        return Ok(found(size, 0, NONE));
    }
    place(&mut segment, bodies);
    watch.lap(rt, "place");
    run_on(rt, watch, segment, size, last)
}

/// Clears so many times.
fn clear_rounds(heap: &mut Area, exits: &mut ExitTable, rounds: u32)
    requires one { IsOne heap.old }
    ensures one { IsOne heap.new }
{
    for _round in 0..rounds {
        clear(heap, exits);
    }
}

/// Clears and marks so many times.
fn mark_rounds(area: &mut Area, exits: &mut ExitTable, rounds: u32)
    requires one { IsOne area.old }
    ensures one { IsOne area.new }
{
    for _round in 0..rounds {
        mark(area, exits, false);
    }
}

/// Clears, marks and sweeps so many times.
fn collect_rounds(area: &mut Area, exits: &mut ExitTable, rounds: u32)
    requires one { IsOne area.old }
    ensures one { IsOne area.new }
{
    for _round in 0..rounds {
        mark(area, exits, false);
        let _swept = sweep_one(area);
    }
}

/// Collects so many times, where of `size` objects that were made about `live` are reached.
pub fn run_again<R: Alloc<A = Global> + CpuClock + Eprint>(
    rt: &R,
    watch: &mut Watch,
    size: u32,
    live: u32,
    rounds: u32,
) -> Result<Outcome, NoMemory>
    requires small { size ≤ 10000000 }
    requires live { live ≤ 10000000 }
{
    let alloc = rt.alloc();
    let room = size;
    let mut segment = Segment::make(alloc, SEG, room)?;
    let types = types(alloc)?;
    let bodies = make(alloc, &types, size)?;
    place(&mut segment, bodies);
    link(&mut segment, live);
    let mut exits = ExitTable::make(rt.alloc(), 1)?;
    let mut area = area_of(rt.alloc(), segment)?;
    mark(&mut area, &mut exits, false);
    let swept = sweep_one(&mut area);
    watch.lap(rt, "before");
    clear_rounds(&mut area, &mut exits, rounds);
    watch.lap(rt, "clears");
    mark_rounds(&mut area, &mut exits, rounds);
    watch.lap(rt, "clears_marks");
    collect_rounds(&mut area, &mut exits, rounds);
    watch.lap(rt, "collections");
    let left = bytes_of(&area);
    Ok(found(size, left, swept))
}
