//! The measurement of the exit items.
ghost use Rattle.std.specs.Prelude.{◌≡◌, ◌≤◌, length};

use crate::names::{ROUNDS, link_to, scattered};
use crate::watch::Watch;
use k_exit::ExitTable;
use k_types::{Name, NoMemory};
use std::alloc::Global;
use std::time::CpuClock;

/// What came of the calls of an exit table.
#[derive(Clone, Copy)]
pub struct Found {
    pub targets: u32,
    /// How many calls of `add` were true.
    pub new: u64,
    /// How many calls of `has` were true.
    pub there: u64,
}

/// Adds the target where there is room, which is tested here, and gives 1 where it was new.
fn add_one(table: &mut ExitTable, target: Name, room: u32) -> u64
    requires { table.old.room ≡ room }
    ensures room { table.new.room ≡ room }
    ensures new { result ≤ 1 }
{
    if table.len() < room && table.add(link_to(target)) {
        1
    } else {
        0
    }
}

/// Adds each target, and counts those that were new.
fn add_all(table: &mut ExitTable, targets: &[Name], room: u32) -> u64
    requires { table.old.room ≡ room }
    ensures room { table.new.room ≡ room }
    ensures new { result ≤ length targets.now }
{
    let mut new = 0;
    for target in targets {
        new += add_one(table, *target, room);
    }
    new
}

/// Adds the targets again and again.
fn add_rounds(table: &mut ExitTable, targets: &[Name], room: u32) -> u64
    requires room { table.old.room ≡ room }
    requires few { length targets.now ≤ 1000000 }
{
    let mut new = 0;
    for _round in 0..ROUNDS {
        new += add_all(table, targets, room);
    }
    new
}

/// How many of the names are there.
fn count_there(table: &ExitTable, names: &[Name]) -> u64
    ensures { result ≤ length names.now }
{
    let mut there = 0;
    for name in names {
        there += table.has(*name) as u64;
    }
    there
}

/// Looks the names up again and again.
fn count_rounds(table: &ExitTable, names: &[Name]) -> u64
    requires { length names.now ≤ 1000000 }
{
    let mut there = 0;
    for _round in 0..ROUNDS {
        there += count_there(table, names);
    }
    there
}

/// Marks the names that are there.
fn mark_there(table: &mut ExitTable, names: &[Name])
    ensures { table.new.room ≡ table.old.room }
{
    for name in names {
        if table.has(*name) {
            table.mark(*name);
        }
    }
}

/// Removes the targets that aren't marked, and counts them.
pub fn drain(table: &mut ExitTable) -> u64
    ensures { table.new.room ≡ table.old.room }
{
    let mut drained: u64 = 0;
    while let Some(_link) = table.take_unmarked() {
        drained = drained.saturating_add(1);
    }
    drained
}

/// What came of draining an exit table.
#[derive(Clone, Copy)]
pub struct Drained {
    pub targets: u32,
    pub drained: u64,
}

/// Drains the half of the targets that isn't marked, and adds it again, as often as there are rounds. Draining alone is timed.
fn drain_rounds<R: CpuClock + Eprint>(
    rt: &R,
    watch: &mut Watch,
    table: &mut ExitTable,
    targets: &[Name],
    names: &[Name],
    room: u32,
) -> u64
    requires room { table.old.room ≡ room }
{
    let mut drained: u64 = 0;
    for _round in 0..ROUNDS {
        add_all(table, targets, room);
        table.unmark_all();
        mark_there(table, names);
        watch.lap(rt, "before");
        drained = drained.saturating_add(drain(table));
        watch.lap(rt, "drain");
    }
    drained
}

/// Drains half of `size / ROUNDS` targets again and again: `size` items are passed in all.
pub fn run_drain<R: Alloc<A = Global> + CpuClock + Eprint>(
    rt: &R,
    watch: &mut Watch,
    size: u32,
) -> Result<Drained, NoMemory>
    requires { size ≤ 10000000 }
{
    let alloc = rt.alloc();
    let count = size / ROUNDS;
    let targets = scattered(alloc, count, false)?;
    let names = scattered(alloc, count, true)?;
    let mut table = ExitTable::make(alloc, count + 1)?;
    let drained = drain_rounds(rt, watch, &mut table, &targets, &names, count + 1);
    Ok(Drained {
        targets: table.len(),
        drained,
    })
}

/// Adds `size / ROUNDS` targets again and again, `size` calls in all, and then looks up as many names, half of which are there.
pub fn run<R: Alloc<A = Global> + CpuClock + Eprint>(
    rt: &R,
    watch: &mut Watch,
    size: u32,
    looks: bool,
) -> Result<Found, NoMemory>
    requires { size ≤ 10000000 }
{
    let alloc = rt.alloc();
    let count = size / ROUNDS;
    let targets = scattered(alloc, count, false)?;
    let names = scattered(alloc, count, true)?;
    let mut table = ExitTable::make(alloc, count + 1)?;
    watch.lap(rt, "before");
    let new = add_rounds(&mut table, &targets, count + 1);
    watch.lap(rt, "add");
    let mut there = 0;
    if looks {
        there = count_rounds(&table, &names);
        watch.lap(rt, "has");
    }
    Ok(Found {
        targets: table.len(),
        new,
        there,
    })
}
