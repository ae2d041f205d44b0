//! The measurement of the entry items.
ghost use Rattle.std.specs.Prelude.{◌≡◌, ◌≤◌, ◌<◌, ◌+◌, ◌*◌, ◌⊎◌, [], length, IfOk};
ghost use Rattle.k_types.specs.declared.names.Name.{Name as Named};
ghost use Rattle.k_types.specs.Counted.{counted};
ghost use Rattle.k_measure.specs.Counts.{AreBelow, occurs};

use crate::names::{ROUNDS, link_to, scattered};
use crate::watch::Watch;
use k_entry::EntryTable;
use k_types::{Heap, Name, NoMemory, Pid};
use std::alloc::Global;
use std::time::CpuClock;

/// What comes last.
#[derive(Clone, Copy, Debug, PartialEq, Eq)]
pub enum Last {
    Up,
    Down,
    Walk,
}

/// Counts each target once more.
fn up_all(table: &mut EntryTable, targets: &[Name])
    requires homes { AreBelow (length table.old.homes) targets.now }
    requires room { (length table.old.items + length targets.now ≤ table.old.room) ⊎ ((n : Named) → 0 < occurs targets.now n → 0 < counted table.old.items n) }
    requires small { (n : Named) → counted table.old.items n + length targets.now < 4294967295 }
    ensures counts { (n : Named) → counted table.new.items n ≡ counted table.old.items n + occurs targets.now n }
    ensures homes { table.new.homes ≡ table.old.homes }
    ensures room { table.new.room ≡ table.old.room }
{
    for target in targets {
        table.up(link_to(*target));
    }
}

/// Counts each target once less.
fn down_all(table: &mut EntryTable, targets: &[Name])
    requires { (n : Named) → occurs targets.now n ≤ counted table.old.items n }
    ensures { (n : Named) → counted table.new.items n + occurs targets.now n ≡ counted table.old.items n }
{
    for target in targets {
        table.down(*target);
    }
}

/// Counts each target up again and again. Only in the first round it may be new.
fn up_rounds(table: &mut EntryTable, targets: &[Name])
    requires homes { AreBelow (length table.old.homes) targets.now }
    requires empty { table.old.items ≡ [] }
    requires room { length targets.now ≤ table.old.room }
    requires few { length targets.now ≤ 1000000 }
    ensures { (n : Named) → counted table.new.items n ≡ 10 * occurs targets.now n }
{
    for _round in 0..ROUNDS {
        up_all(table, targets);
    }
}

/// Counts each target down as often.
fn down_rounds(table: &mut EntryTable, targets: &[Name])
    requires { (n : Named) → counted table.old.items n ≡ 10 * occurs targets.now n }
{
    for _round in 0..ROUNDS {
        down_all(table, targets);
    }
}

/// The counts of the targets in all.
fn total(table: &EntryTable, targets: &[Name]) -> u64 {
    let mut total: u64 = 0;
    for target in targets {
        total = total.saturating_add(table.count(*target) as u64);
    }
    total
}

/// The serials on the walk of that home together, of so many objects at most.
fn walk(table: &EntryTable, heap: Heap, most: u32) -> u64 {
    let mut sum: u64 = 0;
    let mut at = table.first_of(heap);
    for _step in 0..most {
        let Some(link) = at else {
            return sum;
        };
        sum = sum.wrapping_add(link.serial.0 as u64);
        at = table.next_at(link);
    }
    sum
}

/// The serials on the walks of all homes together.
fn walk_all(table: &EntryTable, most: u32) -> u64 {
    let mut sum = walk(table, Heap::Kernel, most);
    for number in 0..4 {
        sum = sum.wrapping_add(walk(table, Heap::User(Pid(number)), most));
    }
    sum
}

/// Walks again and again.
fn walk_rounds(table: &EntryTable, most: u32) -> u64 {
    let mut sum: u64 = 0;
    for _round in 0..ROUNDS {
        sum = sum.wrapping_add(walk_all(table, most));
    }
    sum
}

/// A table with a home for each of the segments 0 to 4.
fn table_of(alloc: Global, room: u32) -> Result<EntryTable, NoMemory>
    ensures empty { IfOk result (λ t. t.items ≡ []) }
    ensures homes { IfOk result (λ t. length t.homes ≡ 5) }
    ensures room { IfOk result (λ t. t.room ≡ room) }
{
    let homes = vec![in alloc;
        Heap::Kernel,
        Heap::User(Pid(0)),
        Heap::User(Pid(1)),
        Heap::User(Pid(2)),
        Heap::User(Pid(3)),
    ]?;
    EntryTable::make(alloc, &homes, room)
}

/// Counts `size / ROUNDS` targets up again and again, `size` calls in all, and then down as often, or walks as often along
/// all of them. Gives the counts that are left in all, or the serials that were passed.
pub fn run<R: Alloc<A = Global> + CpuClock + Eprint>(
    rt: &R,
    watch: &mut Watch,
    size: u32,
    last: Last,
) -> Result<u64, NoMemory>
    requires { size ≤ 10000000 }
{
    let alloc = rt.alloc();
    let targets = scattered(alloc, size / ROUNDS, false)?;
    let mut table = table_of(alloc, size / ROUNDS)?;
    watch.lap(rt, "before");
    up_rounds(&mut table, &targets);
    watch.lap(rt, "up");
    if last == Last::Walk {
        let sum = walk_rounds(&table, size / ROUNDS);
        watch.lap(rt, "walk");
        return Ok(sum);
    }
    if last == Last::Down {
        down_rounds(&mut table, &targets);
        watch.lap(rt, "down");
    }
    Ok(total(&table, &targets))
}
