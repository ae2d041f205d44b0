//! The names that the measurements of the tables take, in a scattered order.
ghost use Rattle.std.specs.Prelude.{◌≡◌, ◌≤◌, ◌<◌, length, IfOk};
ghost use Rattle.k_types.specs.Names.{name_of};
ghost use Rattle.k_measure.specs.Counts.{AreBelow};

use k_types::{Link, Name, NoMemory, Seg, Serial, Slot};
use std::alloc::Global;

/// How often each target is taken in a measurement.
pub const ROUNDS: u32 = 10;

/// The name of that number: its segment goes round from 1 to 4, and its serial rises.
fn name_of_number(number: u32) -> Name
    ensures { result.seg.0 < 5 }
{
    Name {
        seg: Seg(1 + number % 4),
        serial: Serial(1 + number / 4),
    }
}

/// The names of the numbers below `count`, in a scattered order. With `half` every second one is replaced by one that isn't among
/// them.
pub fn scattered(alloc: Global, count: u32, half: bool) -> Result<Vec<Name>, NoMemory>
    requires { count ≤ 1000000 }
    ensures count { IfOk result (λ names. length names.items ≡ count) }
    ensures below { IfOk result (λ names. AreBelow 5 names.items) }
{
    let mut names = Vec::with_capacity(alloc, count as usize)?;
    for i in 0..count {
        let number = (i as u64 * 7919 % count as u64) as u32;
        let beyond = if half && i % 2 == 1 { count } else { 0 };
        names.push_reserved(name_of_number(number + beyond));
    }
    Ok(names)
}

/// A reference to the object of that name. Its slot, a hint, is 0.
pub fn link_to(name: Name) -> Link
    ensures { name_of result ≡ name }
{
    Link {
        seg: name.seg,
        slot: Slot(0),
        serial: name.serial,
    }
}
