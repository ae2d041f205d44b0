//! Larger rooms for a host, in numbers.
ghost use Rattle.std.specs.Prelude.{◌≡◌};
ghost use Rattle.k_embed.specs.Growing.{IsGrown, IsGrownIn, of_grown};

use crate::codes::{lacking_host, number, plain};
use crate::messages::{Answer, Rooms};
use crate::serving::{Slot, rooms_of};
use k_chronicle::{GrowError, Keeper};

/// What came of it: how many of the last events can be read now, or why the rooms are those that they were.
fn of_grown(came: Result<u32, GrowError>) -> Answer
    ensures { result ≡ of_grown came }
{
    match came {
        Ok(kept) => number(u64::from(kept)),
        Err(GrowError::NoMemory(_)) => plain(6, 0, 0),
        Err(GrowError::Rooms) => plain(19, 0, 0),
    }
}

/// Gives the host these rooms, if they are larger ones and there is memory.
fn grow_host(host: &mut Keeper, rooms: Rooms) -> Answer
    ensures { IsGrown host.old host.new rooms result }
{
    of_grown(host.grow(rooms_of(rooms)))
}

/// Gives the host in that place these rooms, if they are larger ones and there is memory, and answers how many of the last events can be read
/// now. Else nothing has changed, and the answer says why. Time and memory go with the new rooms, as `Host::grow` says.
pub fn grow(slot: &mut Slot, rooms: Rooms) -> Answer
    ensures { IsGrownIn slot.old slot.new rooms result }
{
    match &mut slot.host {
        Some(host) => grow_host(host, rooms),
        None => lacking_host(slot.line, slot.reason),
    }
}
