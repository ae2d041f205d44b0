//! For how much a host has room.
ghost use Rattle.std.specs.Prelude.{◌≡◌, ◌+◌, ◌*◌, ◌<◌, ◌^◌};
ghost use Rattle.k_guests.specs.Enough.{greater, lesser, most_events, most_room};

/// The most events for which a host can be asked to have room.
const MOST_EVENTS: u64 = (1 << 55) - 1;

/// The most of anything else for which a host can be asked to have room.
const MOST: u32 = (1 << 30) - 1;

/// The most events of one process that are unpublished, where nobody says how many.
const LONG_TAIL: u32 = 1024;

/// For how much a host has room. What comes to rest in a table is tested against its room when it is added.
#[derive(Clone, Copy, Debug, PartialEq, Eq)]
pub struct Rooms {
    /// How many events the journal can have in the host's whole life.
    pub events: u64,
    /// How many of the last events can be read.
    pub kept: u32,
    /// How many events of one process can be unpublished, at least 1.
    pub tail: u32,
    /// How many objects can live at once in the segment of one heap, at least 1.
    pub objects: u32,
    /// How many exit items the heap of one process can have, or one shared heap.
    pub exits: u32,
    /// How many exit items the kernel's heap can have, those for the ends of all processes with them: `exits` for each process that
    /// lives are kept back.
    pub kernel_exits: u32,
    /// How many objects there can be into which exit items lead.
    pub entries: u32,
}

/// So many for each of so many heaps, but no more than a host can be asked to have room for.
fn for_all(heaps: u64, each: u32) -> u32
    ensures { result ≡ lesser (heaps * each) most_room }
{
    match heaps.checked_mul(u64::from(each)) {
        Some(all) => {
            if all < u64::from(MOST) {
                all as u32
            } else {
                MOST
            }
        }
        None => MOST,
    }
}

/// As many unpublished events as there can be objects, at least one and at most `LONG_TAIL`.
fn tail_for(objects: u32) -> u32
    ensures { result ≡ lesser (greater objects 1) 1024 }
{
    objects.max(1).min(LONG_TAIL)
}

impl Rooms {
    /// What is enough for a host of so many processes and shared heaps whose heaps can have so many objects each: as many exit items as
    /// objects, and as many events as there can be, none of which is kept for reading. Where all that would be more than a host can be
    /// asked to have room for, it is the most of that.
    pub fn for_objects(objects: u32, processes: u32, heaps: u32) -> Rooms
        ensures events { result.events ≡ most_events }
        ensures kept { result.kept ≡ 0 }
        ensures tail { result.tail ≡ lesser (greater objects 1) 1024 }
        ensures objects { result.objects ≡ objects }
        ensures exits { result.exits ≡ objects }
        ensures kernel_exits { result.kernel_exits ≡ lesser ((processes + 1) * objects) most_room }
        ensures entries { result.entries ≡ lesser ((processes + heaps + 1) * objects) most_room }
    {
        let processes = u64::from(processes);
        Rooms {
            events: MOST_EVENTS,
            kept: 0,
            tail: tail_for(objects),
            objects,
            exits: objects,
            kernel_exits: for_all(processes + 1, objects),
            entries: for_all(processes + u64::from(heaps) + 1, objects),
        }
    }
}
