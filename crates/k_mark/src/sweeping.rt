//! Sweeping: the objects that aren't marked are freed.
ghost use Rattle.std.specs.Prelude.{◌≡◌, ◌<◌, ◌≤◌, ◌+◌, ◌^◌, length};
ghost use Rattle.std.specs.List.{sum_by};
ghost use Rattle.k_space.specs.Areas.{HasDistinct};
ghost use Rattle.k_mark.specs.Listening.{AreTold, dead_at, dead_in};
ghost use Rattle.k_mark.specs.Sweeping.{swept, swept_segment, dead_objects, dead_bytes, dead_row, dead_bytes_of};

use crate::listening::{Listener, Nobody};
use k_laws::Name;
use k_space::{Area, Segment};

/// What was freed: how many objects, and how many bytes they took.
#[derive(Clone, Copy, Debug)]
pub struct Swept {
    pub objects: u32,
    pub bytes: u64,
}

/// Frees the objects of one segment that aren't marked, and tells their names.
fn sweep_segment<L: Listener>(segment: &mut Segment, from_dead: &mut Swept, listener: &mut L)
    requires objects { from_dead.old.objects + sum_by dead_row segment.old.rows < 2 ^ 32 }
    requires bytes { from_dead.old.bytes + sum_by dead_bytes_of segment.old.rows < 2 ^ 64 }
    ensures segment { segment.new ≡ swept_segment segment.old }
    ensures objects { from_dead.new.objects ≡ from_dead.old.objects + sum_by dead_row segment.old.rows }
    ensures bytes { from_dead.new.bytes ≡ from_dead.old.bytes + sum_by dead_bytes_of segment.old.rows }
    ensures room { L.room listener.new ≡ L.room listener.old }
    ensures told { length (L.heard listener.old) + sum_by dead_row segment.old.rows ≤ L.room listener.old →
        AreTold (dead_in segment.old) (sum_by dead_row segment.old.rows) (L.heard listener.old) (L.heard listener.new) }
{
    while let Some(gone) = segment.free_unmarked() {
        from_dead.objects += 1;
        from_dead.bytes += gone.bytes;
        listener.hear(Name {
            seg: segment.number(),
            serial: gone.serial,
        });
    }
}

/// Frees the objects that aren't marked, adds their number and bytes, and tells the name of each, in any order. It looks
/// once at each object that is live when it begins, at none that were freed before, and takes no memory. Source: KaffeOS
/// paper, on the separate collection of heaps.
pub fn sweep_telling<L: Listener>(area: &mut Area, from_dead: &mut Swept, listener: &mut L)
    requires distinct { HasDistinct area.old.segments }
    requires objects { from_dead.old.objects + dead_objects area.old < 2 ^ 32 }
    requires bytes { from_dead.old.bytes + dead_bytes area.old < 2 ^ 64 }
    ensures area { area.new ≡ swept area.old }
    ensures objects { from_dead.new.objects ≡ from_dead.old.objects + dead_objects area.old }
    ensures bytes { from_dead.new.bytes ≡ from_dead.old.bytes + dead_bytes area.old }
    ensures room { L.room listener.new ≡ L.room listener.old }
    ensures told { length (L.heard listener.old) + dead_objects area.old ≤ L.room listener.old →
        AreTold (dead_at area.old) (dead_objects area.old) (L.heard listener.old) (L.heard listener.new) }
{
    for i in 0..area.len() {
        let seg = area.seg_at(i);
        let Some(segment) = area.get_mut(seg) else {
            unreachable!()
        };
        sweep_segment(segment, from_dead, listener);
    }
}

/// Frees the objects that aren't marked, and adds their number and bytes, as [`sweep_telling`] does, and tells nobody.
pub fn sweep(area: &mut Area, from_dead: &mut Swept)
    requires distinct { HasDistinct area.old.segments }
    requires objects { from_dead.old.objects + dead_objects area.old < 2 ^ 32 }
    requires bytes { from_dead.old.bytes + dead_bytes area.old < 2 ^ 64 }
    ensures area { area.new ≡ swept area.old }
    ensures objects { from_dead.new.objects ≡ from_dead.old.objects + dead_objects area.old }
    ensures bytes { from_dead.new.bytes ≡ from_dead.old.bytes + dead_bytes area.old }
{
    let mut nobody = Nobody;
    sweep_telling(area, from_dead, &mut nobody);
}
