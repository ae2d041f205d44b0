//! More rooms for a host while it lives.
ghost use Rattle.std.specs.Prelude.{◌≡◌, ◌↔◌, IfErr, IfOk, IsTrue, OnErr, length};
ghost use Rattle.k_ends.specs.k_guests.Growing.{AreLarger};
ghost use Rattle.k_host.specs.Growing.{HasGrown, IsNotGrown};

use crate::errors::GrowError;
use crate::host::Host;
use k_ends::{Rooms, are_larger, grow_parts};
use std::alloc::Global;

impl Host {
    /// What its memory is taken from.
    pub fn allocator(&self) -> Global {
        *self.guests.allocator()
    }

    /// Whether the rooms are larger ones, as `are_larger` of `k_guests` says. Constant time.
    pub fn can_grow(&self, rooms: &Rooms) -> bool
        ensures { IsTrue result ↔ AreLarger (length self.now.guests) self.now.basis.rooms rooms.now }
    {
        are_larger(self.guests.len(), &self.terms.rooms, rooms)
    }

    /// Has these rooms from now on, and answers how many of the last events can be read: all that are asked for while no event is forgotten.
    /// Else it answers how many are still there, and holds more of those to come, so that the same call later answers more, and takes no memory
    /// for them then. What stands in the tables stays. It takes all memory first: for each table that of its new room beside the old
    /// one, which it gives back, and for each segment that of the objects that can live beside those that could. What moves is passed once.
    ///
    /// # Errors
    ///
    /// Each changes nothing: `Rooms` exactly where the rooms are not larger ones, as `can_grow` tests, and else `NoMemory`,
    /// where memory runs out.
    pub fn grow(&mut self, rooms: Rooms) -> Result<u32, GrowError>
        ensures grown { IfOk result (λ kept. HasGrown self.old self.new rooms kept) }
        ensures same { OnErr result (self.new ≡ self.old) }
        ensures why { IfErr result (λ why. IsNotGrown self.old rooms why) }
    {
        if !self.can_grow(&rooms) {
            return Err(GrowError::Rooms);
        }
        let alloc = self.allocator();
        let kept = grow_parts(
            alloc,
            &self.terms,
            &mut self.guests,
            &mut self.kernel,
            &mut self.shared,
            &mut self.book,
            &rooms,
        )?;
        self.terms.rooms = Rooms { kept, ..rooms };
        Ok(kept)
    }
}
