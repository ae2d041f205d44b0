//! The places of objects by serial, and their marks.
ghost use Rattle.std.specs.Prelude.{◌≡◌, ◌≢◌, ◌<◌, ◌≤◌, ◌+◌, ◌-◌, ◌^◌, ◌++◌, ◌∷◌, [], length, map, slice_set, slice_index_or, IfOk, OnErr, OnOk, max, ℕ};
ghost use Rattle.k_space.specs.declared.marks.Mark.{Mark as MarkOf};
ghost use Rattle.k_space.specs.declared.marks.Mark.TheVariants.{White as MarkWhite, Gray as MarkGray};
ghost use Rattle.k_space.specs.declared.marks.Place.TheVariants.{Empty as NoPlace, At as PlaceAt};
ghost use Rattle.k_space.specs.Places.{white_place, black_place, is_gray_place, IsGrayEnd};
ghost use Rattle.k_space.specs.Stamps.{IsHeld, mark_of, plain};

use crate::chains::{Spot, insert, reach, remove};
use k_types::NoMemory;
use std::alloc::Global;
use std::marker::Model;

/// How far the marking of an object has come. A gray one names the next gray one by its serial, the last
/// one names 0.
#[derive(Clone, Copy)]
pub enum Mark {
    White,
    Gray(u32),
    Black,
}

/// Where an object lies, by its serial.
#[derive(Clone, Copy)]
pub enum Place {
    Empty,
    At(usize, Mark),
}

impl Place {
    /// Whether it has a gray object.
    pub(crate) fn is_gray(self) -> bool
        ensures { result ≡ is_gray_place self }
    {
        matches!(self, Place::At(_, Mark::Gray(_)))
    }
}

/// The mark of the object in a spot. With the stamp of the epoch it is gray, and with the one after it black; with any other it
/// is white, so that a new epoch makes all objects white.
fn mark_of(spot: Spot, epoch: u32) -> Mark
    requires { epoch + 1 < 2 ^ 32 }
    ensures { result ≡ mark_of epoch spot }
{
    if spot.stamp == epoch {
        Mark::Gray(spot.next)
    } else if spot.stamp == epoch + 1 {
        Mark::Black
    } else {
        Mark::White
    }
}

/// The spot with that mark, and with a hint of the slot of the next gray object.
fn marked(spot: Spot, mark: Mark, near: u32, epoch: u32) -> Spot
    requires begun { 0 < epoch }
    requires small { epoch + 1 < 2 ^ 32 }
    ensures mark { mark_of epoch result ≡ mark }
    ensures stamp { result.stamp < epoch + 2 }
    ensures serial { result.serial ≡ spot.serial }
    ensures before { result.before ≡ spot.before }
{
    let (stamp, next) = match mark {
        Mark::White => (0, 0),
        Mark::Gray(next) => (epoch, next),
        Mark::Black => (epoch + 1, 0),
    };
    Spot {
        serial: spot.serial,
        before: spot.before,
        stamp,
        next,
        near,
    }
}

/// Takes the stamps of all epochs away.
fn restamp(spots: &mut [Spot])
    ensures { spots.new ≡ map plain spots.old }
{
    for spot in spots.iter_mut() {
        *spot = Spot {
            serial: spot.serial,
            before: spot.before,
            stamp: 0,
            next: spot.next,
            near: spot.near,
        };
    }
}

/// The places of a segment, by serial. A place is found on the chain of its serial, among those of the younger objects of the chain:
/// few, where there are as many chains as objects and their serials are spread. Memory goes with the slots, not with the
/// serials. All marks go away in constant time.
#[derive(Drop)]
pub struct Places {
    // By slot.
    spots: Vec<Spot>,
    // One more than the slot of the youngest object of each chain; 0 where it has none.
    heads: Vec<u32>,
    // How many serials were given, with 0, which no object has.
    made: u32,
    epoch: u32,
}

impl Model for Places {
    ghost use Rattle.std.specs.Prelude.{vec_capacity};
    ghost use Rattle.k_space.specs.Stamps.{PlacesValue, AreKept, kept_places};

    ghost Value = { PlacesValue };

    ghost view = { λ p. record { items = kept_places p.spots.items p.epoch p.made; capacity = vec_capacity p.spots } };

    ghost invariant = { λ p. AreKept p.spots.items p.heads.items p.made p.epoch (vec_capacity p.spots) };
}

impl Places {
    /// No object, memory for so many slots, and chains for so many objects.
    pub(crate) fn make(alloc: Global, slots: usize, objects: u32) -> Result<Places, NoMemory>
        requires { slots < 2 ^ 32 - 1 }
        ensures { IfOk result (λ p. p ≡ record { items = NoPlace ∷ []; capacity = slots }) }
    {
        let chains = (objects.max(1) as usize).next_power_of_two();
        let heads = vec![in alloc; 0; chains]?;
        let spots = Vec::with_capacity(alloc, slots)?;
        Ok(Places {
            spots,
            heads,
            made: 1,
            epoch: 1,
        })
    }

    /// Memory for so many slots, where there is less.
    pub(crate) fn reserve(&mut self, slots: usize) -> Result<(), NoMemory>
        requires { slots < 2 ^ 32 - 1 }
        ensures ok { OnOk result (self.new ≡ record self.old { capacity = max self.old.capacity slots }) }
        ensures err { OnErr result (self.new ≡ self.old) }
    {
        let len = self.spots.len();
        if len < slots {
            self.spots.reserve_exact(slots - len)?;
        }
        Ok(())
    }

    /// How many serials were given, with 0.
    pub(crate) fn len(&self) -> usize
        ensures value { result ≡ length self.now.items }
        ensures small { length self.now.items < 2 ^ 32 }
        ensures apart { (i j slot : ℕ) (a b : MarkOf) → slice_index_or self.now.items i NoPlace ≡ PlaceAt slot a → slice_index_or self.now.items j NoPlace ≡ PlaceAt slot b → i ≡ j }
    {
        let _ = &self.spots;
        self.made as usize
    }

    /// The place of that serial.
    pub(crate) fn at(&self, serial: usize) -> Place
        requires { serial < length self.now.items }
        ensures { result ≡ slice_index_or self.now.items serial NoPlace }
    {
        let at = reach(&self.spots, &self.heads, serial).at;
        if at == 0 {
            return Place::Empty;
        }
        let slot = at as usize - 1;
        Place::At(slot, mark_of(self.spots[slot], self.epoch))
    }

    /// The same, with no walk along a chain where the object lies in the slot of the hint. Any number may be the hint.
    pub(crate) fn at_near(&self, serial: usize, hint: usize) -> Place
        requires { serial < length self.now.items }
        ensures { result ≡ slice_index_or self.now.items serial NoPlace }
    {
        if 0 < serial && hint < self.spots.len() {
            let spot = self.spots[hint];
            if spot.serial as usize == serial {
                return Place::At(hint, mark_of(spot, self.epoch));
            }
        }
        self.at(serial)
    }

    /// Puts an unmarked object into that slot, under the next serial. No memory.
    pub(crate) fn put(&mut self, slot: usize)
        requires slot { slot < self.old.capacity }
        requires free { (i : ℕ) (mark : MarkOf) → slice_index_or self.old.items i NoPlace ≢ PlaceAt slot mark }
        requires few { length self.old.items + 1 < 2 ^ 32 }
        ensures { self.new ≡ record self.old { items = self.old.items ++ PlaceAt slot MarkWhite ∷ [] } }
    {
        insert(&mut self.spots, &mut self.heads, slot, self.made);
        self.made += 1;
    }

    /// The hint of the slot of the gray object that comes after the one in that slot.
    pub(crate) fn near(&self, slot: usize) -> usize {
        match self.spots.get(slot) {
            Some(spot) => spot.near as usize,
            None => 0,
        }
    }

    /// Gives the object in that slot that mark, with no look along a chain, and a hint of the slot of the next gray one.
    pub(crate) fn mark_in(&mut self, slot: usize, mark: Mark, near: u32)
        requires { IsHeld self.old.items slot }
        ensures { (serial : ℕ) (was : MarkOf) → slice_index_or self.old.items serial NoPlace ≡ PlaceAt slot was → self.new ≡ record self.old { items = slice_set self.old.items serial (PlaceAt slot mark) } }
    {
        self.spots[slot] = marked(self.spots[slot], mark, near, self.epoch);
    }

    /// Gives the object of that serial, if there is one, that mark. The slot is a hint of where it lies, and `near` one of where the
    /// next gray object does.
    pub(crate) fn mark(&mut self, serial: usize, hint: usize, mark: Mark, near: u32)
        requires { serial < length self.old.items }
        ensures there { (slot : ℕ) (was : MarkOf) → slice_index_or self.old.items serial NoPlace ≡ PlaceAt slot was → self.new ≡ record self.old { items = slice_set self.old.items serial (PlaceAt slot mark) } }
        ensures none { slice_index_or self.old.items serial NoPlace ≡ NoPlace → self.new ≡ self.old }
    {
        match self.at_near(serial, hint) {
            Place::At(slot, _) => self.mark_in(slot, mark, near),
            Place::Empty => {}
        }
    }

    /// Makes the object of that serial black, if there is one. The slot is a hint of where it lies.
    pub(crate) fn blacken(&mut self, serial: usize, hint: usize)
        requires { serial < length self.old.items }
        ensures { self.new ≡ record self.old { items = slice_set self.old.items serial (black_place (slice_index_or self.old.items serial NoPlace)) } }
    {
        self.mark(serial, hint, Mark::Black, 0);
    }

    /// Has the gray place of the one serial, which names no next one, name the other. The slots are hints of where they lie.
    pub(crate) fn follow(&mut self, last: usize, hint: usize, next: u32, near: u32)
        requires { IsGrayEnd self.old.items last }
        ensures { (slot : ℕ) → slice_index_or self.old.items last NoPlace ≡ PlaceAt slot (MarkGray 0) → self.new ≡ record self.old { items = slice_set self.old.items last (PlaceAt slot (MarkGray next)) } }
    {
        self.mark(last, hint, Mark::Gray(next), near);
    }

    /// Takes the object of that serial, if there is one, out.
    pub(crate) fn take(&mut self, serial: usize)
        requires { serial < length self.old.items }
        ensures { self.new ≡ record self.old { items = slice_set self.old.items serial NoPlace } }
    {
        remove(&mut self.spots, &mut self.heads, serial);
    }

    /// Takes the marks of all objects away. Constant time, but for one pass of the slots at each 2,000,000,000th call.
    pub(crate) fn whiten(&mut self)
        ensures { self.new ≡ record self.old { items = map white_place self.old.items } }
    {
        if self.epoch < 4_294_967_290 {
            self.epoch += 2;
        } else {
            restamp(&mut self.spots);
            self.epoch = 1;
        }
    }
}
