//! The objects made under one number.
ghost use Rattle.std.specs.Prelude.{◌≡◌, ◌↔◌, ◌<◌, ◌≤◌, ◌+◌, ℕ, length, map, Some, None, option_map, IfOk, IfSome, IfNone, IsSome, ◌∷◌, [], slice_set, slice_get, ◌==◌, IsFalse, IsTrue, OnSome};
ghost use Rattle.k_types.specs.State.{Refers, Holds, field_kind};
ghost use Rattle.k_types.specs.Types.{object_size};
ghost use Rattle.k_space.specs.Objects.{HasRef, HasInt, content_of};
ghost use Rattle.k_types.specs.Names.{name_of};
ghost use Rattle.k_space.specs.Segments.{Row, White, LiesAt, IsLive, HasRoom, row_at, living, made, with_row, IsSegment, placed, some_gray, is_gray, is_marked, gray_or_black, segment_bytes, unmarked_segment, blackened_segment, body_of};
ghost use Rattle.k_space.specs.Sweeping.{IsTakenAway};
ghost use Rattle.k_space.specs.Visiting.{AreHeld, IsVisitedFromIn, IsVisitedIn};
ghost use Rattle.k_space.specs.Cells.{get};
ghost use Rattle.k_space.specs.declared.cells.Cell.{Cell as Lying};

use crate::body::{Body, Stored};
use crate::bound::Bound;
use crate::cells::{Cell, Cells};
use crate::chains::short;
use crate::live::{Entry, blacken, next_white};
use crate::marks::{Mark, Place, Places};
use k_types::{Field, Link, Name, NoMemory, Seg, Serial, Slot, TypeId};
use std::alloc::{AllocError, Global};
use std::marker::Model;

// Slots and serials are numbers below this one.
const END: usize = 4_294_967_295;

/// An object that was freed: where it lay, its serial, and its size in bytes.
#[derive(Clone, Copy, Debug)]
pub struct Gone {
    pub slot: Slot,
    pub serial: Serial,
    pub bytes: u64,
}

/// A gray object that was made black, and how many fields it has.
#[derive(Clone, Copy, Debug)]
pub struct Visited {
    pub name: Name,
    pub fields: u32,
}

/// The objects that were made under one number. Each has a serial, which is never used again, and
/// lies in a slot, which is.
pub struct Segment {
    number: Seg,
    pub(crate) room: u32,
    pub(crate) places: Places,
    pub(crate) cells: Cells,
    // The serial of the gray object that was made gray first, and a hint of where it lies; 0 where there is none.
    gray: u32,
    gray_slot: usize,
    // That of the one that was made gray last, and a hint of where it lies.
    last: u32,
    last_slot: usize,
    // Those of the live objects.
    bytes: u64,
    // The live objects, in any order.
    pub(crate) live: Vec<Entry>,
    // How many of these, from the first on, a sweep has passed.
    passed: usize,
}

impl Drop for Segment {
    fn drop(self) {
        let Segment {
            number: _,
            room: _,
            places: _,
            cells: _,
            gray: _,
            gray_slot: _,
            last: _,
            last_slot: _,
            bytes: _,
            live: _,
            passed: _,
        } = self;
    }
}

impl Model for Segment {
    ghost use Rattle.k_space.specs.Segments.{SegmentValue};

    ghost Value = { SegmentValue };

    ghost use Rattle.std.specs.Prelude.{map, vec_capacity, ◌≤◌};
    ghost use Rattle.k_space.specs.Places.{row_of, IsSound, IsLastGray, AreBytes};
    ghost use Rattle.k_space.specs.Listed.{IsListed, serials};

    ghost view = { λ s. record { number = s.number.0; room = s.room; rows = map (row_of s.cells) s.places.items } };

    ghost invariant = { λ s. record {
      sound : IsSound s.places.items s.cells s.room s.places.capacity s.gray;
      last : IsLastGray s.places.items s.last;
      bytes : AreBytes s.places.items s.cells s.bytes;
      listed : IsListed s.places.items (serials s.live.items) s.passed;
      reserved : s.room ≤ vec_capacity s.live;
    } };
}

/// Writes what the fields of the object hold to the front of the list, unless it is skipped.
fn copy_unless(cells: &Cells, slot: usize, skip: bool, into: &mut [Stored]) -> u32
    requires live { IsSome (get cells.now slot) }
    requires few { (cell : Lying) → get cells.now slot ≡ Some cell → length cell.body.fields ≤ 16 }
    requires list { 16 ≤ length into.old }
    ensures most { result ≤ 16 }
    ensures held { IsFalse skip → (cell : Lying) → get cells.now slot ≡ Some cell → AreHeld cell.body.fields result into.new }
    ensures len { length into.new ≡ length into.old }
{
    if skip {
        return 0;
    }
    cells.at(slot).body.copy_to(into)
}

impl Segment {
    /// A segment with no object, in which `room` of them can live at once. It takes the memory for all of
    /// them; `NoMemory` comes where there is none, and where slots would not be numbers of 32 bits.
    pub fn make(alloc: Global, seg: Seg, room: u32) -> Result<Segment, NoMemory>
        ensures { IfOk result (λ s. s ≡ record { number = seg.0; room = room; rows = None ∷ [] }) }
    {
        let slots = room as usize;
        // No such memory is given.
        if slots >= END {
            return Err(NoMemory::from(AllocError));
        }
        let cells = Cells::make(alloc, slots)?;
        Ok(Segment {
            number: seg,
            room,
            places: Places::make(alloc, slots, room)?,
            cells,
            gray: 0,
            gray_slot: 0,
            last: 0,
            last_slot: 0,
            bytes: 0,
            live: Vec::with_capacity(alloc, slots)?,
            passed: 0,
        })
    }

    /// The number of the segment. Constant time.
    pub fn number(&self) -> Seg
        ensures value { result.0 ≡ self.now.number }
        ensures sound { IsSegment self.now }
    {
        self.number
    }

    /// How many serials were given, which never falls. Constant time.
    pub fn made(&self) -> u32
        ensures value { result ≡ made self.now }
        ensures begun { length self.now.rows ≡ result + 1 }
        ensures sound { IsSegment self.now }
    {
        (self.places.len() - 1) as u32
    }

    /// How many objects live. Constant time.
    pub fn living(&self) -> u32
        ensures value { result ≡ living self.now }
        ensures sound { IsSegment self.now }
    {
        self.cells.len() as u32
    }

    /// Whether one more object can be put in. Constant time.
    pub fn has_room(&self) -> bool
        ensures { IsTrue result ↔ HasRoom self.now }
    {
        self.cells.len() < self.room as usize && self.places.len() < END
    }

    /// The bytes of the live objects. They are kept, and not added up here: constant time.
    pub fn bytes(&self) -> u64
        ensures value { result ≡ segment_bytes self.now }
        ensures sound { IsSegment self.now }
    {
        self.bytes
    }

    /// Puts an object in, under the next serial, and in a slot that has none. Constant time, and no
    /// memory.
    pub fn place(&mut self, body: Body) -> Link
        requires { HasRoom self.old }
        ensures seg { result.seg.0 ≡ self.old.number }
        ensures serial { result.serial.0 ≡ length self.old.rows }
        ensures next { result.serial.0 ≡ made self.old + 1 }
        ensures placed { self.new ≡ placed self.old result.slot.0 body }
    {
        let serial = self.places.len() as u32;
        self.bytes += body.bytes();
        let slot = self.cells.put(Cell {
            serial: Serial(serial),
            body,
        });
        self.places.put(slot);
        let entry = Entry {
            serial,
            slot: slot as u32,
        };
        self.live.push_reserved(entry);
        Link {
            seg: self.number,
            slot: Slot(slot),
            serial: Serial(serial),
        }
    }

    /// Where the object of that serial lies. Constant time where the hash spreads the serials.
    pub fn find(&self, serial: Serial) -> Option<Slot>
        ensures { option_map (λ s. s.0) result ≡ option_map (λ row. row.slot) (row_at self.now serial.0) }
    {
        let at = serial.0 as usize;
        if at >= self.places.len() {
            return None;
        }
        match self.places.at(at) {
            Place::At(slot, _) => Some(Slot(slot)),
            Place::Empty => None,
        }
    }

    /// The same, where the slot is a hint of where the object lies: one load where it is right, whatever the hash does.
    pub fn find_near(&self, serial: Serial, hint: Slot) -> Option<Slot>
        ensures { option_map (λ s. s.0) result ≡ option_map (λ row. row.slot) (row_at self.now serial.0) }
    {
        if let Some(cell) = self.cells.get(hint.0) {
            if cell.serial.0 == serial.0 {
                return Some(hint);
            }
        }
        self.find(serial)
    }

    /// The serial of the object there. Constant time.
    pub fn serial_of(&self, slot: Slot) -> Serial
        requires { IsLive self.now slot.0 }
        ensures { (serial : ℕ) (row : Row) → LiesAt self.now slot.0 serial row → result.0 ≡ serial }
    {
        self.cells.at(slot.0).serial
    }

    /// The size of the object there, in bytes. Constant time.
    pub fn bytes_of(&self, slot: Slot) -> u64
        requires { IsLive self.now slot.0 }
        ensures { (serial : ℕ) (row : Row) → LiesAt self.now slot.0 serial row → result ≡ object_size (length row.fields) }
    {
        self.body_at(slot).bytes()
    }

    /// The type of the object there. The directory alone has none. Constant time.
    pub fn type_of(&self, slot: Slot) -> Option<TypeId>
        requires { IsLive self.now slot.0 }
        ensures { (serial : ℕ) (row : Row) → LiesAt self.now slot.0 serial row → result ≡ row.ty }
    {
        self.body_at(slot).type_of()
    }

    /// The kind of a field of the object there; nothing past the last field. Constant time.
    pub fn kind_of(&self, slot: Slot, field: u32) -> Option<Field>
        requires { IsLive self.now slot.0 }
        ensures { (serial : ℕ) (row : Row) → LiesAt self.now slot.0 serial row → result ≡ option_map field_kind (slice_get row.fields field) }
    {
        self.body_at(slot).kind_of(field)
    }

    /// The number of fields of the object there. Constant time.
    pub fn field_count(&self, slot: Slot) -> u32
        requires { IsLive self.now slot.0 }
        ensures { (serial : ℕ) (row : Row) → LiesAt self.now slot.0 serial row → result ≡ length row.fields }
    {
        self.body_at(slot).len()
    }

    /// What a field of either kind holds. Constant time.
    pub fn stored(&self, slot: Slot, field: u32) -> Stored
        requires live { IsLive self.now slot.0 }
        requires field { (serial : ℕ) (row : Row) → LiesAt self.now slot.0 serial row → field < length row.fields }
        ensures { (serial : ℕ) (row : Row) → LiesAt self.now slot.0 serial row → slice_get row.fields field ≡ Some (content_of result) }
    {
        self.body_at(slot).stored(field)
    }

    /// What a reference field of the object there refers to, by its name; nothing where it is null. Constant time.
    pub fn read_ref(&self, slot: Slot, field: u32) -> Option<Link>
        requires live { IsLive self.now slot.0 }
        requires kind { (serial : ℕ) (row : Row) → LiesAt self.now slot.0 serial row → HasRef row.fields field }
        ensures { (serial : ℕ) (row : Row) → LiesAt self.now slot.0 serial row → slice_get row.fields field ≡ Some (Refers (option_map name_of result)) }
    {
        self.body_at(slot).read_ref(field)
    }

    /// The number in an integer field of the object there. Constant time.
    pub fn read_int(&self, slot: Slot, field: u32) -> u64
        requires live { IsLive self.now slot.0 }
        requires kind { (serial : ℕ) (row : Row) → LiesAt self.now slot.0 serial row → HasInt row.fields field }
        ensures { (serial : ℕ) (row : Row) → LiesAt self.now slot.0 serial row → slice_get row.fields field ≡ Some (Holds result) }
    {
        self.body_at(slot).read_int(field)
    }

    /// Writes a reference, or null, into a reference field of the object there. It asks no write
    /// barrier, and adds no exit item: both are the caller's. Constant time, and no memory.
    pub fn write_ref(&mut self, slot: Slot, field: u32, value: Option<Link>)
        requires live { IsLive self.old slot.0 }
        requires kind { (serial : ℕ) (row : Row) → LiesAt self.old slot.0 serial row → HasRef row.fields field }
        ensures { (serial : ℕ) (row : Row) → LiesAt self.old slot.0 serial row →
            self.new ≡ with_row self.old serial (Some (record row { fields = slice_set row.fields field (Refers (option_map name_of value)) })) }
    {
        self.cells.write_ref(slot.0, field, value);
    }

    /// Writes a number into an integer field of the object there. Constant time, and no memory.
    pub fn write_int(&mut self, slot: Slot, field: u32, value: u64)
        requires live { IsLive self.old slot.0 }
        requires kind { (serial : ℕ) (row : Row) → LiesAt self.old slot.0 serial row → HasInt row.fields field }
        ensures { (serial : ℕ) (row : Row) → LiesAt self.old slot.0 serial row →
            self.new ≡ with_row self.old serial (Some (record row { fields = slice_set row.fields field (Holds value) })) }
    {
        self.cells.write_int(slot.0, field, value);
    }

    /// Makes a white object gray. Other objects, and serials with no object, stay as they are. The slot is a hint
    /// of where it lies: constant time where it is right, or the hash spreads the serials, and no memory.
    #[tactic(auto, using(crate::proofs::Rows::kept_view))]
    pub fn make_gray(&mut self, serial: Serial, hint: Slot)
        ensures grayed { (row : Row) → row_at self.old serial.0 ≡ Some row → self.new ≡ with_row self.old serial.0 (Some (record row { color = gray_or_black row.color })) }
        ensures gone { row_at self.old serial.0 ≡ None → self.new ≡ self.old }
        ensures number { self.new.number ≡ self.old.number }
    {
        let at = serial.0 as usize;
        if at >= self.places.len() {
            return;
        }
        let place = self.places.at_near(at, hint.0);
        match place {
            Place::At(slot, mark) => match mark {
                Mark::White => {
                    // Behind the others, so that objects are visited mostly in the order of their making.
                    let (last, hint) = (self.last, self.last_slot);
                    self.last = serial.0;
                    self.last_slot = slot;
                    self.places.mark_in(slot, Mark::Gray(0), 0);
                    if self.gray == 0 {
                        self.gray = serial.0;
                        self.gray_slot = slot;
                    } else {
                        self.places
                            .follow(last as usize, hint, serial.0, short(slot));
                    }
                }
                Mark::Gray(_) => {}
                Mark::Black => {}
            },
            Place::Empty => {}
        }
    }

    /// Takes a gray object, makes it black, and writes what its fields hold to the front of the list. `None` comes
    /// where no object is gray. Constant time where the hash spreads the serials, and no memory.
    pub fn visit_gray(&mut self, into: &mut [Stored]) -> Option<Visited>
        requires { 16 ≤ length into.old }
        ensures some { IfSome result (λ found. IsVisitedIn self.old self.new found into.new) }
        ensures none { IfNone result ((serial : ℕ) → IsFalse (some_gray (row_at self.old serial))) }
        ensures kept { IfNone result (self.new ≡ self.old) }
        ensures number { self.new.number ≡ self.old.number }
        ensures len { length into.new ≡ length into.old }
    {
        self.visit_gray_from(Bound::nothing(Seg(0)), into)
    }

    /// The same, but an object that the bound covers is not read, and nothing is said of the list. Constant time, and no memory.
    pub fn visit_gray_from(&mut self, bound: Bound, into: &mut [Stored]) -> Option<Visited>
        requires { 16 ≤ length into.old }
        ensures some { IfSome result (λ found. IsVisitedFromIn bound self.old self.new found into.new) }
        ensures none { IfNone result ((serial : ℕ) → IsFalse (some_gray (row_at self.old serial))) }
        ensures kept { IfNone result (self.new ≡ self.old) }
        ensures number { self.new.number ≡ self.old.number }
        ensures len { length into.new ≡ length into.old }
    {
        if self.gray == 0 {
            return None;
        }
        let serial = self.gray;
        let at = serial as usize;
        let place = self.places.at_near(at, self.gray_slot);
        match place {
            Place::At(slot, mark) => match mark {
                Mark::Gray(next) => {
                    let name = Name {
                        seg: self.number,
                        serial: Serial(serial),
                    };
                    let fields = copy_unless(&self.cells, slot, bound.covers(name), into);
                    self.gray_slot = self.places.near(slot);
                    self.places.mark_in(slot, Mark::Black, 0);
                    self.gray = next;
                    Some(Visited { name, fields })
                }
                Mark::White => unreachable!(),
                Mark::Black => unreachable!(),
            },
            Place::Empty => unreachable!(),
        }
    }

    /// Whether there is an object of that serial, and it is gray. Constant time where the hash spreads the serials.
    pub fn is_gray(&self, serial: Serial) -> bool
        ensures { result ≡ some_gray (row_at self.now serial.0) }
    {
        let at = serial.0 as usize;
        if at >= self.places.len() {
            return false;
        }
        self.places.at(at).is_gray()
    }

    /// Makes the objects with a lower serial black, where none is gray. It looks once at each object that is live.
    pub fn blacken_below(&mut self, below: u64)
        requires { (serial : ℕ) → IsFalse (some_gray (row_at self.old serial)) }
        ensures { self.new ≡ blackened_segment below self.old }
    {
        let front = blacken(&self.live, &mut self.places, below);
        self.gray = 0;
        // A sweep keeps these without a look at them.
        self.passed = front;
    }

    /// Takes the marks of all objects away. Constant time, however many objects were ever made, but for one pass
    /// of the slots at each 2,000,000,000th call.
    pub fn unmark_all(&mut self)
        ensures { self.new ≡ unmarked_segment self.old }
    {
        self.places.whiten();
        self.gray = 0;
        self.passed = 0;
    }

    /// Frees an object that isn't marked. All calls up to the one that frees nothing look once, at most, at each object
    /// that was live, freed or not, and at none that were freed before: a sweep costs no more than that.
    pub fn free_unmarked(&mut self) -> Option<Gone>
        ensures freed { IfSome result (λ gone. IsTakenAway self.old self.new gone) }
        ensures none { IfNone result ((serial : ℕ) (row : Row) → row_at self.old serial ≡ Some row → IsTrue (is_marked row.color)) }
        ensures kept { IfNone result (self.new ≡ self.old) }
    {
        match next_white(&self.live, &self.places, self.passed) {
            Some(white) => {
                self.passed = white.at;
                let entry = self.live.swap_remove(white.at);
                self.places.take(entry.serial as usize);
                let cell = self.cells.take(white.slot);
                let bytes = cell.body.bytes();
                self.bytes -= bytes;
                Some(Gone {
                    slot: Slot(white.slot),
                    serial: cell.serial,
                    bytes,
                })
            }
            None => None,
        }
    }

    /// The content of the object there.
    fn body_at(&self, slot: Slot) -> &Body
        requires { IsLive self.now slot.0 }
        ensures { (serial : ℕ) (row : Row) → LiesAt self.now slot.0 serial row → result.now ≡ body_of row }
    {
        &self.cells.at(slot.0).body
    }
}
