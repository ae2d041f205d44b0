//! Segments in an area, found by number.
ghost use Rattle.std.specs.Prelude.{◌≡◌, ◌≢◌, ◌<◌, ◌≤◌, ◌+◌, ◌==◌, ◌++◌, ◌∷◌, [], ℕ, length, map, Some, None, IfOk, IfNone, IfSome, OnSome, slice_get, slice_set, slice_index_or, position, option_copied, not, IsFalse, IsTrue};
ghost use Rattle.std.specs.Option.{option_copied_mut};
ghost use Rattle.std.specs.Borrow.{sem};
ghost use Rattle.std.specs.List.{position_or_len};
ghost use Rattle.k_space.specs.Segments.{Row, SegmentValue, row_at, some_gray, unmarked_segment};
ghost use Rattle.k_space.specs.Hints.{AreExact, numbers};
ghost use Rattle.k_space.specs.Visiting.{IsVisited, IsVisitedFrom};
ghost use Rattle.k_types.specs.Names.{name_of};
ghost use Rattle.k_types.specs.declared.names.Name.{Name as Named};
ghost use Rattle.k_space.specs.Areas.{place_of, row_of_name, segment_at, HasDistinct, is_foreign, gray_at, grayed, has_number, unmarked, blackened, blackened_in};

use crate::body::Stored;
use crate::bound::Bound;
use crate::segment::{Segment, Visited};
use k_types::{Link, Name, NoMemory, Seg};
use std::alloc::Global;
use std::marker::Model;

/// Where things may stand. No contract speaks of it, and each hint is tested where it is used.
#[derive(Drop)]
struct Hints {
    // Where the segment of each number below the room may stand.
    segments: Vec<usize>,
    // Whether no segment stands elsewhere, so that a number whose hint fails has none.
    exact: bool,
    // Where an object was made gray last, or a gray one found.
    gray: usize,
}

/// The segments of one heap. Their numbers are different, which each call but `make` needs.
pub struct Area {
    segments: Vec<Segment>,
    room: u32,
    hints: Hints,
}

impl Drop for Area {
    fn drop(self) {
        let Area {
            segments: _,
            room: _,
            hints: _,
        } = self;
    }
}

impl Model for Area {
    ghost use Rattle.k_space.specs.Areas.{AreaValue};

    ghost Value = { AreaValue };

    ghost use Rattle.std.specs.Prelude.{vec_capacity, ◌≡◌, length, IsTrue};
    ghost use Rattle.k_space.specs.Hints.{AreExact, numbers};

    ghost view = { λ a. record { segments = a.segments.items; room = a.room } };

    ghost invariant = { λ a. record {
      reserved : vec_capacity a.segments ≡ a.room;
      hints : length a.hints.segments.items ≡ a.room;
      exact : IsTrue a.hints.exact → AreExact (numbers a.segments.items) a.hints.segments.items;
    } };
}

/// Whether the segment of that number stands there.
fn stands_at(segments: &[Segment], at: usize, seg: Seg) -> bool
    ensures { result ≡ has_number (slice_get segments.now at) seg.0 }
{
    match segments.get(at) {
        Some(segment) => segment.number().0 == seg.0,
        None => false,
    }
}

fn first(segments: &[Segment], seg: Seg) -> Option<usize>
    ensures { result ≡ position (λ s. s.number == seg.0) segments.now }
{
    segments.iter().position(|s| s.number().0 == seg.0)
}

/// Where the segment of that number stands; the number of segments where there is none.
fn place(segments: &[Segment], hints: &[usize], exact: bool, seg: Seg) -> usize
    requires distinct { HasDistinct segments.now }
    requires exact { IsTrue exact → AreExact (numbers segments.now) hints.now }
    ensures { result ≡ position_or_len (λ s. s.number == seg.0) segments.now }
{
    // A process's own heap has one segment, whose number is above the room.
    if stands_at(segments, 0, seg) {
        return 0;
    }
    if let Some(hint) = hints.get(seg.0 as usize) {
        if stands_at(segments, *hint, seg) {
            return *hint;
        }
        if exact {
            return segments.len();
        }
    }
    match first(segments, seg) {
        Some(at) => at,
        None => segments.len(),
    }
}

/// Notes where each segment stands.
fn renew(segments: &[Segment], hints: &mut [usize])
    ensures exact { AreExact (numbers segments.now) hints.new }
    ensures len { length hints.new ≡ length hints.old }
{
    for (i, segment) in segments.iter().enumerate() {
        let number = segment.number().0 as usize;
        if number < hints.len() {
            hints[number] = i;
        }
    }
}

/// Takes the marks of all objects away.
fn unmark(segments: &mut [Segment])
    ensures { segments.new ≡ map unmarked_segment segments.old }
{
    for segment in segments.iter_mut() {
        segment.unmark_all();
    }
}

/// Makes the objects black that the bound covers.
fn blacken(segments: &mut [Segment], bound: Bound)
    requires { (i : ℕ) (s : SegmentValue) → slice_get segments.old i ≡ Some s → (serial : ℕ) → IsFalse (some_gray (row_at s serial)) }
    ensures { segments.new ≡ map (blackened_in bound) segments.old }
{
    for segment in segments.iter_mut() {
        let below = bound.below_in(segment.number(), segment.made());
        segment.blacken_below(below);
    }
}

impl Area {
    ghost use Rattle.k_space.specs.AreaLends.{lends_segment};

    /// An area with no segment, and room for so many. It takes the memory for all of them at once;
    /// `NoMemory` comes where there is none.
    pub fn make(alloc: Global, room: u32) -> Result<Area, NoMemory>
        ensures { IfOk result (λ a. a ≡ record { segments = []; room = room }) }
    {
        Ok(Area {
            segments: Vec::with_capacity(alloc, room as usize)?,
            room,
            hints: Hints {
                segments: vec![in alloc; 0usize; room as usize]?,
                exact: false,
                gray: 0,
            },
        })
    }

    /// The number of segments.
    pub fn len(&self) -> usize
        ensures { result ≡ length self.now.segments }
    {
        self.segments.len()
    }

    /// The number of the segment at place `i`, counted from 0.
    pub fn seg_at(&self, i: usize) -> Seg
        requires { i < length self.now.segments }
        ensures { (s : SegmentValue) → slice_get self.now.segments i ≡ Some s → result.0 ≡ s.number }
    {
        self.segments[i].number()
    }

    /// Adds a segment. It comes last. Constant time, and no memory.
    pub fn add(&mut self, segment: Segment)
        requires distinct { HasDistinct self.old.segments }
        requires room { length self.old.segments < self.old.room }
        requires new { segment_at self.old.segments segment.number ≡ None }
        ensures added { self.new ≡ record self.old { segments = self.old.segments ++ segment ∷ [] } }
        ensures distinct { HasDistinct self.new.segments }
    {
        let at = self.segments.len();
        self.hint(segment.number(), at);
        self.hints.exact = false;
        self.segments.push_reserved(segment);
    }

    /// The segment of that number. A number below the room is found at once where it is there, and told not to
    /// be there at once from when marks were taken away until a segment is added, taken or lent for writing; any
    /// other costs a look through the numbers.
    pub fn get(&self, seg: Seg) -> Option<&Segment>
        requires { HasDistinct self.now.segments }
        ensures { option_copied result ≡ segment_at self.now.segments seg.0 }
    {
        let at = self.place(seg);
        self.segments.get(at)
    }

    /// The segment of that number, for writing. The others stay. It costs as much as `get`.
    pub fn get_mut(&mut self, seg: Seg) -> Option<&mut Segment>
        requires { HasDistinct self.old.segments }
        ensures* writes_back { sem 𝓛 (lends_segment self.entry seg.0 result) }
        ensures value { option_copied_mut result ≡ segment_at self.old.segments seg.0 }
    {
        let at = self.place(seg);
        // The caller may put another segment in its place.
        self.hints.exact = false;
        self.segments.get_mut(at)
    }

    /// Takes the segment of that number out, with its objects. The others stay, in any order. It looks
    /// through the segments.
    pub fn take(&mut self, seg: Seg) -> Option<Segment>
        requires { HasDistinct self.old.segments }
        ensures value { result ≡ segment_at self.old.segments seg.0 }
        ensures room { self.new.room ≡ self.old.room }
        ensures distinct { HasDistinct self.new.segments }
        ensures gone { segment_at self.new.segments seg.0 ≡ None }
        ensures others { (number : ℕ) → number ≢ seg.0 → segment_at self.new.segments number ≡ segment_at self.old.segments number }
        ensures fewer { OnSome result (length self.new.segments + 1 ≡ length self.old.segments) }
        ensures kept { IfNone result (self.new ≡ self.old) }
    {
        let at = self.place(seg);
        if at < self.segments.len() {
            let last = self.segments.len() - 1;
            let moved = self.segments[last].number();
            self.hint(moved, at);
            self.hints.exact = false;
            Some(self.segments.swap_remove(at))
        } else {
            None
        }
    }

    /// Makes a white object gray. A reference to no live object of the area changes nothing. It costs as
    /// much as `get`, and one load where the reference has its slot.
    pub fn make_gray(&mut self, target: Link)
        requires { HasDistinct self.old.segments }
        ensures { self.new ≡ grayed self.old (name_of target) }
    {
        self.gray_own(target);
    }

    /// The same, and tells whether the area has the segment to which the reference leads.
    #[tactic(auto, using(crate::proofs::Segs::grayed_none))]
    pub fn gray_own(&mut self, target: Link) -> bool
        requires { HasDistinct self.old.segments }
        ensures grayed { self.new ≡ grayed self.old (name_of target) }
        ensures own { result ≡ not (is_foreign self.old (name_of target)) }
        ensures foreign { IsFalse result → self.new ≡ self.old }
    {
        let at = self.place(target.seg);
        if at >= self.segments.len() {
            return false;
        }
        self.segments[at].make_gray(target.serial, target.slot);
        self.hints.gray = at;
        true
    }

    /// Takes a gray object, makes it black, and writes what its fields hold to the front of the list. `None` comes
    /// where no object is gray. It looks first in the segment where one was made gray or found last, and then
    /// through the others from there on; the object is looked up once. No memory.
    pub fn visit_gray(&mut self, into: &mut [Stored]) -> Option<Visited>
        requires distinct { HasDistinct self.old.segments }
        requires list { 16 ≤ length into.old }
        ensures some { IfSome result (λ found. IsVisited self.old self.new found into.new) }
        ensures none { IfNone result ((n : Name) → IsFalse (gray_at self.old n)) }
        ensures kept { IfNone result (self.new ≡ self.old) }
        ensures len { length into.new ≡ length into.old }
    {
        self.visit_gray_from(Bound::nothing(Seg(0)), into)
    }

    /// The same, but an object that the bound covers is not read, and nothing is said of the list.
    pub fn visit_gray_from(&mut self, bound: Bound, into: &mut [Stored]) -> Option<Visited>
        requires distinct { HasDistinct self.old.segments }
        requires list { 16 ≤ length into.old }
        ensures some { IfSome result (λ found. IsVisitedFrom bound self.old self.new found into.new) }
        ensures none { IfNone result ((n : Name) → IsFalse (gray_at self.old n)) }
        ensures kept { IfNone result (self.new ≡ self.old) }
        ensures len { length into.new ≡ length into.old }
    {
        let len = self.segments.len();
        let from = self.hints.gray.min(len);
        if let Some(found) = self.visit_gray_between(from, len, bound, into) {
            return Some(found);
        }
        self.visit_gray_between(0, from, bound, into)
    }

    /// Visits a gray object of the segments from the one place up to below the other.
    fn visit_gray_between(
        &mut self,
        from: usize,
        to: usize,
        bound: Bound,
        into: &mut [Stored],
    ) -> Option<Visited>
        requires distinct { HasDistinct self.old.segments }
        requires list { 16 ≤ length into.old }
        ensures some { IfSome result (λ found. IsVisitedFrom bound self.old self.new found into.new) }
        ensures none { IfNone result ((i : ℕ) (s : SegmentValue) (serial : ℕ) → from ≤ i → i < to → slice_get self.old.segments i ≡ Some s → IsFalse (some_gray (row_at s serial))) }
        ensures kept { IfNone result (self.new ≡ self.old) }
        ensures len { length into.new ≡ length into.old }
    {
        for i in from..to {
            if let Some(found) = self.visit_gray_at(i, bound, into) {
                self.hints.gray = i;
                return Some(found);
            }
        }
        None
    }

    /// Visits a gray object of the segment at that place.
    #[tactic(auto, using(crate::proofs::Segs::as_before))]
    fn visit_gray_at(&mut self, at: usize, bound: Bound, into: &mut [Stored]) -> Option<Visited>
        requires distinct { HasDistinct self.old.segments }
        requires list { 16 ≤ length into.old }
        ensures some { IfSome result (λ found. IsVisitedFrom bound self.old self.new found into.new) }
        ensures none { IfNone result ((s : SegmentValue) (serial : ℕ) → slice_get self.old.segments at ≡ Some s → IsFalse (some_gray (row_at s serial))) }
        ensures kept { IfNone result (self.new ≡ self.old) }
        ensures len { length into.new ≡ length into.old }
    {
        if at >= self.segments.len() {
            return None;
        }
        let found = self.segments[at].visit_gray_from(bound, into)?;
        Some(found)
    }

    /// Whether that object is one of the area's, and gray. It costs as much as `get`.
    pub fn is_gray(&self, target: Name) -> bool
        requires { HasDistinct self.now.segments }
        ensures { result ≡ gray_at self.now target }
    {
        match self.get(target.seg) {
            Some(segment) => segment.is_gray(target.serial),
            None => false,
        }
    }

    /// A number above the serials of all objects of that segment. It costs as much as `get`.
    pub fn next_serial(&self, seg: Seg) -> u64
        requires { HasDistinct self.now.segments }
        ensures { (n : Named) (row : Row) → n.seg.0 ≡ seg.0 → row_of_name self.now.segments n ≡ Some row → n.serial.0 < result }
    {
        match self.get(seg) {
            Some(segment) => u64::from(segment.made()) + 1,
            None => 0,
        }
    }

    /// Makes the objects black that the bound covers, where none is gray. It looks once at each live object.
    pub fn blacken_covered(&mut self, bound: Bound)
        requires distinct { HasDistinct self.old.segments }
        requires none { (n : Named) → IsFalse (gray_at self.old n) }
        ensures { self.new ≡ blackened bound self.old }
    {
        self.hints.exact = false;
        blacken(&mut self.segments, bound);
    }

    /// Takes the marks of all objects away. It passes the segments, each in constant time as
    /// [`Segment::unmark_all`] says, and no objects.
    pub fn unmark_all(&mut self)
        ensures { self.new ≡ unmarked self.old }
    {
        renew(&self.segments, &mut self.hints.segments);
        unmark(&mut self.segments);
        self.hints.exact = true;
    }

    /// Where the segment of that number stands; the number of segments where there is none.
    fn place(&self, seg: Seg) -> usize
        requires { HasDistinct self.now.segments }
        ensures { result ≡ place_of self.now.segments seg.0 }
    {
        place(&self.segments, &self.hints.segments, self.hints.exact, seg)
    }

    /// Notes where the segment of that number stands.
    fn hint(&mut self, seg: Seg, at: usize)
        ensures { self.new ≡ self.old }
    {
        self.hints.exact = false;
        if let Some(hint) = self.hints.segments.get_mut(seg.0 as usize) {
            *hint = at;
        }
    }
}
