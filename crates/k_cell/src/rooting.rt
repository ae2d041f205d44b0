//! The segments of a heap, whose roots are noted first and made gray later.
ghost use Rattle.std.specs.Prelude.{◌≡◌, ◌≢◌, ◌+◌, ◌<◌, ◌^◌, ◌↔◌, ℕ, ◌++◌, ◌∷◌, [], IfNone, IfOk, IfSome, IsFalse, IsTrue, None, Some, is_some, length, option_map, slice_get, slice_index_or, ◌≤◌};
ghost use Rattle.k_mark.specs.k_types.Names.{name_among, name_eq, name_of};
ghost use Rattle.k_mark.specs.k_types.State.{Holds, Refers, field_kind};
ghost use Rattle.k_mark.specs.k_types.declared.names.Name.{Name as Named};
ghost use Rattle.k_mark.specs.k_space.Areas.{HasDistinct, black_at, gray_at, grayed, is_foreign, marked_at, row_of_name, segment_at, unmarked};
ghost use Rattle.k_mark.specs.k_space.Objects.{content_of};
ghost use Rattle.k_mark.specs.k_exit.Exits.{has_target, target_marked, targets, unmarked as unmarked_exits};
ghost use Rattle.k_mark.specs.Kept.{IsBeginning, IsKept, old_at};
ghost use Rattle.k_mark.specs.Listening.{AreTold, dead_at};
ghost use Rattle.k_mark.specs.Marking.{IsExit, IsReachedIn, refers_at};
ghost use Rattle.k_mark.specs.Sweeping.{dead_bytes, dead_objects, swept};
ghost use Rattle.k_cell.specs.Carried.{IsWhole, known_bound};
ghost use Rattle.k_cell.specs.Looks.{holds_int, holds_ref, row_fields, row_type};
ghost use Rattle.k_cell.specs.Placed.{CanPlace, IsIntAt, IsPlacedIn, IsRefAt, IsWrittenIf, IsWrittenIn};
ghost use Rattle.k_cell.specs.Rooted.{AreGrayBut, grayed_all};

use crate::carrying::{is_reached_still, known_bound, known_first, marked_below};
use crate::looking::{count_at, field_at, found_at, has_room_in, lives_at, type_at};
use crate::writing::{place_in, put_in, store_in, write_int_in, write_ref_in};
use k_mark::{
    Area, Body, Bound, ExitTable, Link, Listener, Name, NoMemory, Seg, Segment, Stored, Swept,
    TypeId, clear, mark_kept, root, sweep_telling,
};
use k_types::Field;
use std::alloc::Global;
use std::marker::Model;
use std::mem::{replace, swap};

/// The segments of a heap. A root is noted while the book is held, which costs the end of a list, and is made gray when
/// marking begins, when nobody waits for it. Contracts see it gray from the first.
pub(crate) struct RootedArea {
    pub(crate) area: Area,
    // The roots that are still to be made gray.
    pub(crate) noted: Vec<Name>,
    // Whether no other object is gray.
    pub(crate) all_noted: bool,
}

impl Drop for RootedArea {
    fn drop(self) {
        let RootedArea {
            area: _,
            noted: _,
            all_noted: _,
        } = self;
    }
}

impl Model for RootedArea {
    ghost use Rattle.k_mark.specs.k_space.Areas.{AreaValue};
    ghost use Rattle.k_cell.specs.Rooted.{grayed_all};

    ghost Value = { AreaValue };

    ghost view = { λ r. grayed_all r.area r.noted.items };

    ghost use Rattle.std.specs.Prelude.{IsFalse, IsTrue};
    ghost use Rattle.k_mark.specs.k_types.declared.names.Name.{Name as Named};
    ghost use Rattle.k_mark.specs.k_space.Areas.{gray_at};

    ghost invariant = { λ r. IsTrue r.all_noted → (n : Named) → IsFalse (gray_at r.area n) };
}

// Makes each of these objects gray.
#[tactic(auto, using(crate::proofs::Rooted::distinct_grayed))]
fn gray_all(area: &mut Area, targets: &[Name])
    requires { HasDistinct area.old.segments }
    ensures { area.new ≡ grayed_all area.old targets.now }
{
    for target in targets {
        area.make_gray(target.link());
    }
}

// Makes the noted roots gray, after which none is noted.
pub(crate) fn settle(area: &mut Area, noted: &mut Vec<Name>, all_noted: &mut bool)
    requires { HasDistinct area.old.segments }
    ensures area { area.new ≡ grayed_all area.old noted.old.items }
    ensures none { noted.new.items ≡ [] }
    ensures not_all { IsFalse all_noted.new }
{
    gray_all(area, noted);
    noted.clear();
    *all_noted = false;
}

// Whether the two names are one.
fn is_same(a: Name, b: Name) -> bool
    ensures { result ≡ name_eq a b }
{
    a.seg.0 == b.seg.0 && a.serial.0 == b.serial.0
}

// Whether the root at that place is this object.
fn stands_at(roots: &[Name], at: usize, target: Name) -> bool
    ensures { IsTrue result → (at < length roots.now) × (slice_get roots.now at ≡ Some target) }
{
    at < roots.len() && is_same(roots[at], target)
}

// Whether all roots are noted, in their order. Others may stand between them.
fn are_noted(noted: &[Name], roots: &[Name]) -> bool
    ensures { IsTrue result → (n : Named) → IsTrue (name_among n roots.now) → IsTrue (name_among n noted.now) }
{
    let mut met = 0;
    for target in noted {
        if stands_at(roots, met, *target) {
            met += 1;
        }
    }
    met == roots.len()
}

// Makes those gray that are noted, but for roots that the bound covers, as far as these stand in their order.
#[tactic(auto, using(crate::proofs::Rooted::distinct_grayed))]
fn gray_others(area: &mut Area, noted: &[Name], roots: &[Name], bound: Bound)
    requires distinct { HasDistinct area.old.segments }
    requires clean { (n : Named) → IsFalse (black_at area.old n) }
    ensures { AreGrayBut area.old noted.now roots.now bound area.new }
{
    let mut met = 0;
    for target in noted {
        if bound.covers(*target) && stands_at(roots, met, *target) {
            met += 1;
        } else {
            area.make_gray(target.link());
        }
    }
}

// Whether all roots are noted, and what was kept is as it was.
fn is_known(noted: &[Name], whole: bool, roots: &[Name]) -> bool
    ensures whole { IsTrue result → IsTrue whole }
    ensures noted { IsTrue result → (n : Named) → IsTrue (name_among n roots.now) → IsTrue (name_among n noted.now) }
{
    whole && are_noted(noted, roots)
}

// Makes gray what is noted and not known to be reached, and tells whether what was kept is known to be reached from the noted
// ones.
fn gray_unknown(area: &mut Area, noted: &[Name], whole: bool, bound: Bound, roots: &[Name]) -> bool
    requires distinct { HasDistinct area.old.segments }
    requires clean { (n : Named) → IsFalse (black_at area.old n) }
    requires carried { IsTrue whole → IsKept (old_at area.old bound) (refers_at area.old) (λ n. name_among n roots.now) bound }
    ensures same { unmarked area.new ≡ unmarked area.old }
    ensures black { (n : Named) → IsFalse (black_at area.new n) }
    ensures whole { IsTrue result → IsTrue whole }
    ensures beginning { IsBeginning area.new (known_bound result bound) (gray_at (grayed_all area.old noted.now)) }
{
    if is_known(noted, whole, roots) {
        gray_others(area, noted, roots, bound);
        return true;
    }
    gray_all(area, noted);
    is_reached_still(area, whole, bound, roots)
}

impl RootedArea {
    /// An area with no segment, room for so many, and room for so many roots.
    pub(crate) fn make(alloc: Global, segments: u32, roots: u32) -> Result<RootedArea, NoMemory>
        ensures { IfOk result (λ a. a ≡ record { segments = []; room = segments }) }
    {
        Ok(RootedArea {
            area: Area::make(alloc, segments)?,
            noted: Vec::with_capacity(alloc, roots as usize)?,
            all_noted: false,
        })
    }

    /// Adds a segment. It comes last.
    pub(crate) fn add(&mut self, segment: Segment)
        requires distinct { HasDistinct self.old.segments }
        requires room { length self.old.segments < self.old.room }
        requires new { segment_at self.old.segments segment.number ≡ None }
        ensures added { self.new ≡ record self.old { segments = self.old.segments ++ segment ∷ [] } }
        ensures distinct { HasDistinct self.new.segments }
    {
        settle(&mut self.area, &mut self.noted, &mut self.all_noted);
        self.area.add(segment);
    }

    /// Takes the segment of that number out, with its objects. The others stay, in any order.
    pub(crate) fn take(&mut self, seg: Seg) -> Option<Segment>
        requires { HasDistinct self.old.segments }
        ensures value { result ≡ segment_at self.old.segments seg.0 }
        ensures room { self.new.room ≡ self.old.room }
        ensures distinct { HasDistinct self.new.segments }
        ensures gone { segment_at self.new.segments seg.0 ≡ None }
        ensures others { (number : ℕ) → number ≢ seg.0 → segment_at self.new.segments number ≡ segment_at self.old.segments number }
        ensures kept { IfNone result (self.new ≡ self.old) }
    {
        settle(&mut self.area, &mut self.noted, &mut self.all_noted);
        self.area.take(seg)
    }

    /// Whether the object is there.
    pub(crate) fn lives_at(&self, at: Name) -> bool
        requires { HasDistinct self.now.segments }
        ensures { result ≡ is_some (row_of_name self.now.segments at) }
    {
        lives_at(&self.area, at)
    }

    /// The number of its fields; 0 where it is not there.
    pub(crate) fn count_at(&self, at: Link) -> u32
        requires { HasDistinct self.now.segments }
        ensures { result ≡ length (row_fields (row_of_name self.now.segments (name_of at))) }
    {
        count_at(&self.area, at)
    }

    /// What its field holds; 0 where there is no such field.
    pub(crate) fn field_at(&self, at: Link, field: u32) -> Stored
        requires { HasDistinct self.now.segments }
        ensures { content_of result ≡ slice_index_or (row_fields (row_of_name self.now.segments (name_of at))) field (Holds 0) }
    {
        field_at(&self.area, at, field)
    }

    /// What its field holds; none where there is no such field.
    pub(crate) fn found_at(&self, at: Link, field: u32) -> Option<Stored>
        requires { HasDistinct self.now.segments }
        ensures { option_map content_of result ≡ slice_get (row_fields (row_of_name self.now.segments (name_of at))) field }
    {
        found_at(&self.area, at, field)
    }

    /// Its type; none where it has none, or is not there.
    pub(crate) fn type_at(&self, at: Name) -> Option<TypeId>
        requires { HasDistinct self.now.segments }
        ensures { result ≡ row_type (row_of_name self.now.segments at) }
    {
        type_at(&self.area, at)
    }

    /// Whether the segment of that number is there and has room for one more object.
    pub(crate) fn has_room_in(&self, seg: Seg) -> bool
        requires { HasDistinct self.now.segments }
        ensures { IsTrue result ↔ CanPlace self.now.segments seg.0 }
    {
        has_room_in(&self.area, seg)
    }

    /// Puts an object into the segment of that number.
    pub(crate) fn place_in(&mut self, seg: Seg, body: Body) -> Link
        requires distinct { HasDistinct self.old.segments }
        requires room { CanPlace self.old.segments seg.0 }
        ensures { IsPlacedIn self.old self.new seg.0 body result }
    {
        settle(&mut self.area, &mut self.noted, &mut self.all_noted);
        place_in(&mut self.area, seg, body)
    }

    /// Writes a reference field of an object.
    pub(crate) fn write_ref_in(&mut self, at: Link, field: u32, value: Option<Link>)
        requires distinct { HasDistinct self.old.segments }
        requires field { IsRefAt self.old.segments (name_of at) field }
        ensures { IsWrittenIn self.old self.new (name_of at) field (Refers (option_map name_of value)) }
    {
        settle(&mut self.area, &mut self.noted, &mut self.all_noted);
        write_ref_in(&mut self.area, at, field, value);
    }

    /// Writes an integer field of an object.
    pub(crate) fn write_int_in(&mut self, at: Link, field: u32, value: u64)
        requires distinct { HasDistinct self.old.segments }
        requires field { IsIntAt self.old.segments (name_of at) field }
        ensures { IsWrittenIn self.old self.new (name_of at) field (Holds value) }
    {
        settle(&mut self.area, &mut self.noted, &mut self.all_noted);
        write_int_in(&mut self.area, at, field, value);
    }

    /// Stores the reference where the field is there and a reference, and answers the field's kind; none where there is no such field.
    pub(crate) fn store_in(&mut self, at: Link, field: u32, value: Option<Link>) -> Option<Field>
        requires { HasDistinct self.old.segments }
        ensures kind { result ≡ option_map field_kind (slice_get (row_fields (row_of_name self.old.segments (name_of at))) field) }
        ensures stored { IsWrittenIf (holds_ref (slice_get (row_fields (row_of_name self.old.segments (name_of at))) field)) self.old self.new (name_of at) field (Refers (option_map name_of value)) }
    {
        settle(&mut self.area, &mut self.noted, &mut self.all_noted);
        store_in(&mut self.area, at, field, value)
    }

    /// Puts the number where the field is there and an integer, and answers the field's kind; none where there is no such field.
    pub(crate) fn put_in(&mut self, at: Link, field: u32, value: u64) -> Option<Field>
        requires { HasDistinct self.old.segments }
        ensures kind { result ≡ option_map field_kind (slice_get (row_fields (row_of_name self.old.segments (name_of at))) field) }
        ensures put { IsWrittenIf (holds_int (slice_get (row_fields (row_of_name self.old.segments (name_of at))) field)) self.old self.new (name_of at) field (Holds value) }
    {
        settle(&mut self.area, &mut self.noted, &mut self.all_noted);
        put_in(&mut self.area, at, field, value)
    }

    /// Takes all marks away, from objects and exit items, and forgets the noted roots.
    pub(crate) fn clear(&mut self, exits: &mut ExitTable)
        ensures area { self.new ≡ unmarked self.old }
        ensures exits { exits.new ≡ unmarked_exits exits.old }
    {
        clear(&mut self.area, exits);
        self.noted.clear();
        self.all_noted = true;
    }

    /// Makes a live object gray, if it was white. It is only noted where there is room.
    pub(crate) fn root(&mut self, target: Link)
        requires { HasDistinct self.old.segments }
        ensures { self.new ≡ grayed self.old (name_of target) }
    {
        if self.noted.len() < self.noted.capacity() {
            self.noted.push_reserved(target.name());
        } else {
            settle(&mut self.area, &mut self.noted, &mut self.all_noted);
            root(&mut self.area, target);
        }
    }

    /// Takes the noted roots out, which are gray no longer.
    pub(crate) fn take_roots(&mut self) -> Vec<Name>
        ensures { self.old ≡ grayed_all self.new result.items }
    {
        let alloc = *self.noted.allocator();
        replace(&mut self.noted, Vec::new(alloc))
    }

    /// Makes each of these gray that is a live object and was white. They are noted in the row in which they come.
    pub(crate) fn put_roots(&mut self, roots: Vec<Name>)
        requires { HasDistinct self.old.segments }
        ensures { self.new ≡ grayed_all self.old roots.items }
    {
        if !self.noted.is_empty() {
            settle(&mut self.area, &mut self.noted, &mut self.all_noted);
        }
        self.noted = roots;
    }

    /// Marks as [`k_mark::mark_kept`] does, with what is known of the last collection: where it is whole, the bound covers
    /// what that one kept, which refers to the first so many exit items, and is reached from these roots. The roots of this collection
    /// come into the last row, and it tells whether they are all, and a bound that covers what they reach.
    pub(crate) fn mark_kept(
        &mut self,
        exits: &mut ExitTable,
        whole: bool,
        bound: Bound,
        first: u32,
        roots: &[Name],
        pending: &mut Vec<Name>,
    ) -> (bool, Bound)
        requires distinct { HasDistinct self.old.segments }
        requires exits { (a n : Named) → IsTrue (refers_at self.old a n) → IsTrue (is_foreign self.old n) → IsTrue (has_target exits.old.items n) }
        requires clean { (n : Named) → IsFalse (black_at self.old n) }
        requires unmarked { (n : Named) → IsFalse (target_marked exits.old.items n) }
        requires carried { IsTrue whole → IsWhole self.old exits.old.items bound first roots.now }
        ensures kept { unmarked self.new ≡ unmarked self.old }
        ensures targets { targets exits.new.items ≡ targets exits.old.items }
        ensures room { exits.new.room ≡ exits.old.room }
        ensures black { (n : Named) → IsFalse (gray_at self.new n) }
        ensures reached { (n : Named) → IsTrue (marked_at self.new n) ↔ IsReachedIn self.old n }
        ensures exits { (n : Named) → IsTrue (target_marked exits.new.items n) ↔ IsExit self.old n }
        ensures next { IsTrue result.0 → IsKept (black_at self.new) (refers_at self.new) (λ n. name_among n pending.new.items) result.1 }
    {
        swap(&mut self.noted, pending);
        self.noted.clear();
        let known = gray_unknown(&mut self.area, pending, whole, bound, roots);
        let covered = known_bound(known, bound);
        let first = known_first(known, first);
        let next = mark_kept(&mut self.area, exits, covered, first);
        marked_below(self.all_noted, next, covered)
    }

    /// Frees the objects that are not marked, adds their number and bytes, and tells their names.
    pub(crate) fn sweep_telling<L: Listener>(&mut self, from_dead: &mut Swept, listener: &mut L)
        requires distinct { HasDistinct self.old.segments }
        requires objects { from_dead.old.objects + dead_objects self.old < 2 ^ 32 }
        requires bytes { from_dead.old.bytes + dead_bytes self.old < 2 ^ 64 }
        ensures area { self.new ≡ swept self.old }
        ensures objects { from_dead.new.objects ≡ from_dead.old.objects + dead_objects self.old }
        ensures bytes { from_dead.new.bytes ≡ from_dead.old.bytes + dead_bytes self.old }
        ensures room { L.room listener.new ≡ L.room listener.old }
        ensures told { length (L.heard listener.old) + dead_objects self.old ≤ L.room listener.old →
            AreTold (dead_at self.old) (dead_objects self.old) (L.heard listener.old) (L.heard listener.new) }
    {
        settle(&mut self.area, &mut self.noted, &mut self.all_noted);
        sweep_telling(&mut self.area, from_dead, listener);
    }
}
