//! Objects, exit items and shares that stay, each by its mark.
ghost use Rattle.std.specs.Prelude.{◌≡◌, ◌<◌, ◌==◌, ◌||◌, ◌^◌, not, Bool, length, map};
ghost use Rattle.k_state.specs.Machines.{AreTotals};
ghost use Rattle.k_state.specs.Marks.{marked};
ghost use Rattle.k_state.specs.Segments.{objects_in};
ghost use Rattle.k_types.specs.Owners.{object_bytes};
ghost use Rattle.k_types.specs.State.{ExitItem as Item, Object, Sharing};
ghost use Rattle.k_types.specs.Totals.{total};
ghost use Rattle.k_types.specs.Trace.{segment_count};
ghost use Rattle.k_types.specs.Updates.{keep_exits, keep_objects, keep_shares};
ghost use Rattle.k_types.specs.declared.names.Name.{Name};

use crate::lists::PlainLists;
use crate::objects::PlainObject;
use k_types::Seg;

// The marked items stay, in their order.
pub(crate) fn keep_marked<T: Drop>(items: &mut Vec<T>, stays: &[bool])
    requires { length stays.now ≡ length items.old.items }
    ensures { items.new.items ≡ marked stays.now items.old.items }
{
    let mut kept = 0;
    for i in 0..stays.len() {
        if stays[i] {
            items.swap(kept, i);
            kept += 1;
        }
    }
    items.truncate(kept);
}

// The totals become the bytes of the objects, by their segments.
pub(crate) fn recount(objects: &[PlainObject], totals: &mut [u64])
    requires { length objects.now < 2 ^ 32 }
    ensures length { length totals.new ≡ length totals.old }
    ensures totals { AreTotals objects.now totals.new }
{
    totals.fill(0);
    for object in objects {
        let seg = object.name().seg.0 as usize;
        if seg < totals.len() {
            totals[seg] += object.size();
        }
    }
}

// The bytes of the objects.
pub(crate) fn bytes_of(objects: &[PlainObject]) -> u64
    requires { length objects.now < 2 ^ 32 }
    ensures { result ≡ total object_bytes objects.now }
{
    let mut sum = 0;
    for object in objects {
        sum += object.size();
    }
    sum
}

impl PlainLists {
    /// The marked objects of the segment stay, its others go. There is a mark for each of its objects, in their order. Walks
    /// over the objects of the segment.
    #[tactic(auto, unfolding(k_types::specs::Updates::keep_objects))]
    pub fn keep_objects(&mut self, seg: Seg, stays: &[bool])
        requires seg { seg.0 < segment_count self.old.setup }
        requires marks { length stays.now ≡ length (objects_in self.old.state.objects seg.0) }
        ensures setup { self.new.setup ≡ self.old.setup }
        ensures state { (passes : Name → Bool) → stays.now ≡ map (λ (o : Object). passes o.name) (objects_in self.old.state.objects seg.0) →
            self.new.state ≡ keep_objects (λ n. not (n.seg.0 == seg.0) || passes n) self.old.state }
    {
        self.segments.keep(seg, stays);
    }

    /// The marked exit items stay, the others go. There is a mark for each item, in the order in which they stand.
    #[tactic(auto, unfolding(k_types::specs::Updates::keep_exits))]
    pub fn keep_exits(&mut self, stays: &[bool])
        requires { length stays.now ≡ length self.old.state.exits }
        ensures setup { self.new.setup ≡ self.old.setup }
        ensures state { (passes : Item → Bool) → stays.now ≡ map passes self.old.state.exits →
            self.new.state ≡ keep_exits passes self.old.state }
    {
        self.exits.keep(stays);
    }

    /// The marked shares stay, the others go. There is a mark for each share, in the order in which they stand.
    #[tactic(auto, unfolding(k_types::specs::Updates::keep_shares))]
    pub fn keep_shares(&mut self, stays: &[bool])
        requires { length stays.now ≡ length self.old.state.shares }
        ensures setup { self.new.setup ≡ self.old.setup }
        ensures state { (passes : Sharing → Bool) → stays.now ≡ map passes self.old.state.shares →
            self.new.state ≡ keep_shares passes self.old.state }
    {
        keep_marked(&mut self.shares, stays);
    }
}
