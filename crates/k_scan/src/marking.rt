//! Marks beside the objects, segment by segment, one for each object in order.
ghost use Rattle.std.specs.Prelude.{◌≡◌, ◌<◌, not, cond, [], false, is_some, length, replicate, slice_index_or, slice_set, true, IfOk, IsFalse};
ghost use Rattle.k_scan.specs.Marks.{IsMarked, covers, is_marked, lengths, sizes_of};
ghost use Rattle.k_state.specs.Segments.{objects_in};
ghost use Rattle.k_types.specs.Trace.{segment_count};
ghost use Rattle.k_types.specs.declared.names.Name.{Name};

use k_state::{PlainLists, is_same_heap};
use k_types::{Heap, Name, NoMemory, Seg};
use std::alloc::Global;
use std::marker::Model;

// The marks of a segment.
#[derive(Drop)]
struct SegmentMarks {
    marks: Vec<bool>,
}

impl Model for SegmentMarks {
    ghost use Rattle.std.specs.Prelude.{Bool, List};

    ghost Value = { List Bool };

    ghost view = { λ m. m.marks.items };
}

impl SegmentMarks {
    // So many marks, of which none is set.
    fn none(alloc: Global, count: usize) -> Result<SegmentMarks, NoMemory>
        ensures { IfOk result (λ marks. marks ≡ replicate count false) }
    {
        Ok(SegmentMarks {
            marks: vec![in alloc; false; count]?,
        })
    }

    fn all(&self) -> &[bool]
        ensures { result.now ≡ self.now }
    {
        &self.marks
    }

    // Sets the mark at that place, and says whether it was not set before.
    fn set(&mut self, at: usize) -> bool
        requires { at < length self.old }
        ensures fresh { result ≡ not (slice_index_or self.old at false) }
        ensures marks { self.new ≡ slice_set self.old at true }
    {
        let was = self.marks[at];
        self.marks[at] = true;
        !was
    }
}

// Marks for the objects of a heap, or of all heaps, in the order of the objects: a list for each segment, which is empty where
// the segment is another heap's.
#[derive(Drop)]
pub(crate) struct Marks {
    segments: Vec<SegmentMarks>,
}

impl Model for Marks {
    ghost use Rattle.std.specs.Prelude.{Bool, List};

    ghost Value = { List (List Bool) };

    ghost view = { λ m. m.segments.items };
}

// How many marks the segment gets: one for each of its objects, where it is the heap's or no heap is given.
fn marks_for(lists: &PlainLists, heap: Option<Heap>, seg: Seg) -> usize
    ensures { result ≡ cond (covers lists.now.setup lists.now.state heap seg.0) (length (objects_in lists.now.state.objects seg.0)) 0 }
{
    match heap {
        Some(heap) if !is_same_heap(lists.owner(seg), heap) => 0,
        _ => lists.objects_in(seg).len(),
    }
}

impl Marks {
    // No object of the heap is marked, or none of all heaps where no heap is given.
    pub(crate) fn none(
        alloc: Global,
        lists: &PlainLists,
        heap: Option<Heap>,
    ) -> Result<Marks, NoMemory>
        ensures size { IfOk result (λ marks. lengths marks ≡ sizes_of lists.now.setup lists.now.state heap) }
        ensures none { IfOk result (λ marks. (n : Name) → IsFalse (is_marked lists.now.state.objects marks n)) }
    {
        let mut segments = Vec::new(alloc);
        for seg in 0..lists.segment_count() {
            let count = marks_for(lists, heap, Seg(seg));
            segments.push(SegmentMarks::none(alloc, count)?)?;
        }
        Ok(Marks { segments })
    }

    // The marks of the segment; none where there is no such segment.
    pub(crate) fn of(&self, seg: Seg) -> &[bool]
        ensures { result.now ≡ slice_index_or self.now seg.0 [] }
    {
        let at = seg.0 as usize;
        if at < self.segments.len() {
            self.segments[at].all()
        } else {
            &[]
        }
    }

    // Marks the object of that name, where there is one, and gives its place in its segment, where it was not marked before.
    pub(crate) fn mark(&mut self, lists: &PlainLists, name: Name) -> Option<usize>
        requires { name.seg.0 < segment_count lists.now.setup →
            slice_index_or (lengths self.old) name.seg.0 0 ≡ length (objects_in lists.now.state.objects name.seg.0) }
        ensures { IsMarked lists.now.state.objects name self.old self.new (is_some result) }
    {
        let Some(at) = lists.index_of(name) else {
            return None;
        };
        let marks = &mut self.segments[name.seg.0 as usize];
        if !marks.set(at) {
            return None;
        }
        Some(at)
    }
}
