//! The events with their seat.
ghost use Rattle.std.specs.Prelude.{◌≡◌, ◌≢◌, ◌+◌, ◌-◌, ◌<◌, ◌≤◌, ◌^◌, [], ◌++◌, Some, IfOk, length, slice_get};
ghost use Rattle.k_types.specs.Complete.{IsPrefixOf};
ghost use Rattle.k_tie.specs.Rule.{total_of};
ghost use Rattle.k_book.specs.Kept.{with_event, with_events, with_touch, with_touches};
ghost use Rattle.k_book.specs.Objects.{objects_by, objects_told};

use circular_buffer::HeapCircularBuffer;
use k_tie::{JournalSeat, Note, Tie};
use k_types::{Event, NoMemory, Reply};
use std::alloc::Global;
use std::marker::Model;

/// How many objects there are after the event, where there were so many before it.
fn objects_by(objects: u64, event: &Event) -> u64
    requires { objects < 2 ^ 64 - 1 }
    ensures { result ≡ objects_by objects event.now }
{
    match *event {
        Event::Done {
            reply: Reply::Made(_),
            ..
        } => objects + 1,
        Event::Ended { freed_objects, .. } => objects.saturating_sub(u64::from(freed_objects)),
        _ => objects,
    }
}

/// The events of the run in order, of which the last ones can be read, and for each cell how many of them touch it. A note belongs to
/// it that is of its table.
pub struct Journal {
    tie: Tie,
    seat: JournalSeat,
    pub(crate) count: u64,
    objects: u64,
    pub(crate) room: u64,
    // How many of the last events can be read. More of them can be held.
    pub(crate) kept: u32,
    pub(crate) last: HeapCircularBuffer<Event>,
}

impl Drop for Journal {
    fn drop(self) {
        let Journal {
            tie: _,
            seat: _,
            count: _,
            objects: _,
            room: _,
            kept: _,
            last: _,
        } = self;
    }
}

impl Model for Journal {
    ghost use Rattle.k_book.specs.Kept.{KeptJournal};

    ghost Value = { KeptJournal };

    ghost use Rattle.k_book.specs.Kept.{AreKept};

    ghost view = { λ j. record { journal = j.seat; room = j.room; kept = j.kept } };

    ghost invariant = { λ j. AreKept j.tie j.seat j.count j.objects j.room j.kept j.last };
}

impl Journal {
    /// The journal of that seat, which has no event yet, with room for so many, of which the last ones are kept. `NoMemory` comes where
    /// there is no memory for these.
    pub fn make(
        alloc: Global,
        tie: Tie,
        seat: JournalSeat,
        room: u64,
        kept: u32,
    ) -> Result<Journal, NoMemory>
        requires table { seat.table ≡ tie }
        requires empty { seat.list ≡ [] }
        requires few { room < 2 ^ 55 }
        ensures { IfOk result (λ made. made ≡ record { journal = seat; room = room; kept = kept }) }
    {
        let last = HeapCircularBuffer::with_capacity(alloc, kept as usize)?;
        Ok(Journal {
            tie,
            seat,
            count: 0,
            objects: 1,
            room,
            kept,
            last,
        })
    }

    /// The number of events, those that are not kept among them.
    pub fn len(&self) -> u64
        ensures length { result ≡ length self.now.journal.list }
        ensures room { length self.now.journal.list ≤ self.now.room }
        ensures few { self.now.room < 2 ^ 55 }
    {
        self.count
    }

    /// How many objects there are by what the events say, the directory with them, which is there before the first. Constant time.
    pub fn objects(&self) -> u64
        ensures { result ≡ objects_told self.now.journal.list }
    {
        self.objects
    }

    /// The event of that number, from 0, which is among the last that are kept.
    #[tactic(auto, using(crate::proofs::Lasting::held_at))]
    pub fn event(&self, number: u64) -> &Event
        requires there { number < length self.now.journal.list }
        requires kept { length self.now.journal.list ≤ number + self.now.kept }
        ensures { slice_get self.now.journal.list number ≡ Some result.now }
    {
        let gone = self.count as usize - self.last.len();
        let Some(event) = self.last.get(number as usize - gone) else {
            unreachable!()
        };
        event
    }

    /// Adds an event at the end. Where no more can be held, the first of those that are is forgotten. Which cells it touches is said by
    /// `touch_in_place`.
    #[tactic(auto, using(crate::proofs::Counted::told_low))]
    pub fn append(&mut self, event: Event)
        requires { length self.old.journal.list < self.old.room }
        ensures { self.new ≡ record self.old { journal = with_event event self.old.journal } }
    {
        self.objects = objects_by(self.objects, &event);
        self.seat.append(&self.tie, &event);
        self.last.push_back(event);
        self.count += 1;
    }

    /// Adds these events at the end, in order, none of which makes an object or frees any. Of those that are held and these the last are
    /// held that can be, and no others are copied. Constant time where none is kept.
    pub fn append_all(&mut self, events: &[Event])
        requires room { length self.old.journal.list + length events.now ≤ self.old.room }
        requires objects { objects_told (self.old.journal.list ++ events.now) ≡ objects_told self.old.journal.list }
        ensures { self.new ≡ record self.old { journal = with_events events.now self.old.journal } }
    {
        self.seat.append_all(&self.tie, events);
        self.last.extend_from_slice(events);
        self.count += events.len() as u64;
    }

    /// Tells that the note's list is a prefix of the journal and that its share is its cell's total, so that no event has
    /// touched the cell unseen. The note has the whole journal afterwards.
    pub fn meet_in_place(&mut self, note: &mut Note)
        requires { note.old.table ≡ self.old.journal.table }
        ensures same { self.new ≡ self.old }
        ensures note { note.new ≡ record note.old { list = self.old.journal.list } }
        ensures prefix { IsPrefixOf note.old.list self.old.journal.list }
        ensures share { note.old.share ≡ total_of self.old.journal.touches note.old.cell }
        ensures few { self.old.room < 2 ^ 55 }
    {
        self.seat.meet_in_place(&self.tie, note);
    }

    /// Counts one more event that touches the note's cell.
    pub fn touch_in_place(&mut self, note: &mut Note)
        requires { note.old.table ≡ self.old.journal.table }
        ensures total { self.new ≡ record self.old { journal = with_touch note.old.cell self.old.journal } }
        ensures note { note.new ≡ record note.old { share = note.old.share + 1 } }
    {
        self.seat.touch_in_place(&self.tie, note);
    }

    /// Counts so many more events that touch the note's cell. Constant time.
    pub fn touch_all_in_place(&mut self, note: &mut Note, times: u64)
        requires { note.old.table ≡ self.old.journal.table }
        ensures total { self.new ≡ record self.old { journal = with_touches times note.old.cell self.old.journal } }
        ensures note { note.new ≡ record note.old { share = note.old.share + times } }
    {
        self.seat.touch_all_in_place(&self.tie, note, times);
    }

    /// Tells that two notes have different cells, and leaves both as they were.
    pub fn apart_in_place(&mut self, one: &mut Note, other: &mut Note)
        requires { (one.old.table ≡ self.old.journal.table) × (other.old.table ≡ self.old.journal.table) }
        ensures same { self.new ≡ self.old }
        ensures notes { (one.new ≡ one.old) × (other.new ≡ other.old) }
        ensures apart { one.old.cell ≢ other.old.cell }
    {
        self.seat.apart_in_place(&self.tie, one, other);
    }
}
