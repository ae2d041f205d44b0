//! The journal of the book.
ghost use Rattle.std.specs.Prelude.{◌≡◌, ◌≢◌, ◌+◌, ◌<◌, ◌≤◌, ◌^◌, ◌++◌, Some, length, slice_get};
ghost use Rattle.k_types.specs.Complete.{IsPrefixOf};
ghost use Rattle.k_agree.specs.k_tie.Rule.{total_of};
ghost use Rattle.k_book.specs.Kept.{with_event, with_events, with_touch, with_touches};
ghost use Rattle.k_book.specs.Objects.{objects_told};

use crate::parts::Book;
use k_agree::Note;
use k_types::Event;

impl Book {
    /// The number of events of the journal, those that are not kept among them.
    pub fn len(&self) -> u64
        ensures length { result ≡ length self.now.journal.list }
        ensures room { length self.now.journal.list ≤ self.now.event_room }
        ensures few { self.now.event_room < 2 ^ 55 }
    {
        self.journal.len()
    }

    /// How many objects there are by what the events say, the directory with them, which is there before the first. Constant time.
    pub fn objects(&self) -> u64
        ensures { result ≡ objects_told self.now.journal.list }
    {
        self.journal.objects()
    }

    /// The event of that number, from 0, which is among the last that are kept.
    pub fn event(&self, number: u64) -> &Event
        requires there { number < length self.now.journal.list }
        requires kept { length self.now.journal.list ≤ number + self.now.kept }
        ensures { slice_get self.now.journal.list number ≡ Some result.now }
    {
        self.journal.event(number)
    }

    /// Adds an event at the end of the journal. Where no more are kept, the first of those that are is forgotten. Which cells it touches
    /// is said by `touch`.
    pub fn append(&mut self, event: Event)
        requires { length self.old.journal.list < self.old.event_room }
        ensures { self.new ≡ record self.old { journal = with_event event self.old.journal } }
    {
        self.journal.append(event);
    }

    /// Adds these events at the end of the journal, in order, none of which makes an object or frees any. Only those that are kept are
    /// copied. Constant time where none is.
    pub fn append_all(&mut self, events: &[Event])
        requires room { length self.old.journal.list + length events.now ≤ self.old.event_room }
        requires objects { objects_told (self.old.journal.list ++ events.now) ≡ objects_told self.old.journal.list }
        ensures { self.new ≡ record self.old { journal = with_events events.now self.old.journal } }
    {
        self.journal.append_all(events);
    }

    /// Tells that the note's list is a prefix of the journal and that its share is its cell's total, so that no event has
    /// touched the cell unseen. The note has the whole journal afterwards.
    pub fn meet(&mut self, note: &mut Note)
        requires { note.old.table ≡ self.old.journal.table }
        ensures same { self.new ≡ self.old }
        ensures note { note.new ≡ record note.old { list = self.old.journal.list } }
        ensures prefix { IsPrefixOf note.old.list self.old.journal.list }
        ensures share { note.old.share ≡ total_of self.old.journal.touches note.old.cell }
        ensures few { self.old.event_room < 2 ^ 55 }
    {
        self.journal.meet_in_place(note);
    }

    /// Counts one more event that touches the note's cell.
    pub fn touch(&mut self, note: &mut Note)
        requires { note.old.table ≡ self.old.journal.table }
        ensures total { self.new ≡ record self.old { journal = with_touch note.old.cell self.old.journal } }
        ensures note { note.new ≡ record note.old { share = note.old.share + 1 } }
    {
        self.journal.touch_in_place(note);
    }

    /// Counts so many more events that touch the note's cell. Constant time.
    pub fn touch_all(&mut self, note: &mut Note, times: u64)
        requires { note.old.table ≡ self.old.journal.table }
        ensures total { self.new ≡ record self.old { journal = with_touches times note.old.cell self.old.journal } }
        ensures note { note.new ≡ record note.old { share = note.old.share + times } }
    {
        self.journal.touch_all_in_place(note, times);
    }

    /// Tells that two notes have different cells, and leaves both as they were.
    pub fn apart(&mut self, one: &mut Note, other: &mut Note)
        requires { (one.old.table ≡ self.old.journal.table) × (other.old.table ≡ self.old.journal.table) }
        ensures same { self.new ≡ self.old }
        ensures notes { (one.new ≡ one.old) × (other.new ≡ other.old) }
        ensures apart { one.old.cell ≢ other.old.cell }
    {
        self.journal.apart_in_place(one, other);
    }
}
