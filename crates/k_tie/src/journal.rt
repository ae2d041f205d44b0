//! The journal's seat, which alone adds events and sends notes out.
ghost use Rattle.std.specs.Prelude.{◌≡◌, ◌+◌, ◌-◌, ◌^◌, ◌<◌, ◌≢◌, [], ◌∷◌, ◌++◌, length, replicate};
ghost use Rattle.k_types.specs.Complete.{IsPrefixOf};
ghost use Rattle.k_tie.specs.Rule.{total_of};

use crate::note::Note;
use crate::steps::{
    AppendEvents, AppendedEvents, GiveNote, GiveTouchedNote, GiveWholeNote, Once, ReadCells,
    TakeNote, TouchedTimes,
};
use crate::tie::Tie;
use crate::view::View;
use atomic_table::Seat;
use k_types::Event;
use std::marker::{Brand, Model};
use std::mem::replace;
use std::slice::from_ref;

/// The seat of the journal, which knows the whole list of events and each cell's total, the number of events that touch
/// the cell. It takes no bytes, and each of its calls is a few loads or one addition on the journal's word.
#[derive(Drop)]
pub struct JournalSeat {
    pub(crate) seat: Seat<(), View>,
}

impl Model for JournalSeat {
    ghost use Rattle.std.specs.Prelude.{◌≡◌, []};
    ghost use Rattle.k_tie.specs.Values.{JournalValue, journal_value, journal_view};

    ghost Value = { JournalValue };

    ghost view = { λ s. journal_value s.seat.table_id s.seat.me.0 };

    ghost invariant = { λ s. s.seat.me ≡ (journal_view (journal_value s.seat.table_id s.seat.me.0), []) };
}

impl JournalSeat {
    /// Adds an event to the journal, by one addition on the word. Totals stay: which cells the event touches is said by
    /// `touch`.
    pub fn append(&mut self, tie: &Tie, event: &Event)
        requires table { self.old.table ≡ tie.now }
        requires room { length self.old.list < 2 ^ 64 - 1 }
        ensures { self.new ≡ record self.old { list = self.old.list ++ event.now ∷ [] } }
    {
        self.append_as::<Brand>(tie, from_ref(event))
    }

    /// Adds these events to the journal in order, by one addition on the word, whatever their number. Totals stay, as with
    /// `append`.
    #[inline]
    pub fn append_all(&mut self, tie: &Tie, events: &[Event])
        requires table { self.old.table ≡ tie.now }
        requires room { length self.old.list + length events.now < 2 ^ 64 }
        ensures { self.new ≡ record self.old { list = self.old.list ++ events.now } }
    {
        self.append_as::<Brand>(tie, events)
    }

    #[inline]
    fn append_as<E: AppendedEvents>(&mut self, tie: &Tie, events: &[Event])
        requires events { events.now ≡ E.events }
        requires table { self.old.table ≡ tie.now }
        requires room { length self.old.list + length E.events < 2 ^ 64 }
        ensures { self.new ≡ record self.old { list = self.old.list ++ E.events } }
    {
        let number = events.len() as u64;
        tie.table
            .shared
            .fetch_add::<AppendEvents<E>>(&mut self.seat, 0, number);
    }

    /// Tells that the note's list is a prefix of the journal and that its share is its cell's total, so that no event has
    /// touched the cell unseen. Gives a note of the same cell that has the whole journal.
    pub fn meet(&mut self, tie: &Tie, note: Note) -> Note
        requires { (self.old.table ≡ tie.now) × (note.table ≡ tie.now) }
        ensures seat { self.new ≡ self.old }
        ensures note { result ≡ record note { list = self.old.list } }
        ensures prefix { IsPrefixOf note.list self.old.list }
        ensures share { note.share ≡ total_of self.old.touches note.cell }
    {
        let shared = &tie.table.shared;
        let Note { seat } = note;
        shared.join_seat::<TakeNote>(&mut self.seat, seat);
        shared.load::<ReadCells>(&mut self.seat, 0);
        let given = shared.split_seat::<GiveWholeNote>(&mut self.seat);
        Note { seat: given }
    }

    /// The same as `meet` for a note that stays in its place.
    pub fn meet_in_place(&mut self, tie: &Tie, note: &mut Note)
        requires { (self.old.table ≡ tie.now) × (note.old.table ≡ tie.now) }
        ensures seat { self.new ≡ self.old }
        ensures note { note.new ≡ record note.old { list = self.old.list } }
        ensures prefix { IsPrefixOf note.old.list self.old.list }
        ensures share { note.old.share ≡ total_of self.old.touches note.old.cell }
    {
        let shared = &tie.table.shared;
        let spare = shared.split_seat::<GiveNote>(&mut self.seat);
        let seat = replace(&mut note.seat, spare);
        shared.join_seat::<TakeNote>(&mut self.seat, seat);
        shared.load::<ReadCells>(&mut self.seat, 0);
        note.seat = shared.split_seat::<GiveWholeNote>(&mut self.seat);
    }

    /// Counts one more event that touches the note's cell: one is added to the note's share and to the cell's total.
    pub fn touch(&mut self, tie: &Tie, note: Note) -> Note
        requires { (self.old.table ≡ tie.now) × (note.table ≡ tie.now) }
        ensures seat { self.new ≡ record self.old { touches = note.cell ∷ self.old.touches } }
        ensures note { result ≡ record note { share = note.share + 1 } }
    {
        let shared = &tie.table.shared;
        let Note { seat } = note;
        shared.join_seat::<TakeNote>(&mut self.seat, seat);
        shared.load::<ReadCells>(&mut self.seat, 0);
        let given = shared.split_seat::<GiveTouchedNote<Once>>(&mut self.seat);
        Note { seat: given }
    }

    /// The same as `touch` for a note that stays in its place.
    pub fn touch_in_place(&mut self, tie: &Tie, note: &mut Note)
        requires { (self.old.table ≡ tie.now) × (note.old.table ≡ tie.now) }
        ensures seat { self.new ≡ record self.old { touches = note.old.cell ∷ self.old.touches } }
        ensures note { note.new ≡ record note.old { share = note.old.share + 1 } }
    {
        self.touch_as::<Once>(tie, note, 1)
    }

    /// Counts so many more events that touch the note's cell. The cost is that of one touch.
    #[inline]
    pub fn touch_all_in_place(&mut self, tie: &Tie, note: &mut Note, times: u64)
        requires { (self.old.table ≡ tie.now) × (note.old.table ≡ tie.now) }
        ensures seat { self.new ≡ record self.old { touches = replicate times note.old.cell ++ self.old.touches } }
        ensures note { note.new ≡ record note.old { share = note.old.share + times } }
    {
        self.touch_as::<Brand>(tie, note, times)
    }

    #[inline]
    fn touch_as<T: TouchedTimes>(&mut self, tie: &Tie, note: &mut Note, times: u64)
        requires times { times ≡ T.times }
        requires table { (self.old.table ≡ tie.now) × (note.old.table ≡ tie.now) }
        ensures seat { self.new ≡ record self.old { touches = replicate T.times note.old.cell ++ self.old.touches } }
        ensures note { note.new ≡ record note.old { share = note.old.share + T.times } }
    {
        let shared = &tie.table.shared;
        let spare = shared.split_seat::<GiveNote>(&mut self.seat);
        let seat = replace(&mut note.seat, spare);
        shared.join_seat::<TakeNote>(&mut self.seat, seat);
        shared.load::<ReadCells>(&mut self.seat, 0);
        note.seat = shared.split_seat::<GiveTouchedNote<T>>(&mut self.seat);
    }

    /// Tells that two notes have different cells, and gives both back as they were.
    pub fn apart(&mut self, tie: &Tie, a: Note, b: Note) -> (Note, Note)
        requires { (self.old.table ≡ tie.now) × (a.table ≡ tie.now) × (b.table ≡ tie.now) }
        ensures seat { self.new ≡ self.old }
        ensures notes { (result.0 ≡ a) × (result.1 ≡ b) }
        ensures apart { a.cell ≢ b.cell }
    {
        let shared = &tie.table.shared;
        let Note { seat: second } = b;
        let Note { seat: first } = a;
        shared.join_seat::<TakeNote>(&mut self.seat, second);
        shared.join_seat::<TakeNote>(&mut self.seat, first);
        shared.load::<ReadCells>(&mut self.seat, 0);
        let one = shared.split_seat::<GiveNote>(&mut self.seat);
        let two = shared.split_seat::<GiveNote>(&mut self.seat);
        (Note { seat: one }, Note { seat: two })
    }
    /// The same as `apart` for two notes that stay in their places.
    pub fn apart_in_place(&mut self, tie: &Tie, a: &mut Note, b: &mut Note)
        requires { (self.old.table ≡ tie.now) × (a.old.table ≡ tie.now) × (b.old.table ≡ tie.now) }
        ensures seat { self.new ≡ self.old }
        ensures notes { (a.new ≡ a.old) × (b.new ≡ b.old) }
        ensures apart { a.old.cell ≢ b.old.cell }
    {
        let shared = &tie.table.shared;
        let one = shared.split_seat::<GiveNote>(&mut self.seat);
        let two = shared.split_seat::<GiveNote>(&mut self.seat);
        let seat_b = replace(&mut b.seat, one);
        let seat_a = replace(&mut a.seat, two);
        shared.join_seat::<TakeNote>(&mut self.seat, seat_b);
        shared.join_seat::<TakeNote>(&mut self.seat, seat_a);
        shared.load::<ReadCells>(&mut self.seat, 0);
        a.seat = shared.split_seat::<GiveNote>(&mut self.seat);
        b.seat = shared.split_seat::<GiveNote>(&mut self.seat);
    }
}
