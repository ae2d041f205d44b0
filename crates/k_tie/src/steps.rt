//! The rule of the journal's table, and the kinds of step on its word.
use crate::view::View;
use atomic_table::{Join, Play, Split, TableRule};
use std::marker::{Brand, PhantomData};

/// The rule: the word is the length of the journal, and each note has a prefix of it and its cell's total.
pub struct JournalRule;

impl TableRule<(), View, u32> for JournalRule {
    ghost use Rattle.k_tie.specs.Rule.{Holds};
    ghost use Rattle.k_tie.specs.Steps.{opening_view};

    ghost holds = { λ _. Holds };

    ghost first = { opening_view };
}

/// A split: the first cell in hand becomes a note as it is.
pub struct GiveNote;

impl Split<View> for GiveNote {
    ghost use Rattle.k_tie.specs.Steps.{after_give, note_as_held};

    ghost left = { after_give };

    ghost right = { note_as_held };
}

/// A split: the first cell in hand becomes a note with the whole journal.
pub struct GiveWholeNote;

impl Split<View> for GiveWholeNote {
    ghost use Rattle.k_tie.specs.Steps.{after_give, note_of_whole};

    ghost left = { after_give };

    ghost right = { note_of_whole };
}

/// How often a cell is touched.
pub trait TouchedTimes {
    ghost use Rattle.std.specs.Prelude.{ℕ};

    ghost times: { ℕ };
}

/// One touch.
pub struct Once;

impl TouchedTimes for Once {
    ghost times = { 1 };
}

// Each call picks it.
impl TouchedTimes for Brand {
    ghost times = { 0 };
}

/// A split: the first cell in hand is touched so often and becomes a note.
pub struct GiveTouchedNote<T: TouchedTimes> {
    of: PhantomData<T>,
}

impl<T: TouchedTimes> Split<View> for GiveTouchedNote<T> {
    ghost use Rattle.k_tie.specs.Steps.{after_touch, note_touched};

    ghost left = { after_touch T.times };

    ghost right = { note_touched T.times };
}

/// A join: the journal's seat takes a note's cell in hand.
pub struct TakeNote;

impl Join<View> for TakeNote {
    ghost use Rattle.k_tie.specs.Steps.{after_take};
    ghost use Rattle.k_tie.specs.declared.view.View.TheVariants.{Spent};

    ghost both = { after_take };

    ghost spent = { Spent };
}

/// A load, which tells what the rule says of the cells in hand.
pub struct ReadCells;

impl Play<(), View> for ReadCells {
    ghost use Rattle.k_tie.specs.Steps.{Reads};

    ghost then = { Reads };
}

/// The events that an append adds.
pub trait AppendedEvents {
    ghost use Rattle.std.specs.Prelude.{List};
    ghost use Rattle.k_types.specs.declared.event.Event.{Event};

    ghost events: { List Event };
}

// Each call picks them.
impl AppendedEvents for Brand {
    ghost use Rattle.std.specs.Prelude.{[]};

    ghost events = { [] };
}

/// An addition of their number, by which the journal gets the events.
pub struct AppendEvents<E: AppendedEvents> {
    of: PhantomData<E>,
}

impl<E: AppendedEvents> Play<(), View> for AppendEvents<E> {
    ghost use Rattle.k_tie.specs.Steps.{Appends};

    ghost then = { Appends E.events };
}
