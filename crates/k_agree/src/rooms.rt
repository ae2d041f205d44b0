//! Notes and journal fit the rooms that the trace gives them.
ghost use Rattle.std.specs.Prelude.{IsFalse, List, [], drop, length, slice_index_or, ◌++◌, ◌<◌, ◌≡◌, ◌≤◌, ◌∷◌, ℕ};
ghost use Rattle.k_agree.specs.Agreement.{Agrees, BookAgrees};
ghost use Rattle.k_agree.specs.Meeting.{Fits};
ghost use Rattle.k_agree.specs.Rooms.{AreFirst, FitsTheRooms, HasRoomFor, HasRoomOnceMet, IsInTurn, IsNext};
ghost use Rattle.k_tie.specs.Values.{JournalValue, NoteValue};
ghost use Rattle.k_laws.specs.k_types.Agree.{BookValue, CellValue};
ghost use Rattle.k_laws.specs.k_types.Following.{FollowsOwn, FollowsTrace, is_closing};
ghost use Rattle.k_laws.specs.k_types.Owners.{user};
ghost use Rattle.k_laws.specs.k_types.Steps.{IsLegalHistory, IsPossible, state_after};
ghost use Rattle.k_laws.specs.k_types.Trace.{Trace, operations_of, process_count};
ghost use Rattle.k_laws.specs.k_types.TraceRules.{KeepsRules};
ghost use Rattle.k_laws.specs.k_types.declared.event.Event.{Event};
ghost use Rattle.k_laws.specs.k_types.declared.names.Pid.{Pid};
ghost use Rattle.k_laws.specs.k_types.declared.op.Op.{Op};

use k_laws::{Op, Pid};

/// A legal history that has the first operations of the trace is within the rooms of the trace, and so it is after one more event
/// in turn.
pub fn rooms_suffice()
    ensures history { (trace : Trace) (history : List Event) → KeepsRules trace → IsLegalHistory trace history →
        AreFirst trace history → FitsTheRooms trace history }
    ensures event { (trace : Trace) (history : List Event) (event : Event) → KeepsRules trace → IsLegalHistory trace history →
        AreFirst trace history → IsPossible trace (state_after trace history) event → IsInTurn trace history event →
        HasRoomFor trace history event }
{}

/// What a cell knows of its process before it meets the book, and the book of the journal, is enough for room: the operation that is
/// next by the cell's own events has room in the journal once the note has met it.
pub fn room_is_there_once_met()
    ensures { (trace : Trace) (journal : JournalValue) (book : BookValue) (pid : Pid) (note : NoteValue) (value : CellValue)
        (op : Op) → KeepsRules trace → Agrees trace (user pid.0) note value → BookAgrees trace journal book →
        AreFirst trace journal.list → IsNext trace pid.0 note.list op → HasRoomOnceMet trace journal pid note op }
{}

/// Once met, the unpublished events of a process have room in the journal too: the journal and then these have the first
/// operations of the trace, and are within the rooms.
pub fn tails_have_room_once_met()
    ensures { (trace : Trace) (journal : JournalValue) (book : BookValue) (p : ℕ) (note : NoteValue) (value : CellValue) →
        KeepsRules trace → Agrees trace (user p) note value → BookAgrees trace journal book → AreFirst trace journal.list →
        FollowsOwn trace p (note.list ++ value.tail) → Fits journal note →
        AreFirst trace (journal.list ++ value.tail) × FitsTheRooms trace (journal.list ++ value.tail) }
{}

/// What the locked values keep of the trace's operations they keep over a meeting and over an event in turn. The operation at the
/// number done is the next one.
pub fn cell_and_book_follow_the_trace()
    ensures met { (trace : Trace) (journal : JournalValue) (book : BookValue) (p : ℕ) (note : NoteValue) (value : CellValue) →
        Agrees trace (user p) note value → BookAgrees trace journal book → FollowsOwn trace p (note.list ++ value.tail) →
        Fits journal note → FollowsOwn trace p (journal.list ++ value.tail) }
    ensures events { (trace : Trace) (history : List Event) (event : Event) → IsLegalHistory trace history →
        FollowsTrace trace history → IsPossible trace (state_after trace history) event → IsInTurn trace history event →
        IsFalse (is_closing event) → FollowsTrace trace (history ++ event ∷ []) }
    ensures own { (trace : Trace) (p : ℕ) (history : List Event) → IsLegalHistory trace history → p < process_count trace →
        FollowsTrace trace history → FollowsOwn trace p history }
    ensures next { (trace : Trace) (p : ℕ) (history : List Event) (op : Op) (rest : List Op) → FollowsOwn trace p history →
        drop (slice_index_or (state_after trace history).done p 0) (operations_of trace p) ≡ op ∷ rest → IsNext trace p history op }
{}

/// A process has at most as many unpublished events as operations.
pub fn tails_are_short()
    ensures { (trace : Trace) (p : ℕ) (note : NoteValue) (value : CellValue) → Agrees trace (user p) note value →
        FollowsOwn trace p (note.list ++ value.tail) → length value.tail ≤ length (operations_of trace p) }
{}
