//! Worked snapshots, what the audit answers of them, and the laws of the audit.
ghost use Rattle.std.specs.Prelude.{◌≡◌, ◌↔◌, ◌++◌, ◌∷◌, [], codes};
ghost use Rattle.k_types.specs.Sound.{IsSized, IsSound};
ghost use Rattle.k_types.specs.State.{State};
ghost use Rattle.k_types.specs.Trace.{Trace};
ghost use Rattle.k_words.specs.Words.{Text};
ghost use Rattle.k_trace.specs.Named.{DeclaredNames};
ghost use Rattle.k_text.specs.Named.{AreNamed};
ghost use Rattle.k_reports.specs.Spelled.{AreProper};
ghost use Rattle.k_state.specs.Setups.{AreSetupRules};
ghost use Rattle.k_audit.specs.Claims.{Snap, claims_of, snap_of};
ghost use Rattle.k_audit.specs.Lines.{snap_text};
ghost use Rattle.k_audit.specs.Ranges.{IsInRange};
ghost use Rattle.k_audit.specs.Snapshots.{snapshot_text};
ghost use Rattle.k_audit.specs.Verdicts.{IsVerdict, Spells};
ghost use Rattle.k_audit.specs.declared.verdicts.Verdict.{Verdict};
ghost use Rattle.k_text.specs.Worked.{barrier, every_sharer_pays, of_lines};
ghost use Rattle.k_audit.specs.Answering.{answer_to};
ghost use Rattle.k_audit.specs.WorkedAudits.{audited, barrier_snapshot, one_exit_less, one_share_less, sharing_front, sharing_snapshot};
ghost use Rattle.k_audit.specs.declared.verdicts.Verdict.TheVariants.{Line, Point, Sound};
ghost use Rattle.k_audit.specs.Worked.{every_sharer_pays_snapshot, file_order_snapshot, two_are_gone, two_are_gone_snapshot};

/// The snapshot of two processes that share a heap, each of which pays for it, computed by the definitions.
#[tactic(auto, using(crate::proofs::Worked::every_sharer_pays_is))]
pub fn every_sharer_pays_snapshot_row()
    ensures { file_order_snapshot every_sharer_pays ≡ every_sharer_pays_snapshot }
{}

/// The snapshot where one process has ended, a maximum was lowered and then another process was ended, computed by the definitions.
#[tactic(auto, using(crate::proofs::Worked::two_are_gone_is))]
pub fn two_are_gone_row()
    ensures { file_order_snapshot two_are_gone ≡ two_are_gone_snapshot }
{}

/// The snapshot where every sharer pays in full is sound, and the claims of the same without one share are false, computed by the
/// definitions.
#[tactic(auto, using(crate::proofs::WorkedAudits::sharing_is_sound, crate::proofs::WorkedAudits::share_is_missed))]
pub fn every_sharer_pays_audit_row()
    ensures whole { audited every_sharer_pays sharing_snapshot ≡ Sound }
    ensures less { audited every_sharer_pays one_share_less ≡ Point 8 }
{}

/// The snapshot of the row of the barrier is sound; without its exit item a reference has none; where there is nothing at all the first
/// line is missing; computed by the definitions.
#[tactic(auto, using(crate::proofs::WorkedAudits::barrier_is_sound, crate::proofs::WorkedAudits::exit_is_missed, crate::proofs::WorkedAudits::nothing_is_line_one))]
pub fn barrier_audit_row()
    ensures whole { audited barrier barrier_snapshot ≡ Sound }
    ensures less { audited barrier one_exit_less ≡ Point 3 }
    ensures nothing { audited barrier [] ≡ Line 1 }
{}

/// A line that is missing and a last line without its line feed, computed by the definitions.
#[tactic(auto, using(crate::proofs::WorkedAudits::line_is_missing, crate::proofs::WorkedAudits::feed_is_missing))]
pub fn last_lines_audit_row()
    ensures missing { audited every_sharer_pays sharing_front ≡ Line 18 }
    ensures feed { answer_to every_sharer_pays.names every_sharer_pays.trace (of_lines sharing_front ++ codes "p2 s") ≡ Line 18 }
{}

/// The bytes deserve one verdict alone, and it is the one that the definitions compute, over a header whose setup keeps the rules and
/// whose names can be told apart.
pub fn verdicts_are_one()
    ensures one { (names : DeclaredNames) (trace : Trace) (bytes : Text) (a b : Verdict) → AreSetupRules trace → AreNamed names trace → AreProper names
        → IsVerdict names trace bytes a → IsVerdict names trace bytes b → a ≡ b }
    ensures computed { (names : DeclaredNames) (trace : Trace) (bytes : Text) → AreSetupRules trace → AreNamed names trace → AreProper names
        → IsVerdict names trace bytes (answer_to names trace bytes) }
{}

/// A text is found sound exactly where it is that of a snapshot that says a sound state, and claims what is so of it.
pub fn sound_texts_say_sound_states()
    ensures { (names : DeclaredNames) (trace : Trace) (bytes : Text) → IsVerdict names trace bytes Sound
        ↔ ((snap : Snap) × Spells names trace bytes snap × IsSound trace snap.state × (snap.claims ≡ claims_of trace snap.state)) }
{}

/// The text that is written of a state is that of the snapshot that says the state, with its lists in order, and claims what is so of it.
pub fn written_texts_are_those_of_snapshots()
    ensures { (names : DeclaredNames) (trace : Trace) (st : State) → IsSized trace st → snap_text names trace (snap_of trace st) ≡ snapshot_text names trace st }
{}

/// The text that is written of a sound state deserves the verdict that it is sound, where its numbers are in the ranges of a snapshot.
pub fn snapshots_of_sound_states_are_sound()
    ensures { (names : DeclaredNames) (trace : Trace) (st : State) → IsSound trace st → IsInRange trace st → IsVerdict names trace (snapshot_text names trace st) Sound }
{}
