//! What the changing calls are to the machine: changes of the book's part, and steps of drains.
ghost use Rattle.std.specs.Prelude.{◌≡◌, ◌+◌, ◌==◌, ◌∷◌, [], ℕ, not, true, IsFalse, IsTrue, Option, Some, None, slice_index, slice_set};
ghost use Rattle.k_types.specs.declared.names.Heap.{Heap};
ghost use Rattle.k_types.specs.declared.names.Name.{Name};
ghost use Rattle.k_types.specs.declared.names.Phase.{Phase};
ghost use Rattle.k_types.specs.declared.names.Phase.TheVariants.{Absorbed};
ghost use Rattle.k_types.specs.Agree.{BookValue, book_shown_by};
ghost use Rattle.k_types.specs.Cells.{BookPart};
ghost use Rattle.k_types.specs.Names.{heap_eq, name_eq};
ghost use Rattle.k_types.specs.Owners.{is_absorbed, user};
ghost use Rattle.k_agree.specs.k_laws.BookChanges.{keeping_shares, with_charge, with_credit, with_entry, with_phase, with_pin_moved, with_share, with_shared_bytes, without_entries};
ghost use Rattle.k_entry.specs.Entries.{HasLess, HasMore};
ghost use Rattle.k_agree.specs.Ending.{HasLeft};
ghost use Rattle.k_agree.specs.GivingOnTheBook.{HasEntered, HasUnpinned};
ghost use Rattle.k_shares.specs.Sharers.{GainsEnded, GainsShare, LosesShare, bytes_in_phase};
ghost use Rattle.k_book.specs.Books.{BookRecord, book_entries, book_pins};
ghost use Rattle.k_book.specs.Calls.{ChangesEnded, ChangesEntries, ChangesPins, ChangesShares, with_ended};

/// What a call says of the amounts and phases that it sets is an elementary change of the book's part.
pub fn amounts_change_the_part()
    ensures charged { (b : BookValue) (m n : ℕ) →
        book_shown_by (record b { direct = slice_set b.direct m (slice_index b.direct m + n) }) ≡ with_charge m n (book_shown_by b) }
    ensures grown { (b : BookValue) (s n : ℕ) →
        book_shown_by (record b { shared_bytes = slice_set b.shared_bytes s (slice_index b.shared_bytes s + n) }) ≡ with_shared_bytes s n (book_shown_by b) }
    ensures phase { (b : BookValue) (s : ℕ) (phase : Phase) → IsFalse (is_absorbed phase) →
        book_shown_by (record b { phases = slice_set b.phases s phase; shared_bytes = bytes_in_phase b.shared_bytes s phase }) ≡ with_phase s phase (book_shown_by b) }
    ensures absorbed { (b : BookValue) (s : ℕ) →
        book_shown_by (record b { phases = slice_set b.phases s Absorbed; shared_bytes = bytes_in_phase b.shared_bytes s Absorbed })
        ≡ record (with_phase s Absorbed (book_shown_by b)) { shared_bytes = slice_set b.shared_bytes s 0 } }
{}

/// What a call says of entry items, shares and ended processes is an elementary change of the book's part.
pub fn tests_change_the_part()
    ensures entered { (old new : BookRecord) (y : Name) → HasMore (book_entries old) (book_entries new) y → ChangesEntries old new →
        book_shown_by new.value ≡ with_entry true y (book_shown_by old.value) }
    ensures left { (old new : BookRecord) (y : Name) → HasLess (book_entries old) (book_entries new) y → ChangesEntries old new →
        book_shown_by new.value ≡ without_entries (name_eq y) (book_shown_by old.value) }
    ensures shared { (old new : BookRecord) (p s : ℕ) → GainsShare old.value.shares new.value.shares p s → ChangesShares old new →
        book_shown_by new.value ≡ with_share p s (book_shown_by old.value) }
    ensures unshared { (old new : BookRecord) (p s : ℕ) → LosesShare old.value.shares new.value.shares p s → ChangesShares old new →
        book_shown_by new.value ≡ keeping_shares p (λ t. not (s == t)) (book_shown_by old.value) }
    ensures ended { (old new : BookRecord) (p : ℕ) → GainsEnded old.value.ended new.value.ended p → ChangesEnded old new →
        book_shown_by new.value ≡ with_ended p (book_shown_by old.value) }
{}

/// A pin that is taken or let go for an object of another heap is half the change of a register; one of the process's own heap
/// is no pin.
pub fn pins_change_the_part()
    ensures pinned { (old new : BookRecord) (own : ℕ → Heap) (p : ℕ) (y : Name) → HasMore (book_pins old) (book_pins new) y →
        IsFalse (heap_eq (user p) (own y.seg.0)) → ChangesPins old new →
        book_shown_by new.value ≡ with_pin_moved own p None (Some y) (book_shown_by old.value) }
    ensures unpinned { (old new : BookRecord) (own : ℕ → Heap) (p : ℕ) (y : Name) → HasLess (book_pins old) (book_pins new) y →
        IsFalse (heap_eq (user p) (own y.seg.0)) → ChangesPins old new →
        book_shown_by new.value ≡ with_pin_moved own p (Some y) None (book_shown_by old.value) }
    ensures moved { (own : ℕ → Heap) (p : ℕ) (x y : Option Name) (b : BookPart) →
        with_pin_moved own p x None (with_pin_moved own p None y b) ≡ with_pin_moved own p x y b }
    ensures own_pinned { (own : ℕ → Heap) (p : ℕ) (y : Name) (b : BookPart) → IsTrue (heap_eq (user p) (own y.seg.0)) →
        with_pin_moved own p None (Some y) b ≡ b }
    ensures own_unpinned { (own : ℕ → Heap) (p : ℕ) (y : Name) (b : BookPart) → IsTrue (heap_eq (user p) (own y.seg.0)) →
        with_pin_moved own p (Some y) None b ≡ b }
{}

/// Each object that is entered, left or unpinned is one step of the drains at the end of a process or of a shared heap.
pub fn calls_are_steps_of_drains()
    ensures entered { (old new : BookRecord) (y : Name) → HasMore (book_entries old) (book_entries new) y → HasEntered (y ∷ []) old.value new.value }
    ensures left { (old new : BookRecord) (y : Name) → HasLess (book_entries old) (book_entries new) y → HasLeft (y ∷ []) old.value new.value }
    ensures unpinned { (old new : BookRecord) (own : ℕ → Heap) (p : ℕ) (y : Name) → HasLess (book_pins old) (book_pins new) y →
        IsFalse (heap_eq (user p) (own y.seg.0)) → HasUnpinned own p (Some y ∷ []) old.value new.value }
    ensures own { (own : ℕ → Heap) (p : ℕ) (y : Name) (b : BookValue) → IsTrue (heap_eq (user p) (own y.seg.0)) → HasUnpinned own p (Some y ∷ []) b b }
    ensures null { (own : ℕ → Heap) (p : ℕ) (b : BookValue) → HasUnpinned own p (None ∷ []) b b }
{}
