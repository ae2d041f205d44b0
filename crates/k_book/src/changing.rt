//! What a step changes in the book beside the journal.
ghost use Rattle.std.specs.Prelude.{◌≡◌, ◌+◌, ◌-◌, ◌<◌, ◌≤◌, ◌^◌, Some, None, true, IfOk, IfErr, IsTrue, IsFalse, length, slice_index, slice_set, is_some};
ghost use Rattle.k_types.specs.Counted.{counted};
ghost use Rattle.k_types.specs.Names.{among, name_of};
ghost use Rattle.k_types.specs.State.{has_share};
ghost use Rattle.k_entry.specs.Entries.{AreEntries, HasLess, HasMore};
ghost use Rattle.k_book.specs.Entered.{HasRehomed};
ghost use Rattle.k_limits.specs.Limits.{full_at, use_at};
ghost use Rattle.k_shares.specs.Sharers.{bytes_in_phase, GainsEnded, GainsShare, LosesShare};
ghost use Rattle.k_book.specs.Books.{book_entries, book_limits, book_pins};
ghost use Rattle.k_limits.specs.Resizes.{ExplainsResize, full_for_at};
ghost use Rattle.k_types.specs.Trace.{row_of};

use crate::parts::Book;
use k_limits::ResizeRefusal;
use k_types::{Heap, LimitId, Link, Name, Phase, Pid, Seg, SharedId};

impl Book {
    /// Charges `n` bytes at the limit. The error is the first limit on its path, from the limit upwards, where they don't fit;
    /// then nothing is charged.
    pub fn charge(&mut self, at: LimitId, n: u64) -> Result<(), LimitId>
        requires { at.0 < length self.old.rows }
        ensures charged { IfOk result (λ _. (self.new ≡ record self.old { value = record self.old.value { direct = slice_set self.old.value.direct at.0 (slice_index self.old.value.direct at.0 + n) } }) × (full_at (book_limits self.old) at.0 n ≡ None)) }
        ensures full { IfErr result (λ m. (self.new ≡ self.old) × (full_at (book_limits self.old) at.0 n ≡ Some m.0)) }
    {
        self.limits.charge(at, n)?;
        Ok(())
    }

    /// Takes back `n` bytes that were charged at the limit.
    pub fn credit(&mut self, at: LimitId, n: u64)
        requires there { at.0 < length self.old.rows }
        requires charged { n ≤ slice_index self.old.value.direct at.0 }
        ensures { self.new ≡ record self.old { value = record self.old.value { direct = slice_set self.old.value.direct at.0 (slice_index self.old.value.direct at.0 - n) } } }
    {
        self.limits.credit(at, n);
    }

    /// Gives the limit, which is below another, this maximum. `InUse` says that more is used at it, and `Full` names the first limit
    /// from its parent upward where what it would get more doesn't fit; then nothing changes.
    pub fn resize(&mut self, at: LimitId, max: u64) -> Result<(), ResizeRefusal>
        requires there { at.0 < length self.old.rows }
        requires below { IsTrue (is_some (row_of self.old.rows at.0).parent) }
        requires small { max < 2 ^ 40 }
        ensures resized { IfOk result (λ _. (self.new ≡ record self.old { value = record self.old.value { maxima = slice_set self.old.value.maxima at.0 max } }) × (use_at (book_limits self.old) at.0 ≤ max) × (full_for_at (book_limits self.old) at.0 max ≡ None)) }
        ensures refused { IfErr result (λ why. (self.new ≡ self.old) × ExplainsResize (book_limits self.old) at.0 max why) }
    {
        self.limits.resize(at, max)?;
        Ok(())
    }

    /// One heap more has an exit item to the object.
    pub fn enter(&mut self, target: Link)
        requires home { target.seg.0 < length self.old.value.homes }
        requires room { counted self.old.value.entries (name_of target) ≡ 0 → length self.old.value.entries < self.old.entry_room }
        requires small { counted self.old.value.entries (name_of target) < 2 ^ 32 - 1 }
        ensures more { HasMore (book_entries self.old) (book_entries self.new) (name_of target) }
        ensures rest { self.new ≡ record self.old { value = record self.old.value { entries = self.new.value.entries } } }
    {
        self.entered.enter(target);
    }

    /// One heap fewer has an exit item to the object.
    pub fn leave(&mut self, target: Name)
        requires { 0 < counted self.old.value.entries target }
        ensures less { HasLess (book_entries self.old) (book_entries self.new) target }
        ensures rest { self.new ≡ record self.old { value = record self.old.value { entries = self.new.value.entries } } }
    {
        self.entered.leave(target);
    }

    /// One register more of another process than its owner holds the object.
    pub fn pin(&mut self, target: Link)
        requires home { target.seg.0 < length self.old.value.homes }
        requires room { AreEntries (book_pins self.old) → counted self.old.value.pins (name_of target) ≡ 0 → length self.old.value.pins < self.old.pin_room }
        requires small { counted self.old.value.pins (name_of target) < 2 ^ 32 - 1 }
        ensures more { HasMore (book_pins self.old) (book_pins self.new) (name_of target) }
        ensures rest { self.new ≡ record self.old { value = record self.old.value { pins = self.new.value.pins } } }
    {
        self.entered.pin(target);
    }

    /// One register fewer of another process than its owner holds the object.
    pub fn unpin(&mut self, target: Name)
        requires { 0 < counted self.old.value.pins target }
        ensures less { HasLess (book_pins self.old) (book_pins self.new) target }
        ensures rest { self.new ≡ record self.old { value = record self.old.value { pins = self.new.value.pins } } }
    {
        self.entered.unpin(target);
    }

    /// The process shares the heap from now on. What it is charged for that is a matter of `charge`.
    pub fn add_share(&mut self, pid: Pid, shared: SharedId)
        requires process { pid.0 < length self.old.procs }
        requires heap { shared.0 < length self.old.value.phases }
        requires fresh { IsFalse (has_share self.old.value.shares pid.0 shared.0) }
        ensures shares { GainsShare self.old.value.shares self.new.value.shares pid.0 shared.0 }
        ensures rest { self.new ≡ record self.old { value = record self.old.value { shares = self.new.value.shares } } }
    {
        self.table.add(pid, shared);
    }

    /// The process shares the heap no longer. What it is credited for that is a matter of `credit`.
    pub fn drop_share(&mut self, pid: Pid, shared: SharedId)
        requires process { pid.0 < length self.old.procs }
        requires heap { shared.0 < length self.old.value.phases }
        requires there { IsTrue (has_share self.old.value.shares pid.0 shared.0) }
        ensures shares { LosesShare self.old.value.shares self.new.value.shares pid.0 shared.0 }
        ensures rest { self.new ≡ record self.old { value = record self.old.value { shares = self.new.value.shares } } }
    {
        self.table.remove(pid, shared);
    }

    /// The shared heap is in the phase from now on. An absorbed one has no bytes.
    pub fn set_phase(&mut self, shared: SharedId, phase: Phase)
        requires { shared.0 < length self.old.value.phases }
        ensures { self.new ≡ record self.old { value = record self.old.value { phases = slice_set self.old.value.phases shared.0 phase; shared_bytes = bytes_in_phase self.old.value.shared_bytes shared.0 phase } } }
    {
        self.table.set_phase(shared, phase);
    }

    /// The shared heap has so many bytes more. What its maker is charged for them is a matter of `charge`.
    pub fn grow_shared(&mut self, shared: SharedId, n: u64)
        requires there { shared.0 < length self.old.value.phases }
        requires sum { slice_index self.old.value.shared_bytes shared.0 + n < 2 ^ 64 }
        ensures { self.new ≡ record self.old { value = record self.old.value { shared_bytes = slice_set self.old.value.shared_bytes shared.0 (slice_index self.old.value.shared_bytes shared.0 + n) } } }
    {
        self.table.grow(shared, n);
    }

    /// The segment is another heap's from now on, and its entered and pinned objects are on the walks of that heap.
    pub fn rehome(&mut self, seg: Seg, to: Heap)
        requires { seg.0 < length self.old.value.homes }
        ensures entries { HasRehomed (book_entries self.old) (book_entries self.new) seg.0 to }
        ensures pins { HasRehomed (book_pins self.old) (book_pins self.new) seg.0 to }
        ensures rest { self.new ≡ record self.old { value = record self.old.value { homes = slice_set self.old.value.homes seg.0 to; entries = self.new.value.entries; pins = self.new.value.pins } } }
    {
        self.entered.rehome(seg, to);
    }

    /// The process has ended.
    pub fn end_process(&mut self, pid: Pid)
        requires there { pid.0 < length self.old.procs }
        requires lives { IsFalse (among pid.0 self.old.value.ended) }
        ensures ended { GainsEnded self.old.value.ended self.new.value.ended pid.0 }
        ensures rest { self.new ≡ record self.old { value = record self.old.value { ended = self.new.value.ended } } }
    {
        self.table.end(pid);
    }

    /// The last collection of the kernel has begun.
    pub fn close(&mut self)
        ensures { self.new ≡ record self.old { value = record self.old.value { closed = true } } }
    {
        self.closed = true;
    }
}
