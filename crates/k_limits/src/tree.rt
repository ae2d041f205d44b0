//! The tree of limits: what is charged, what is used, and whether there is room for more.
ghost use Rattle.std.specs.Prelude.{◌≡◌, ℕ, ◌+◌, ◌-◌, ◌^◌, ◌<◌, ◌≤◌, [], ◌∷◌, ◌++◌, length, slice_index, slice_set, Some, None, IsTrue, IsFalse, IfOk, IfErr, is_some};
ghost use Rattle.k_types.specs.Names.{among};
ghost use Rattle.k_types.specs.Limits.{max_of, ancestors_of};
ghost use Rattle.k_limits.specs.Limits.{use_at, full_at};
ghost use Rattle.k_limits.specs.Rows.{AreRows, Explains, ExplainsRow, first_refused, is_refused, uncharged};
ghost use Rattle.k_limits.specs.Resizes.{ExplainsResize, full_for_at, with_max_at};
ghost use Rattle.k_types.specs.Trace.{row_of};

use crate::error::{MakeError, ResizeRefusal};
use crate::paths::{first_full, is_below, lower, raise, reserved_from};
use k_types::{LimitId, LimitRow, push};
use std::alloc::Global;
use std::marker::Model;

/// The limits of a trace, and the bytes charged at them. A call takes time in the length of the path that it walks, and
/// only `make` takes memory.
pub struct LimitTree {
    rows: Vec<LimitRow>,
    direct: Vec<u64>,
    uses: Vec<u64>,
}

impl Drop for LimitTree {
    fn drop(self) {
        let LimitTree {
            rows: _,
            direct: _,
            uses: _,
        } = self;
    }
}

impl Model for LimitTree {
    ghost use Rattle.k_limits.specs.Limits.{ChargedLimits, charged_limits};
    ghost use Rattle.k_limits.specs.Paths.{AreUses};

    ghost Value = { ChargedLimits };

    ghost view = { λ t. charged_limits t.rows.items t.direct.items };

    ghost invariant = { λ t. AreUses (charged_limits t.rows.items t.direct.items) t.uses.items };
}

impl LimitTree {
    /// The tree of these rows, with nothing charged. The row of number i is the limit of number i. `ReserveFull` names the
    /// first hard row whose maximum doesn't fit on its parent's path.
    pub fn make(alloc: Global, rows: &[LimitRow]) -> Result<LimitTree, MakeError>
        requires rows { AreRows rows.now }
        requires few { length rows.now < 2 ^ 32 }
        ensures made { IfOk result (λ tree. (tree ≡ uncharged rows.now) × (first_refused rows.now ≡ None)) }
        ensures refused { IfErr result (λ why. Explains rows.now why) }
    {
        let mut tree = LimitTree::empty(alloc);
        for row in rows {
            tree = tree.with_row(row)?;
        }
        Ok(tree)
    }

    fn empty(alloc: Global) -> LimitTree
        ensures { result ≡ uncharged [] }
    {
        LimitTree {
            rows: Vec::new(alloc),
            direct: Vec::new(alloc),
            uses: Vec::new(alloc),
        }
    }

    // The same tree with one more limit, which reserves its maximum where it is hard.
    fn with_row(self, row: &LimitRow) -> Result<LimitTree, MakeError>
        requires rows { AreRows (self.rows ++ row.now ∷ []) }
        requires few { length self.rows + 1 < 2 ^ 32 }
        ensures added { IfOk result (λ tree. (tree.rows ≡ self.rows ++ row.now ∷ []) × (tree.direct ≡ self.direct ++ 0 ∷ []) × IsFalse (is_refused self row.now)) }
        ensures refused { IfErr result (λ why. ExplainsRow self row.now why) }
    {
        let LimitTree {
            mut rows,
            mut direct,
            mut uses,
        } = self;
        let parent = reserved_from(row);
        if first_full(&rows, &uses, parent, row.max).is_some() {
            return Err(MakeError::ReserveFull(rows.len() as u32));
        }
        raise(&rows, &mut uses, parent, row.max);
        push(&mut rows, *row)?;
        push(&mut direct, 0)?;
        push(&mut uses, 0)?;
        Ok(LimitTree { rows, direct, uses })
    }

    /// Charges `n` bytes, however many, at the limit. The error is the first limit on its path, from the limit upwards, where they don't
    /// fit; then nothing is charged.
    pub fn charge(&mut self, at: LimitId, n: u64) -> Result<(), LimitId>
        requires { at.0 < length self.old.rows }
        ensures charged { IfOk result (λ _. (self.new ≡ record self.old { direct = slice_set self.old.direct at.0 (slice_index self.old.direct at.0 + n) }) × (full_at self.old at.0 n ≡ None)) }
        ensures full { IfErr result (λ m. (self.new ≡ self.old) × (full_at self.old at.0 n ≡ Some m.0)) }
    {
        if let Some(full) = first_full(&self.rows, &self.uses, Some(at), n) {
            return Err(full);
        }
        raise(&self.rows, &mut self.uses, Some(at), n);
        self.direct[at.0 as usize] += n;
        Ok(())
    }

    /// Takes back `n` bytes that were charged at the limit.
    pub fn credit(&mut self, at: LimitId, n: u64)
        requires there { at.0 < length self.old.rows }
        requires charged { n ≤ slice_index self.old.direct at.0 }
        ensures { self.new ≡ record self.old { direct = slice_set self.old.direct at.0 (slice_index self.old.direct at.0 - n) } }
    {
        lower(&self.rows, &mut self.uses, Some(at), n);
        self.direct[at.0 as usize] -= n;
    }

    /// Gives the limit, which is below another, this maximum. A hard limit reserves from its parent what it gets more, and gives
    /// back what it gets less. `InUse` says that more is used at it, and `Full` names the first limit from its parent upward where
    /// what it would get more doesn't fit; then nothing changes.
    pub fn resize(&mut self, at: LimitId, max: u64) -> Result<(), ResizeRefusal>
        requires there { at.0 < length self.old.rows }
        requires below { IsTrue (is_some (row_of self.old.rows at.0).parent) }
        requires small { max < 2 ^ 40 }
        ensures resized { IfOk result (λ _. (self.new ≡ with_max_at at.0 max self.old) × (use_at self.old at.0 ≤ max) × (full_for_at self.old at.0 max ≡ None)) }
        ensures refused { IfErr result (λ why. (self.new ≡ self.old) × ExplainsResize self.old at.0 max why) }
    {
        if max < self.use_of(at) {
            return Err(ResizeRefusal::InUse);
        }
        if self.max_of(at) < max {
            return match self.grow(at, max) {
                Ok(()) => Ok(()),
                Err(full) => Err(ResizeRefusal::Full(full)),
            };
        }
        self.shrink(at, max);
        Ok(())
    }

    // Gives the limit a greater maximum; the error is the first limit from its parent upward where what it would get more doesn't fit.
    fn grow(&mut self, at: LimitId, max: u64) -> Result<(), LimitId>
        requires there { at.0 < length self.old.rows }
        requires below { IsTrue (is_some (row_of self.old.rows at.0).parent) }
        requires small { max < 2 ^ 40 }
        requires more { max_of self.old.rows at.0 < max }
        requires used { use_at self.old at.0 ≤ max }
        ensures grown { IfOk result (λ _. (self.new ≡ with_max_at at.0 max self.old) × (full_for_at self.old at.0 max ≡ None)) }
        ensures full { IfErr result (λ m. (self.new ≡ self.old) × (full_for_at self.old at.0 max ≡ Some m.0)) }
    {
        let row = self.rows[at.0 as usize];
        let parent = reserved_from(&row);
        if let Some(full) = first_full(&self.rows, &self.uses, parent, max - row.max) {
            return Err(full);
        }
        raise(&self.rows, &mut self.uses, parent, max - row.max);
        self.rows[at.0 as usize] = LimitRow {
            parent: row.parent,
            hard: row.hard,
            max,
        };
        Ok(())
    }

    // Gives the limit a maximum that isn't greater.
    fn shrink(&mut self, at: LimitId, max: u64)
        requires there { at.0 < length self.old.rows }
        requires below { IsTrue (is_some (row_of self.old.rows at.0).parent) }
        requires small { max < 2 ^ 40 }
        requires less { max ≤ max_of self.old.rows at.0 }
        requires used { use_at self.old at.0 ≤ max }
        ensures { self.new ≡ with_max_at at.0 max self.old }
    {
        let row = self.rows[at.0 as usize];
        let parent = reserved_from(&row);
        lower(&self.rows, &mut self.uses, parent, row.max - max);
        self.rows[at.0 as usize] = LimitRow {
            parent: row.parent,
            hard: row.hard,
            max,
        };
    }

    /// The bytes in use at the limit: what is charged at it, and for each child its maximum, where it is hard, or its use.
    pub fn use_of(&self, at: LimitId) -> u64
        requires { at.0 < length self.now.rows }
        ensures sum { result ≡ use_at self.now at.0 }
        ensures fits { result ≤ max_of self.now.rows at.0 }
    {
        self.uses[at.0 as usize]
    }

    /// The most bytes that may be in use at the limit.
    pub fn max_of(&self, at: LimitId) -> u64
        requires { at.0 < length self.now.rows }
        ensures value { result ≡ max_of self.now.rows at.0 }
        ensures small { result < 2 ^ 40 }
    {
        self.rows[at.0 as usize].max
    }

    /// The bytes charged at the limit itself.
    pub fn charged(&self, at: LimitId) -> u64
        requires { at.0 < length self.now.rows }
        ensures { result ≡ slice_index self.now.direct at.0 }
    {
        self.direct[at.0 as usize]
    }

    /// Whether `upper` is an ancestor of `lower`. No limit is its own ancestor.
    pub fn below(&self, lower: LimitId, upper: LimitId) -> bool
        requires { lower.0 < length self.now.rows }
        ensures above { result ≡ among upper.0 (ancestors_of self.now.rows lower.0) }
        ensures before { IsTrue result → upper.0 < lower.0 }
    {
        is_below(&self.rows, lower, upper)
    }
}
