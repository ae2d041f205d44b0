//! What is used at the limits, and which of them is full.
ghost use Rattle.std.specs.Prelude.{◌≡◌, ℕ, ◌<◌, ◌≤◌, ◌+◌, ◌-◌, ◌^◌, length, min, nat_lt, option_map, if◌then◌else◌, IfSome};
ghost use Rattle.k_types.specs.Bounds.{maximum_below};
ghost use Rattle.k_state.specs.Sums.{AreSums};
ghost use Rattle.k_types.specs.Limits.{direct_by, full_for, full_limit, is_ancestor, limits_in, max_of, use_of};
ghost use Rattle.k_types.specs.Owners.{charge_of};
ghost use Rattle.k_types.specs.Trace.{row_of};
ghost use Rattle.k_types.specs.declared.names.LimitId.{LimitId};

use crate::accounts::add;
use crate::lists::PlainLists;
use k_types::{LimitId, LimitRow, MOST_LIMITS};

// Whether so many bytes more do not fit beside those used. What is used may be given as the greatest number of 64 bits
// where it is more.
fn is_full(max: u64, used: u64, size: u64) -> bool
    requires { max < maximum_below }
    ensures { (all : ℕ) → used ≡ min all (2 ^ 64 - 1) → result ≡ nat_lt max (all + size) }
{
    max < size || max - size < used
}

// What a limit adds to the use of its parent, where so much is used at it.
fn part_above(row: LimitRow, used: u64) -> u64
    ensures { result ≡ (if row.hard then row.max else used) }
{
    if row.hard { row.max } else { used }
}

impl PlainLists {
    /// How many limits the trace has.
    pub fn limit_count(&self) -> u32
        ensures count { result ≡ length self.now.setup.limits }
        ensures few { result ≤ 128 }
    {
        self.setup.limits.len() as u32
    }

    /// The limit with the maximum that it has now.
    pub fn row(&self, limit: LimitId) -> LimitRow
        requires { limit.0 < length self.now.setup.limits }
        ensures row { result ≡ row_of (limits_in self.now.setup self.now.state) limit.0 }
        ensures small { result.max < maximum_below }
    {
        let row = self.setup.limits[limit.0 as usize];
        LimitRow {
            parent: row.parent,
            hard: row.hard,
            max: self.maxima[limit.0 as usize],
        }
    }

    /// The maximum that the limit has now, in bytes.
    pub fn max_of(&self, limit: LimitId) -> u64
        requires { limit.0 < length self.now.setup.limits }
        ensures max { result ≡ max_of (limits_in self.now.setup self.now.state) limit.0 }
        ensures small { result < maximum_below }
    {
        self.row(limit).max
    }

    // What the processes on each limit are charged, or the greatest number of 64 bits where it is more.
    fn directs(&self) -> [u64; MOST_LIMITS]
        ensures { AreSums result (direct_by self.now.setup (charge_of self.now.setup self.now.state)) (length self.now.setup.limits) }
    {
        let charges = self.charges();
        let mut sums = [0; MOST_LIMITS];
        for p in 0..self.setup.procs.len() {
            add(&mut sums, self.setup.procs[p].0 as usize, charges[p]);
        }
        sums
    }

    // What is used at each limit, in bytes, or the greatest number of 64 bits where it is more. A limit's own use is whole once
    // all limits behind it are counted, since each parent stands before its children.
    fn uses(&self) -> [u64; MOST_LIMITS]
        ensures { AreSums result (use_of self.now.setup self.now.state) (length self.now.setup.limits) }
    {
        let _shape = self.setup();
        let mut sums = self.directs();
        let count = self.limit_count();
        for i in 0..count {
            let c = count - 1 - i;
            let row = self.row(LimitId(c));
            if let Some(parent) = row.parent {
                let part = part_above(row, sums[c as usize]);
                add(&mut sums, parent.0 as usize, part);
            }
        }
        sums
    }

    /// What is used at the limit, in bytes, or the greatest number of 64 bits where it is more. Summed afresh, once over the
    /// shares, the processes and the limits.
    pub fn use_of(&self, limit: LimitId) -> u64
        ensures { result ≡ min (use_of self.now.setup self.now.state limit.0) (2 ^ 64 - 1) }
    {
        let _shape = self.setup();
        if limit.0 >= self.limit_count() {
            return 0;
        }
        self.uses()[limit.0 as usize]
    }

    /// The first limit on the path upward from the given one where so many bytes more do not fit. Sums all uses afresh, once
    /// over the shares, the processes and the limits.
    pub fn full_limit(&self, limit: LimitId, size: u64) -> Option<LimitId>
        requires { limit.0 < length self.now.setup.limits }
        ensures full { option_map (λ (m : LimitId). m.0) result ≡ full_limit self.now.setup self.now.state limit.0 size }
        ensures known { IfSome result (λ m. m.0 < length self.now.setup.limits) }
    {
        let uses = self.uses();
        let mut at = limit;
        for _ in 0..self.setup.limits.len() {
            let row = self.row(at);
            if is_full(row.max, uses[at.0 as usize], size) {
                return Some(at);
            }
            if row.hard {
                return None;
            }
            match row.parent {
                Some(parent) => at = parent,
                None => return None,
            }
        }
        None
    }

    /// The first limit that is full where the limit is to have that maximum: what a hard limit gets more has to fit on the path
    /// upward from its parent. Costs as much as [`PlainLists::full_limit`].
    pub fn full_for(&self, limit: LimitId, max: u64) -> Option<LimitId>
        requires { limit.0 < length self.now.setup.limits }
        ensures full { option_map (λ (m : LimitId). m.0) result ≡ full_for self.now.setup self.now.state limit.0 max }
        ensures known { IfSome result (λ m. m.0 < length self.now.setup.limits) }
    {
        let _shape = self.setup();
        let row = self.row(limit);
        if !row.hard {
            return None;
        }
        if max <= row.max {
            return None;
        }
        match row.parent {
            Some(parent) => self.full_limit(parent, max - row.max),
            None => None,
        }
    }

    /// Whether the first limit is an ancestor of the second. No limit is its own.
    pub fn is_ancestor(&self, upper: LimitId, lower: LimitId) -> bool
        requires { lower.0 < length self.now.setup.limits }
        ensures { result ≡ is_ancestor self.now.setup.limits upper.0 lower.0 }
    {
        let mut at = lower;
        for _ in 0..self.setup.limits.len() {
            let row = self.row(at);
            match row.parent {
                Some(parent) => {
                    if parent.0 == upper.0 {
                        return true;
                    }
                    at = parent;
                }
                None => return false,
            }
        }
        false
    }
}
