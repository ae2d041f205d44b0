//! Walks up the path of a limit: the limit, and above each soft one its parent.
ghost use Rattle.std.specs.Prelude.{◌≡◌, ℕ, ◌+◌, ◌*◌, ◌^◌, ◌<◌, ◌≤◌, length, nat_lt, find, option_map, slice_index, Option, IsTrue};
ghost use Rattle.k_types.specs.Names.{among};
ghost use Rattle.k_types.specs.TraceRules.{IsTree};
ghost use Rattle.k_types.specs.Limits.{max_of, ancestors_of};
ghost use Rattle.k_limits.specs.Paths.{InRows, is_over, passed_to, path_from, reserved_from, times_on};

use k_types::{LimitId, LimitRow};

/// The limit to which the charges at a row are applied too.
fn passed_to(row: &LimitRow) -> Option<LimitId>
    ensures { result ≡ passed_to row.now }
{
    if row.hard { None } else { row.parent }
}

/// The limit whose path has to have room for the row's reservation.
pub(crate) fn reserved_from(row: &LimitRow) -> Option<LimitId>
    ensures { result ≡ reserved_from row.now }
{
    if row.hard { row.parent } else { None }
}

/// The first limit on the path from `from` where `n` more bytes, however many, don't fit.
pub(crate) fn first_full(
    rows: &[LimitRow],
    uses: &[u64],
    from: Option<LimitId>,
    n: u64,
) -> Option<LimitId>
    requires tree { IsTree rows.now }
    requires there { InRows rows.now from }
    requires all { length uses.now ≡ length rows.now }
    requires fit { (m : ℕ) → m < length rows.now → slice_index uses.now m ≤ max_of rows.now m }
    ensures { option_map (λ m. m.0) result ≡ find (is_over rows.now uses.now n) (path_from rows.now from) }
{
    let mut next = from;
    while let Some(limit) = next {
        let row = &rows[limit.0 as usize];
        if row.max - uses[limit.0 as usize] < n {
            return Some(limit);
        }
        next = passed_to(row);
    }
    None
}

/// Adds `n` to the use of each limit on the path from `from`.
pub(crate) fn raise(rows: &[LimitRow], uses: &mut [u64], from: Option<LimitId>, n: u64)
    requires tree { IsTree rows.now }
    requires there { InRows rows.now from }
    requires all { length uses.old ≡ length rows.now }
    requires small { (m : ℕ) → m < length rows.now → slice_index uses.old m + n * times_on (path_from rows.now from) m < 2 ^ 64 }
    ensures { (m : ℕ) → m < length rows.now → slice_index uses.new m ≡ slice_index uses.old m + n * times_on (path_from rows.now from) m }
{
    let mut next = from;
    while let Some(limit) = next {
        uses[limit.0 as usize] += n;
        next = passed_to(&rows[limit.0 as usize]);
    }
}

/// Takes `n` from the use of each limit on the path from `from`.
pub(crate) fn lower(rows: &[LimitRow], uses: &mut [u64], from: Option<LimitId>, n: u64)
    requires tree { IsTree rows.now }
    requires there { InRows rows.now from }
    requires all { length uses.old ≡ length rows.now }
    requires enough { (m : ℕ) → m < length rows.now → n * times_on (path_from rows.now from) m ≤ slice_index uses.old m }
    ensures { (m : ℕ) → m < length rows.now → slice_index uses.new m + n * times_on (path_from rows.now from) m ≡ slice_index uses.old m }
{
    let mut next = from;
    while let Some(limit) = next {
        uses[limit.0 as usize] -= n;
        next = passed_to(&rows[limit.0 as usize]);
    }
}

/// Whether `upper` is an ancestor of `lower`.
pub(crate) fn is_below(rows: &[LimitRow], lower: LimitId, upper: LimitId) -> bool
    requires tree { IsTree rows.now }
    requires there { lower.0 < length rows.now }
    ensures { result ≡ among upper.0 (ancestors_of rows.now lower.0) }
{
    let mut next = rows[lower.0 as usize].parent;
    while let Some(limit) = next {
        if limit == upper {
            return true;
        }
        next = rows[limit.0 as usize].parent;
    }
    false
}
