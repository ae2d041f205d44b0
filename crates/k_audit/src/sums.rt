//! The points of a snapshot that speak of bytes: that each use fits, and that what is claimed is so.
ghost use Rattle.std.specs.Prelude.{◌≡◌, ◌<◌, ◌==◌, ◌↔◌, IsTrue, length};
ghost use Rattle.std.specs.List.{list_all};
ghost use Rattle.k_types.specs.Limits.{use_of};
ghost use Rattle.k_types.specs.Names.{heap_eq};
ghost use Rattle.k_types.specs.Numbers.{numbers_below};
ghost use Rattle.k_types.specs.Owners.{charge_of, owner_of};
ghost use Rattle.k_types.specs.Trace.{process_count};
ghost use Rattle.k_audit.specs.Claims.{claims_of};
ghost use Rattle.k_audit.specs.Grammar.{AreSpelledClaims};
ghost use Rattle.k_audit.specs.Sums.{UsesFit};
ghost use Rattle.k_audit.specs.Agreeing.{agree, claims_agree, kernel_agrees, owners_agree, shared_bytes};
ghost use Rattle.k_audit.specs.Tests.{use_fits};

use crate::claims::Claimed;
use k_state::{PlainLists, is_same_heap};
use k_types::{Heap, LimitId, Pid, Seg, SharedId};

/// Whether the use of the limit is at most its maximum.
fn use_fits(lists: &PlainLists, limit: LimitId) -> bool
    requires { limit.0 < length lists.now.setup.limits }
    ensures { result ≡ use_fits lists.now.setup lists.now.state limit.0 }
{
    lists.use_of(limit) <= lists.max_of(limit)
}

/// Whether that holds of all limits.
#[tactic(auto, using(k_state::proofs::Sums::all_next, k_state::proofs::Sums::all_over))]
fn all_uses_fit(lists: &PlainLists) -> bool
    ensures { result ≡ list_all (use_fits lists.now.setup lists.now.state) (numbers_below (length lists.now.setup.limits)) }
{
    for m in 0..lists.limit_count() {
        if !use_fits(lists, LimitId(m)) {
            return false;
        }
    }
    true
}

/// The seventh point: each use is at most the maximum. Sums each use afresh from the totals of the segments.
pub fn uses_fit(lists: &PlainLists) -> bool
    ensures { IsTrue result ↔ UsesFit lists.now.setup lists.now.state }
{
    all_uses_fit(lists)
}

/// Whether each of the claimed owners is that heap.
fn are_all(owners: &[Heap], owner: Heap) -> bool
    ensures { result ≡ list_all (λ h. heap_eq h owner) owners.now }
{
    for claimed in owners {
        if !is_same_heap(*claimed, owner) {
            return false;
        }
    }
    true
}

/// Whether the claimed owners are those of the objects' segments, segment by segment.
fn owners_agree(lists: &PlainLists, owners: &[Heap]) -> bool
    requires { length owners.now ≡ length lists.now.state.objects }
    ensures { result ≡ owners_agree (owner_of lists.now.setup lists.now.state) owners.now lists.now.state.objects }
{
    let _shape = lists.setup();
    let mut rest = owners;
    for s in 0..lists.segment_count() {
        let seg = Seg(s);
        let (own, later) = rest.split_at(lists.objects_in(seg).len());
        if !are_all(own, lists.owner(seg)) {
            return false;
        }
        rest = later;
    }
    true
}

/// Whether the limit's use is the claimed one.
fn use_is(lists: &PlainLists, limit: LimitId, claimed: u64) -> bool
    requires limit { limit.0 < length lists.now.setup.limits }
    requires fit { UsesFit lists.now.setup lists.now.state }
    ensures { result ≡ (claimed == use_of lists.now.setup lists.now.state limit.0) }
{
    let _max = lists.max_of(limit);
    claimed == lists.use_of(limit)
}

/// Whether the claimed uses are those of the limits.
#[tactic(auto, using(k_state::proofs::Sums::all_next, k_state::proofs::Sums::all_over))]
fn uses_agree(lists: &PlainLists, uses: &[u64]) -> bool
    requires all { length uses.now ≡ length lists.now.setup.limits }
    requires fit { UsesFit lists.now.setup lists.now.state }
    ensures { result ≡ agree (use_of lists.now.setup lists.now.state) uses.now (length lists.now.setup.limits) }
{
    let _count = lists.limit_count();
    for m in 0..uses.len() {
        if !use_is(lists, LimitId(m as u32), uses[m]) {
            return false;
        }
    }
    true
}

/// Whether the process's charge is the claimed one.
fn charge_is(lists: &PlainLists, pid: Pid, claimed: u64) -> bool
    requires process { pid.0 < process_count lists.now.setup }
    requires fit { UsesFit lists.now.setup lists.now.state }
    ensures { result ≡ (claimed == charge_of lists.now.setup lists.now.state pid.0) }
{
    let _shape = lists.setup();
    let _max = lists.max_of(lists.limit_of(pid));
    claimed == lists.charge(pid)
}

/// Whether the claimed charges are those of the processes.
#[tactic(auto, using(k_state::proofs::Sums::all_next, k_state::proofs::Sums::all_over))]
fn charges_agree(lists: &PlainLists, charges: &[u64]) -> bool
    requires all { length charges.now ≡ process_count lists.now.setup }
    requires fit { UsesFit lists.now.setup lists.now.state }
    ensures { result ≡ agree (charge_of lists.now.setup lists.now.state) charges.now (process_count lists.now.setup) }
{
    let _shape = lists.setup();
    for p in 0..charges.len() {
        if !charge_is(lists, Pid(p as u32), charges[p]) {
            return false;
        }
    }
    true
}

/// Whether the claimed bytes are those of the shared heaps.
#[tactic(auto, using(k_state::proofs::Sums::all_next, k_state::proofs::Sums::all_over))]
fn heaps_agree(lists: &PlainLists, bytes: &[u64]) -> bool
    requires { length bytes.now ≡ lists.now.setup.shared_heaps }
    ensures { result ≡ agree (shared_bytes lists.now.setup lists.now.state) bytes.now lists.now.setup.shared_heaps }
{
    let _shape = lists.setup();
    for s in 0..bytes.len() {
        if bytes[s] != lists.bytes(Heap::Shared(SharedId(s as u32))) {
            return false;
        }
    }
    true
}

/// Whether the kernel's bytes and its ceiling are the claimed ones.
fn kernel_agrees(lists: &PlainLists, claims: &Claimed) -> bool
    ensures { result ≡ kernel_agrees lists.now.setup lists.now.state claims.now }
{
    claims.kernel == lists.bytes(Heap::Kernel) && claims.ceiling == lists.ceiling()
}

/// Whether all that is claimed is so.
fn claims_agree(lists: &PlainLists, claims: &Claimed) -> bool
    requires claims { AreSpelledClaims lists.now.setup lists.now.state.objects claims.now }
    requires fit { UsesFit lists.now.setup lists.now.state }
    ensures { result ≡ claims_agree lists.now.setup lists.now.state claims.now }
{
    kernel_agrees(lists, claims)
        && owners_agree(lists, &claims.owners)
        && uses_agree(lists, &claims.uses)
        && charges_agree(lists, &claims.charges)
        && heaps_agree(lists, &claims.shared_bytes)
}

/// The eighth point: what is claimed is so. Where each use fits, each sum is a number of 64 bits.
pub fn claims_are(lists: &PlainLists, claims: &Claimed) -> bool
    requires claims { AreSpelledClaims lists.now.setup lists.now.state.objects claims.now }
    requires fit { UsesFit lists.now.setup lists.now.state }
    ensures { IsTrue result ↔ (claims.now ≡ claims_of lists.now.setup lists.now.state) }
{
    claims_agree(lists, claims)
}
