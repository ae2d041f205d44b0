//! Questions, which change nothing.
ghost use Rattle.std.specs.Prelude.{◌≡◌, Some, None, nat_lt, if◌then◌else◌, length, option_map, slice_get};
ghost use Rattle.k_types.specs.Bounds.{register_count};
ghost use Rattle.k_types.specs.Limits.{max_of};
ghost use Rattle.k_chronicle.specs.k_keeper.Asked.{held_by};
ghost use Rattle.k_chronicle.specs.k_keeper.Books.{book_limits};
ghost use Rattle.k_chronicle.specs.k_keeper.Limits.{use_at};
ghost use Rattle.k_chronicle.specs.k_keeper.Sharers.{lowest_orphan};
ghost use Rattle.k_embed.specs.Codes.{of_found};
ghost use Rattle.k_embed.specs.Served.{lives_of, told_of};

use crate::codes::{number, of_held, of_listed, of_number, unknown};
use crate::events::{event_asked, event_came};
use crate::messages::{Answer, Request};
use k_chronicle::{Host, Keeper};
use k_types::{LimitId, Name, Pid, Reg};

/// What the register of the process holds.
#[tactic(auto, using(crate::proofs::Told::register_told))]
fn register(host: &Host, pid: Pid, reg: Reg) -> Option<Option<Name>>
    ensures { result ≡ (if nat_lt reg.0 register_count then option_map (held_by reg.0) (slice_get host.now.guests pid.0) else None) }
{
    host.register(pid, reg)
}

/// The use of the limit.
#[tactic(auto, using(crate::proofs::Told::limit_told))]
fn use_of(host: &Host, limit: LimitId) -> Option<u64>
    ensures { result ≡ (if nat_lt limit.0 (length host.now.book.rows) then Some (use_at (book_limits host.now.book) limit.0) else None) }
{
    host.use_of(limit)
}

/// The maximum of the limit.
#[tactic(auto, using(crate::proofs::Told::limit_told))]
fn max_of(host: &Host, limit: LimitId) -> Option<u64>
    ensures { result ≡ (if nat_lt limit.0 (length host.now.book.rows) then Some (max_of (book_limits host.now.book).rows limit.0) else None) }
{
    host.max_of(limit)
}

fn lives(host: &Host, pid: Pid) -> Answer
    ensures { result ≡ of_found (option_map lives_of (slice_get host.now.guests pid.0)) }
{
    match host.has_ended(pid) {
        Some(ended) => number(if ended { 0 } else { 1 }),
        None => unknown(),
    }
}

fn small(found: Option<u32>) -> Answer
    ensures { result ≡ of_found found }
{
    match found {
        Some(n) => number(u64::from(n)),
        None => unknown(),
    }
}

fn orphan(host: &Host) -> Answer
    ensures { result ≡ of_found (lowest_orphan host.now.book.value.phases host.now.book.value.shares) }
{
    match host.first_orphan() {
        Some(id) => number(u64::from(id.0)),
        None => unknown(),
    }
}

/// How many objects the last collection freed.
fn freed_count(keeper: &Keeper) -> u64
    ensures { result ≡ length keeper.now.freed }
{
    keeper.freed().len() as u64
}

/// The name of the object at that place of those that the last collection freed.
fn freed_name(keeper: &Keeper, at: u32) -> Option<Name>
    ensures { result ≡ slice_get keeper.now.freed at }
{
    keeper.freed().get(at as usize).copied()
}

/// The answer to a question; none where the request asks none.
#[inline(always)]
pub(crate) fn ask(keeper: &Keeper, request: &Request) -> Option<Answer>
    ensures { result ≡ told_of keeper.now request.now }
{
    let host = keeper.host();
    let pid = Pid(request.pid);
    let limit = LimitId(request.at);
    match request.call {
        32 => Some(lives(host, pid)),
        33 => Some(of_number(host.heap_bytes(pid))),
        34 => Some(of_number(host.charge(pid))),
        35 => Some(of_number(use_of(host, limit))),
        36 => Some(of_number(max_of(host, limit))),
        37 => Some(of_held(register(host, pid, Reg(request.reg)))),
        38 => Some(of_number(host.done(pid))),
        39 => Some(number(host.len())),
        40 => Some(small(host.bodies_left(pid))),
        41 => Some(number(host.kernel_bytes())),
        42 => Some(orphan(host)),
        43 => Some(number(keeper.left())),
        44 => Some(number(freed_count(keeper))),
        45 => Some(of_listed(freed_name(keeper, request.at))),
        46 => Some(event_asked(host, request.number)),
        47 => Some(event_came(host, request.number)),
        _ => None,
    }
}
