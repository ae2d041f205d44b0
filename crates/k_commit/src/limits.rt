//! Limits that stand below a process's, and another maximum of one.
ghost use Rattle.std.specs.Prelude.{◌≡◌, ◌<◌};
ghost use Rattle.k_types.specs.Limits.{is_above};
ghost use Rattle.k_types.specs.Replies.{may_resize};
ghost use Rattle.k_types.specs.Trace.{Trace, process_count};
ghost use Rattle.k_types.specs.TraceRules.{AreLimits};
ghost use Rattle.k_book.specs.Machine.{IsBookOf};
ghost use Rattle.k_commit.specs.Resizing.{CanCompare, CanResize, HasResized, refused_by};

use k_book::Book;
use k_limits::ResizeRefusal;
use k_types::{Fault, LimitId, Pid, Reply};

/// Whether the limit is below that of the process. The cost is in proportion to the number of limits above it.
pub fn is_below(book: &Book, pid: Pid, limit: LimitId) -> bool
    ghost trace: { Trace }
    requires { CanCompare trace book.now pid.0 limit.0 }
    ensures { result ≡ may_resize trace pid.0 limit.0 }
{
    book.below(limit, book.limit_of(pid))
}

/// Whether the limit of the other process is below that of the first, so that the first may end it. The cost is in proportion to the
/// number of limits above the other's.
pub fn is_above(book: &Book, pid: Pid, other: Pid) -> bool
    ghost trace: { Trace }
    requires book { IsBookOf trace book.now }
    requires limits { AreLimits trace }
    requires known { pid.0 < process_count trace }
    requires other { other.0 < process_count trace }
    ensures { result ≡ is_above trace pid.0 other.0 }
{
    is_below(book, pid, book.limit_of(other))
}

/// What the operation `resize` is answered where the tree keeps the maximum.
fn refused_by(limit: LimitId, why: ResizeRefusal) -> Reply
    ensures { result ≡ refused_by limit why }
{
    match why {
        ResizeRefusal::InUse => Reply::Refused(Fault::InUse(limit)),
        ResizeRefusal::Full(full) => Reply::Refused(Fault::LimitFull(full)),
    }
}

/// Gives the limit another maximum where the process may, no more is used at it, and its parent has what it gets more; and answers
/// what the operation `resize` is answered. The cost is in proportion to the number of limits above it.
pub fn resize_limit(book: &mut Book, pid: Pid, limit: LimitId, max: u64) -> Reply
    ghost trace: { Trace }
    requires { CanResize trace book.old pid.0 limit.0 max }
    ensures { HasResized trace book.old book.new pid limit max result }
{
    if !is_below(book, pid, limit) {
        return Reply::Refused(Fault::LimitNotBelow(limit));
    }
    match book.resize(limit, max) {
        Ok(()) => Reply::Done,
        Err(why) => refused_by(limit, why),
    }
}
