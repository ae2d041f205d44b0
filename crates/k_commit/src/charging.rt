//! Bytes that are charged to a process.
ghost use Rattle.std.specs.Prelude.{IfErr, IfOk};
ghost use Rattle.k_commit.specs.Charging.{CanCharge, HasCharged, IsFullFor};
ghost use Rattle.k_types.specs.Trace.{Trace};

use k_book::Book;
use k_types::{LimitId, Pid};

/// Charges the process so many bytes at its limit. The error is the first limit, from the process's own upwards, at which they do
/// not fit; then nothing is charged. The cost is in proportion to the number of limits above the process's.
#[inline(always)]
pub fn charge_process(book: &mut Book, pid: Pid, bytes: u64) -> Result<(), LimitId>
    ghost trace: { Trace }
    requires { CanCharge trace book.old pid.0 }
    ensures charged { IfOk result (λ _. HasCharged trace book.old book.new pid.0 bytes) }
    ensures full { IfErr result (λ limit. IsFullFor trace book.old book.new pid.0 bytes limit) }
{
    let limit = book.limit_of(pid);
    book.charge(limit, bytes)
}
