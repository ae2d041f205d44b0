//! A kill among the processes of a host, which is lent two of them.
ghost use Rattle.std.specs.Prelude.{◌≡◌, ◌≢◌, ◌<◌, length};
ghost use Rattle.k_types.specs.declared.op.Op.TheVariants.{Kill};
ghost use Rattle.k_ends.specs.k_guests.declared.guest.Guest.{Guest as GuestValue};
ghost use Rattle.k_ends.specs.k_guests.Serving.{BookServes, GuestsServe, KernelServes, basis_of};
ghost use Rattle.k_host.specs.Killing.{AreTwoAt, HasKilledAmong, killed_among};

use k_book::Book;
use k_ends::{Guest, HostError, Terms, try_kill};
use k_kernel::KernelCell;
use k_types::{Event, Op, Pid};

/// The place of that process, where it is another one of the host's.
fn other_place(guests: &[Guest], pid: Pid, target: Pid) -> Option<usize>
    ensures { result ≡ killed_among (length guests.now) pid.0 (Kill target) }
{
    let at = target.0 as usize;
    if at < guests.len() && target.0 != pid.0 {
        Some(at)
    } else {
        None
    }
}

/// The place of the process that the operation kills, where it is another one of the host's. Constant time.
#[inline(always)]
pub(crate) fn killed(guests: &[Guest], pid: Pid, op: &Op) -> Option<usize>
    ensures { result ≡ killed_among (length guests.now) pid.0 op.now }
{
    match *op {
        Op::Kill { target } => other_place(guests, pid, target),
        Op::New { reg: _, ty: _ } => None,
        Op::KNew { reg: _, ty: _ } => None,
        Op::SNew {
            reg: _,
            shared: _,
            ty: _,
        } => None,
        Op::Store {
            base: _,
            field: _,
            value: _,
        } => None,
        Op::Load {
            reg: _,
            base: _,
            field: _,
        } => None,
        Op::Move { reg: _, from: _ } => None,
        Op::Clear { reg: _ } => None,
        Op::Dir { reg: _ } => None,
        Op::Put {
            base: _,
            field: _,
            number: _,
        } => None,
        Op::Get { base: _, field: _ } => None,
        Op::Collect => None,
        Op::KCollect => None,
        Op::Share { shared: _ } => None,
        Op::Freeze { shared: _, root: _ } => None,
        Op::Attach { reg: _, shared: _ } => None,
        Op::Exit => None,
        Op::Resize { limit: _, max: _ } => None,
    }
}

/// Does the kill of the process at the second place by that at the first.
pub(crate) fn kill_among(
    terms: &Terms,
    guests: &mut [Guest],
    at: usize,
    target: usize,
    kernel: &mut KernelCell,
    book: &mut Book,
    op: &Op,
) -> Result<Event, HostError>
    requires serve { GuestsServe (basis_of terms.now) book.old.journal.table guests.old }
    requires kernel { KernelServes (basis_of terms.now) book.old.journal.table kernel.old }
    requires book { BookServes (basis_of terms.now) book.old }
    requires own { at < length guests.old }
    requires other { target < length guests.old }
    requires two { target ≢ at }
    requires asks { op.now ≡ Kill (record { 0 = target }) }
    ensures { (g t : GuestValue) → AreTwoAt guests.old at target g t → HasKilledAmong (basis_of terms.now) op.now at target g t guests.old guests.new kernel.old kernel.new book.old book.new result }
{
    if at < target {
        let (front, back) = guests.split_at_mut(target);
        try_kill(terms, &mut front[at], &mut back[0], kernel, book, op)
    } else {
        let (front, back) = guests.split_at_mut(at);
        try_kill(terms, &mut back[0], &mut front[target], kernel, book, op)
    }
}
