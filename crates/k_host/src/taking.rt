//! Events that are taken out of a journal, each once.
ghost use Rattle.std.specs.Prelude.{◌≡◌, ◌-◌, ◌<◌, ◌≤◌, ◌^◌, IfNone, IfSome, Some, length, slice_get};
ghost use Rattle.k_host.specs.Hosts.{next_from};

use crate::host::Host;
use k_book::Book;
use k_types::Event;

/// An event of the journal, and its number, counted from 0.
#[derive(Clone, Copy, Debug, PartialEq, Eq)]
pub struct Taken {
    pub number: u64,
    pub event: Event,
}

/// The first event from that number on that is still among the last so many; `None` where there is none. Constant time.
pub fn next_from(book: &Book, kept: u32, from: u64) -> Option<Taken>
    requires { kept ≤ book.now.kept }
    ensures there { IfSome result (λ t. slice_get book.now.journal.list t.number ≡ Some t.event) }
    ensures number { IfSome result (λ t. t.number ≡ next_from book.now kept from) }
    ensures below { IfSome result (λ t. t.number < 2 ^ 64 - 1) }
    ensures none { IfNone result (length book.now.journal.list ≤ next_from book.now kept from) }
{
    let count = book.len();
    let number = count.saturating_sub(u64::from(kept)).max(from);
    if number >= count {
        return None;
    }
    let event = *book.event(number);
    Some(Taken { number, event })
}

impl Host {
    /// The first event from that number on that is still among those that are kept; `None` where there is none. Constant time.
    pub fn next_from(&self, from: u64) -> Option<Taken>
        ensures there { IfSome result (λ t. slice_get self.now.book.journal.list t.number ≡ Some t.event) }
        ensures number { IfSome result (λ t. t.number ≡ next_from self.now.book self.now.basis.rooms.kept from) }
        ensures below { IfSome result (λ t. t.number < 2 ^ 64 - 1) }
        ensures none { IfNone result (length self.now.book.journal.list ≤ next_from self.now.book self.now.basis.rooms.kept from) }
    {
        next_from(&self.book, self.terms.rooms.kept, from)
    }
}
