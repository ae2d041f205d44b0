//! What a part tells, and the events that are taken out of the book's. No question changes anything.
ghost use Rattle.std.specs.Prelude.{◌≡◌, ◌<◌, ◌≤◌, option_map, length, IfNone, IfSome, None, OnSome};
ghost use Rattle.k_types.specs.Limits.{max_of};
ghost use Rattle.k_types.specs.Owners.{object_bytes};
ghost use Rattle.k_types.specs.Totals.{total};
ghost use Rattle.k_limits.specs.Limits.{use_at};
ghost use Rattle.k_book.specs.Books.{book_limits};
ghost use Rattle.k_shares.specs.Sharers.{heap_number, lowest_orphan};
ghost use Rattle.k_host.specs.Asked.{done_by, has_ended_of, heap_bytes_of, held_by};
ghost use Rattle.k_parts.specs.Calls.{IsTakenOut};
ghost use Rattle.k_parts.specs.Parts.{CanMeet};
ghost use Rattle.k_parts.specs.Told.{charge_in, event_in};

use crate::errors::PartError;
use crate::names::HostName;
use crate::parts::{BookPart, GuestPart, KernelPart, SharedPart, are_one};
use k_host::{Taken, charge_by, next_from};
use k_types::{Event, LimitId, Name, REGISTERS, Reg, SharedId};

impl<H: HostName> GuestPart<H> {
    /// The bytes of the process's heap. Constant time.
    pub fn heap_bytes(&self) -> u64
        ensures { result ≡ heap_bytes_of self.now.guest }
    {
        self.guest.cell.bytes()
    }

    /// Whether the process has ended. Constant time.
    pub fn has_ended(&self) -> bool
        ensures { result ≡ has_ended_of self.now.guest }
    {
        !self.guest.cell.lives()
    }

    /// What the register holds; `None` where there is no such one. Constant time.
    pub fn register(&self, r: Reg) -> Option<Option<Name>>
        ensures held { r.0 < 16 → result ≡ Some (held_by r.0 self.now.guest) }
        ensures none { 16 ≤ r.0 → result ≡ None }
    {
        if r.0 >= REGISTERS {
            return None;
        }
        match self.guest.cell.reg(r) {
            Some(link) => Some(Some(link.name())),
            None => Some(None),
        }
    }

    /// How many operations of the process are done. Constant time.
    pub fn done(&self) -> u64
        ensures { result ≡ done_by self.now.guest }
    {
        self.guest.cell.done()
    }

    /// How many bodies of the process's supply are left. Constant time.
    pub fn bodies_left(&self) -> u32
        ensures { result ≡ self.now.guest.bodies }
    {
        self.guest.bodies
    }

    /// What the process is charged: the bytes of its heap and of each heap that it shares, and nothing once it has ended. It looks at each
    /// shared heap.
    ///
    /// # Errors
    ///
    /// `Mixed` exactly where the parts are not of one host.
    pub fn charge(&self, book: &BookPart<H>) -> Result<u64, PartError>
        requires { CanMeet H.home self.now.home book.now.home }
        ensures { result ≡ charge_in self.now book.now }
    {
        if !are_one(&self.head, &book.head) {
            return Err(PartError::Mixed);
        }
        Ok(charge_by(&self.head.terms, &self.guest, &book.book))
    }
}

impl<H: HostName> KernelPart<H> {
    /// The bytes of the kernel's heap. Constant time.
    pub fn heap_bytes(&self) -> u64
        ensures { result ≡ total object_bytes self.now.kernel.value.objects }
    {
        self.kernel.bytes()
    }
}

impl<H: HostName> SharedPart<H> {
    /// The bytes of the shared heap. Constant time.
    pub fn heap_bytes(&self) -> u64
        ensures { result ≡ total object_bytes self.now.heap.value.objects }
    {
        self.heap.bytes()
    }
}

impl<H: HostName> BookPart<H> {
    /// The bytes in use at the limit; `None` where there is no such limit. Constant time.
    pub fn use_of(&self, limit: LimitId) -> Option<u64>
        ensures there { OnSome result (limit.0 < length self.now.book.rows) }
        ensures none { IfNone result (length self.now.book.rows ≤ limit.0) }
        ensures sum { IfSome result (λ n. n ≡ use_at (book_limits self.now.book) limit.0) }
    {
        if limit.0 as usize >= self.head.terms.setup.limits.len() {
            return None;
        }
        Some(self.book.use_of(limit))
    }

    /// The most bytes that may be in use at the limit; `None` where there is no such limit. Constant time.
    pub fn max_of(&self, limit: LimitId) -> Option<u64>
        ensures there { OnSome result (limit.0 < length self.now.book.rows) }
        ensures none { IfNone result (length self.now.book.rows ≤ limit.0) }
        ensures max { IfSome result (λ n. n ≡ max_of (book_limits self.now.book).rows limit.0) }
    {
        if limit.0 as usize >= self.head.terms.setup.limits.len() {
            return None;
        }
        Some(self.book.max_of(limit))
    }

    /// The event of that number in the journal, from 0; `None` past the last, and where it is no more among those that are kept. Constant
    /// time.
    pub fn event(&self, number: u64) -> Option<Event>
        ensures { result ≡ event_in self.now number }
    {
        let count = self.book.len();
        if number >= count || count - number > u64::from(self.head.terms.rooms.kept) {
            return None;
        }
        Some(*self.book.event(number))
    }

    /// Takes the next event out of the journal: the first that was not taken out yet and is still among those that are kept; `None` where
    /// there is none. So each event is taken out at most once, and in order, and its number tells how many were missed before it. Constant
    /// time.
    pub fn take(&mut self) -> Option<Taken>
        ensures { IsTakenOut self.old self.new result }
    {
        let taken = next_from(&self.book, self.head.terms.rooms.kept, self.taken)?;
        self.taken = taken.number + 1;
        Some(taken)
    }

    /// The shared heap of the lowest number that was made, isn't absorbed and has no sharer. The cost is in proportion to the shares.
    pub fn first_orphan(&self) -> Option<SharedId>
        ensures { option_map heap_number result ≡ lowest_orphan self.now.book.value.phases self.now.book.value.shares }
    {
        self.book.first_orphan()
    }
}
