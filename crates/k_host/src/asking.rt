//! What a host tells of uses, charges and registers.
ghost use Rattle.std.specs.Prelude.{◌≡◌, ◌<◌, ◌≤◌, ◌^◌, if◌then◌else◌, length, option_map, slice_get, slice_index_or, IfErr, IfNone, IfSome, None, OnErr, OnOk, OnSome};
ghost use Rattle.k_types.specs.Limits.{max_of};
ghost use Rattle.k_types.specs.Owners.{object_bytes};
ghost use Rattle.k_types.specs.State.{has_share};
ghost use Rattle.k_types.specs.Totals.{total};
ghost use Rattle.k_agree.specs.GivingOnTheBook.{charged};
ghost use Rattle.k_limits.specs.Limits.{use_at};
ghost use Rattle.k_book.specs.Books.{book_limits};
ghost use Rattle.k_ends.specs.k_guests.Serving.{BookServes, GuestServes, basis_of};
ghost use Rattle.k_host.specs.Asked.{charge_by, charge_told, done_by, heap_bytes_of, held_by, has_ended_of};
ghost use Rattle.k_host.specs.Calls.{HasMetIn, HasMetTheJournal};

use crate::host::Host;
use crate::places::place_of;
use k_book::Book;
use k_ends::{Guest, HostError, Terms};
use k_heap::HeapCell;
use k_types::{LimitId, Name, Pid, REGISTERS, Reg, SharedId};

impl Host {
    /// The bytes of the process's own heap; `None` where there is no such process. Constant time.
    pub fn heap_bytes(&self, pid: Pid) -> Option<u64>
        ensures { result ≡ option_map heap_bytes_of (slice_get self.now.guests pid.0) }
    {
        let guest = self.guests.get(pid.0 as usize)?;
        Some(guest.cell.bytes())
    }

    /// Whether the process has ended; `None` where there is no such process. Constant time.
    pub fn has_ended(&self, pid: Pid) -> Option<bool>
        ensures { result ≡ option_map has_ended_of (slice_get self.now.guests pid.0) }
    {
        let guest = self.guests.get(pid.0 as usize)?;
        Some(!guest.cell.lives())
    }

    /// What the process's register holds; `None` where there is no such process or register. Constant time.
    pub fn register(&self, pid: Pid, r: Reg) -> Option<Option<Name>>
        ensures held { r.0 < 16 → result ≡ option_map (held_by r.0) (slice_get self.now.guests pid.0) }
        ensures none { 16 ≤ r.0 → result ≡ None }
    {
        let guest = self.guests.get(pid.0 as usize)?;
        if r.0 >= REGISTERS {
            return None;
        }
        match guest.cell.reg(r) {
            Some(link) => Some(Some(link.name())),
            None => Some(None),
        }
    }

    /// How many operations of the process are done; `None` where there is no such process. Constant time.
    pub fn done(&self, pid: Pid) -> Option<u64>
        ensures { result ≡ option_map done_by (slice_get self.now.guests pid.0) }
    {
        let guest = self.guests.get(pid.0 as usize)?;
        Some(guest.cell.done())
    }

    /// How many allocations the process can do yet; `None` where there is no such process. Constant time.
    pub fn bodies_left(&self, pid: Pid) -> Option<u32>
        ensures { result ≡ option_map (λ g. g.bodies) (slice_get self.now.guests pid.0) }
    {
        let guest = self.guests.get(pid.0 as usize)?;
        Some(guest.bodies)
    }

    /// The bytes of the kernel's heap. Constant time.
    pub fn kernel_bytes(&self) -> u64
        ensures { result ≡ total object_bytes self.now.kernel.value.objects }
    {
        self.kernel.bytes()
    }

    /// The bytes in use at the limit; `None` where there is no such limit. Constant time.
    pub fn use_of(&self, limit: LimitId) -> Option<u64>
        ensures there { OnSome result (limit.0 < length self.now.book.rows) }
        ensures none { IfNone result (length self.now.book.rows ≤ limit.0) }
        ensures sum { IfSome result (λ n. n ≡ use_at (book_limits self.now.book) limit.0) }
    {
        if limit.0 as usize >= self.terms.setup.limits.len() {
            return None;
        }
        Some(self.book.use_of(limit))
    }

    /// The most bytes that may be in use at the limit; `None` where there is no such limit. Constant time.
    pub fn max_of(&self, limit: LimitId) -> Option<u64>
        ensures there { OnSome result (limit.0 < length self.now.book.rows) }
        ensures none { IfNone result (length self.now.book.rows ≤ limit.0) }
        ensures max { IfSome result (λ n. n ≡ max_of (book_limits self.now.book).rows limit.0) }
    {
        if limit.0 as usize >= self.terms.setup.limits.len() {
            return None;
        }
        Some(self.book.max_of(limit))
    }

    /// Lets the process's cell meet the journal, which tells that no event has touched the cell unseen. So what `charge` tells of the
    /// process is what the machine charges it ([`charges_are_the_machines`](crate::charges_are_the_machines)). Constant time; nothing changes
    /// but what the cell's note is known to know.
    ///
    /// # Errors
    ///
    /// `Unknown` exactly where there is no such process, and then nothing has changed.
    pub fn meet(&mut self, pid: Pid) -> Result<(), HostError>
        ensures met { OnOk result (HasMetIn self.old self.new pid) }
        ensures same { OnErr result (self.new ≡ self.old) }
        ensures why { IfErr result (λ why. (why ≡ HostError.Unknown) × (slice_get self.old.guests pid.0 ≡ None)) }
    {
        let at = place_of(&self.guests, pid)?;
        meet_guest(&mut self.guests[at], &mut self.book);
        Ok(())
    }

    /// What the process is charged: the bytes of its heap and of each heap that it shares, and nothing once it has ended. `None` where there
    /// is no such process. It looks at each shared heap.
    pub fn charge(&self, pid: Pid) -> Option<u64>
        ensures { result ≡ option_map (charge_told self.now) (slice_get self.now.guests pid.0) }
    {
        let guest = self.guests.get(pid.0 as usize)?;
        Some(charge_by(&self.terms, guest, &self.book))
    }
}

/// The process's cell meets the journal.
fn meet_guest(guest: &mut Guest, book: &mut Book)
    requires { guest.old.cell.note.table ≡ book.old.journal.table }
    ensures met { HasMetTheJournal book.old guest.old guest.new }
    ensures same { book.new ≡ book.old }
{
    book.meet(guest.cell.note_mut());
}

/// What a process is charged, by its cell and the book: the bytes of its heap and of each heap that it shares, and nothing once it has
/// ended. It looks at each shared heap.
pub fn charge_by(terms: &Terms, guest: &Guest, book: &Book) -> u64
    requires guest { GuestServes (basis_of terms.now) book.now.journal.table guest.now }
    requires book { BookServes (basis_of terms.now) book.now }
    ensures { result ≡ charge_by (basis_of terms.now).trace book.now.value guest.now }
{
    if !guest.cell.lives() {
        return 0;
    }
    charged(terms, &guest.cell, book)
}

/// What a living process is charged, by its cell and the book.
fn charged(terms: &Terms, cell: &HeapCell, book: &Book) -> u64
    requires heaps { (basis_of terms.now).trace.shared_heaps ≡ length book.now.value.phases }
    requires process { cell.now.pid.0 < length book.now.procs }
    requires small { charged (basis_of terms.now).trace book.now.value cell.now.value cell.now.pid.0 < 2 ^ 64 }
    ensures { result ≡ charged (basis_of terms.now).trace book.now.value cell.now.value cell.now.pid.0 }
{
    let pid = cell.pid();
    let mut bytes = cell.bytes();
    for id in 0..book.shared_heaps() {
        bytes += charged_for(book, pid, SharedId(id));
    }
    bytes
}

/// What the process is charged for the shared heap: all its bytes where it shares it.
fn charged_for(book: &Book, pid: Pid, shared: SharedId) -> u64
    requires process { pid.0 < length book.now.procs }
    requires heap { shared.0 < length book.now.value.phases }
    ensures { result ≡ (if has_share book.now.value.shares pid.0 shared.0 then slice_index_or book.now.value.shared_bytes shared.0 0 else 0) }
{
    if !book.shares(pid, shared) {
        return 0;
    }
    book.bytes_of(shared)
}
