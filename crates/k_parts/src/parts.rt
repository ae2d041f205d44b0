//! The parts of a host. Each can be given to another thread, and put behind a lock.
ghost use Rattle.std.specs.Prelude.{◌≡◌, ◌↔◌, IfOk, IsTrue};
ghost use Rattle.std.specs.Arc.{arc_value};
ghost use Rattle.k_parts.specs.Parts.{BookRests, GuestRests, KernelRests, SharedRests, book_seen, guest_seen, home_at, kernel_seen, shared_seen};

use crate::head::Head;
use crate::names::HostName;
use k_book::Book;
use k_ends::Guest;
use k_kernel::KernelCell;
use k_mark::Freed;
use k_shared::SharedCell;
use k_types::NoMemory;
use std::alloc::Global;
use std::marker::{Model, PhantomData};
use std::sync::Arc;

/// A process of a host.
#[derive(Drop)]
pub struct GuestPart<H: HostName> {
    pub(crate) head: Arc<Head, Global>,
    pub(crate) guest: Guest,
    of: PhantomData<H>,
    // One line of a processor's cache, which nobody reads: so the lock of the part that lies behind this one, which another thread writes
    // again and again, lies in no line with what the thread of this one reads.
    apart: [u64; 8],
}

impl<H: HostName> Model for GuestPart<H> {
    ghost use Rattle.std.specs.Arc.{arc_value};
    ghost use Rattle.k_parts.specs.Parts.{GuestPartValue, GuestRests, guest_seen, home_at};

    ghost Value = { GuestPartValue };

    ghost view = { λ p. guest_seen (arc_value p.head) p.guest };

    ghost invariant = { λ p. GuestRests H.home (home_at (arc_value p.head) p.guest.cell.note.table) p.guest };
}

/// The kernel's heap of a host.
#[derive(Drop)]
pub struct KernelPart<H: HostName> {
    pub(crate) head: Arc<Head, Global>,
    pub(crate) kernel: KernelCell,
    of: PhantomData<H>,
}

impl<H: HostName> Model for KernelPart<H> {
    ghost use Rattle.std.specs.Arc.{arc_value};
    ghost use Rattle.k_parts.specs.Parts.{KernelPartValue, KernelRests, home_at, kernel_seen};

    ghost Value = { KernelPartValue };

    ghost view = { λ p. kernel_seen (arc_value p.head) p.kernel };

    ghost invariant = { λ p. KernelRests H.home (home_at (arc_value p.head) p.kernel.note.table) p.kernel };
}

/// A shared heap of a host.
#[derive(Drop)]
pub struct SharedPart<H: HostName> {
    pub(crate) head: Arc<Head, Global>,
    pub(crate) heap: SharedCell,
    of: PhantomData<H>,
}

impl<H: HostName> Model for SharedPart<H> {
    ghost use Rattle.std.specs.Arc.{arc_value};
    ghost use Rattle.k_parts.specs.Parts.{SharedPartValue, SharedRests, home_at, shared_seen};

    ghost Value = { SharedPartValue };

    ghost view = { λ p. shared_seen (arc_value p.head) p.heap };

    ghost invariant = { λ p. SharedRests H.home (home_at (arc_value p.head) p.heap.note.table) p.heap };
}

/// The book of a host, which stands between the heaps and has the journal, with the names of the objects that the last collection freed. It
/// also counts the events that were taken out of the journal.
#[derive(Drop)]
pub struct BookPart<H: HostName> {
    pub(crate) head: Arc<Head, Global>,
    pub(crate) book: Book,
    pub(crate) freed: Freed,
    pub(crate) taken: u64,
    of: PhantomData<H>,
}

impl<H: HostName> Model for BookPart<H> {
    ghost use Rattle.std.specs.Arc.{arc_value};
    ghost use Rattle.k_parts.specs.Parts.{BookPartValue, BookRests, book_seen, home_at};

    ghost Value = { BookPartValue };

    ghost view = { λ p. book_seen (arc_value p.head) p.book p.freed p.taken };

    ghost invariant = { λ p. BookRests H.home (home_at (arc_value p.head) p.book.journal.table) p.book };
}

/// Whether two parts have one number.
pub(crate) fn are_one(a: &Arc<Head, Global>, b: &Arc<Head, Global>) -> bool
    ensures { IsTrue result ↔ ((arc_value a.now).number ≡ (arc_value b.now).number) }
{
    a.number == b.number
}

/// Whether three parts have one number.
pub(crate) fn are_three(a: &Arc<Head, Global>, b: &Arc<Head, Global>, c: &Arc<Head, Global>) -> bool
    ensures { IsTrue result ↔ (((arc_value a.now).number ≡ (arc_value b.now).number) × ((arc_value a.now).number ≡ (arc_value c.now).number)) }
{
    are_one(a, b) && are_one(a, c)
}

/// Whether four parts have one number.
pub(crate) fn are_four(
    a: &Arc<Head, Global>,
    b: &Arc<Head, Global>,
    c: &Arc<Head, Global>,
    d: &Arc<Head, Global>,
) -> bool
    ensures { IsTrue result ↔ (((arc_value a.now).number ≡ (arc_value b.now).number) × ((arc_value a.now).number ≡ (arc_value c.now).number) × ((arc_value a.now).number ≡ (arc_value d.now).number)) }
{
    are_one(a, b) && are_three(a, c, d)
}

impl<H: HostName> GuestPart<H> {
    /// Tells what the part keeps, whoever has had it: the process's cell agrees with the machine, has room, and is of the host.
    pub fn rests(&self)
        ensures { GuestRests H.home self.now.home self.now.guest }
    {
        let _guest = &self.guest;
    }

    /// The part of a process that rests.
    pub(crate) fn of(head: &Arc<Head, Global>, guest: Guest) -> Result<GuestPart<H>, NoMemory>
        requires { GuestRests H.home (home_at (arc_value head.now) guest.cell.note.table) guest }
        ensures { IfOk result (λ p. p ≡ guest_seen (arc_value head.now) guest) }
    {
        Ok(GuestPart {
            head: Arc::try_clone(head)?,
            guest,
            of: PhantomData,
            apart: [0; 8],
        })
    }
}

impl<H: HostName> KernelPart<H> {
    /// Tells what the part keeps, whoever has had it: the kernel's cell agrees with the machine, has room, and is of the host.
    pub fn rests(&self)
        ensures { KernelRests H.home self.now.home self.now.kernel }
    {
        let _kernel = &self.kernel;
    }

    /// The part of a kernel's heap that rests.
    pub(crate) fn of(
        head: &Arc<Head, Global>,
        kernel: KernelCell,
    ) -> Result<KernelPart<H>, NoMemory>
        requires { KernelRests H.home (home_at (arc_value head.now) kernel.note.table) kernel }
        ensures { IfOk result (λ p. p ≡ kernel_seen (arc_value head.now) kernel) }
    {
        Ok(KernelPart {
            head: Arc::try_clone(head)?,
            kernel,
            of: PhantomData,
        })
    }
}

impl<H: HostName> SharedPart<H> {
    /// Tells what the part keeps, whoever has had it: the shared heap's cell agrees with the machine, has room, and is of the host.
    pub fn rests(&self)
        ensures { SharedRests H.home self.now.home self.now.heap }
    {
        let _heap = &self.heap;
    }

    /// The part of a shared heap that rests.
    pub(crate) fn of(head: &Arc<Head, Global>, heap: SharedCell) -> Result<SharedPart<H>, NoMemory>
        requires { SharedRests H.home (home_at (arc_value head.now) heap.note.table) heap }
        ensures { IfOk result (λ p. p ≡ shared_seen (arc_value head.now) heap) }
    {
        Ok(SharedPart {
            head: Arc::try_clone(head)?,
            heap,
            of: PhantomData,
        })
    }
}

impl<H: HostName> BookPart<H> {
    /// Tells what the part keeps, whoever has had it: the journal is a legal history of the machine, the book shows it, and it is of the
    /// host.
    pub fn rests(&self)
        ensures { BookRests H.home self.now.home self.now.book }
    {
        let _book = &self.book;
    }

    /// The part of a book that rests, with this list for the names of what is freed, before an event was taken out.
    pub(crate) fn of(
        head: &Arc<Head, Global>,
        book: Book,
        freed: Freed,
    ) -> Result<BookPart<H>, NoMemory>
        requires { BookRests H.home (home_at (arc_value head.now) book.journal.table) book }
        ensures { IfOk result (λ p. p ≡ book_seen (arc_value head.now) book freed 0) }
    {
        Ok(BookPart {
            head: Arc::try_clone(head)?,
            book,
            freed,
            taken: 0,
            of: PhantomData,
        })
    }
}
