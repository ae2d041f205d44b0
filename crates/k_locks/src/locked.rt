//! The values behind the locks.
ghost use Rattle.std.specs.Prelude.{IfNone, IfSome, None, ◌<◌, ◌≡◌};
ghost use Rattle.k_laws.specs.PartUpdates.{done_in};
ghost use Rattle.k_process.specs.Keeping.{BookKeeps, KernelKeeps, SharedKeeps};
ghost use Rattle.k_process.specs.BetweenSteps.{IsNextOf, ProcessStands};
ghost use Rattle.k_types.specs.Trace.{process_count};
ghost use Rattle.k_watch.specs.Shown.{IsShown};

use crate::worlds::WorldName;
use k_process::{Book, KernelCell, Process, SharedCell, next};
use k_types::{Op, Pid};
use k_watch::WatchPen;
use std::marker::{Model, PhantomData};

/// A process of the world `W`.
#[derive(Drop)]
pub struct LockedProcess<W: WorldName> {
    pub process: Process,
    of: PhantomData<W>,
    // One line of a processor's cache, which nobody reads: so the next process's lock, which its worker writes again and again, lies in no
    // line with what this one's worker reads.
    apart: [u64; 8],
}

impl<W: WorldName> Model for LockedProcess<W> {
    ghost use Rattle.k_process.specs.k_heap.Heaps.{HeapRecord};

    ghost Value = { HeapRecord };

    ghost use Rattle.k_process.specs.BetweenSteps.{ProcessStands};

    ghost view = { λ l. l.process.cell };

    ghost invariant = { λ l. ProcessStands W.world l.process };
}

impl<W: WorldName> LockedProcess<W> {
    /// The process.
    pub fn pid(&self) -> Pid
        ensures pid { result ≡ self.now.pid }
        ensures there { result.0 < process_count W.world.trace }
    {
        self.process.cell.pid()
    }

    /// How many of its operations are done.
    pub fn done(&self) -> u64
        ensures { result ≡ done_in self.now.value.process }
    {
        self.process.cell.done()
    }

    /// Its next operation; none where it has ended or done all.
    pub fn next(&self) -> Option<Op>
        ensures { IsNextOf W.world.trace self.now result }
    {
        next(&self.process)
    }

    /// How many of its operations are done, where it is the process and another comes next.
    pub fn done_before_next(&self, pid: Pid) -> Option<u64>
        ensures some { IfSome result (λ done. (done ≡ done_in self.now.value.process) × (self.now.pid ≡ pid)) }
        ensures none { IfNone result (self.now.pid ≡ pid → IsNextOf W.world.trace self.now None) }
    {
        if self.process.cell.pid() != pid {
            return None;
        }
        match next(&self.process) {
            Some(_) => Some(self.process.cell.done()),
            None => None,
        }
    }

    pub(crate) fn of(process: Process) -> LockedProcess<W>
        requires { ProcessStands W.world process }
        ensures { result ≡ process.cell }
    {
        LockedProcess {
            process,
            of: PhantomData,
            apart: [0; 8],
        }
    }

    pub(crate) fn into_process(self) -> Process
        ensures stands { ProcessStands W.world result }
        ensures cell { result.cell ≡ self }
    {
        let LockedProcess {
            process,
            of: _,
            apart: _,
        } = self;
        process
    }
}

/// The kernel's cell of the world `W`.
#[derive(Drop)]
pub struct LockedKernel<W: WorldName> {
    pub kernel: KernelCell,
    of: PhantomData<W>,
}

impl<W: WorldName> Model for LockedKernel<W> {
    ghost use Rattle.k_process.specs.k_cell.Holdings.{HoldingsValue};

    ghost Value = { HoldingsValue };

    ghost use Rattle.k_process.specs.Keeping.{KernelKeeps};

    ghost view = { λ l. l.kernel };

    ghost invariant = { λ l. KernelKeeps W.world.trace W.world.table l.kernel };
}

impl<W: WorldName> LockedKernel<W> {
    pub(crate) fn of(kernel: KernelCell) -> LockedKernel<W>
        requires { KernelKeeps W.world.trace W.world.table kernel }
        ensures { result ≡ kernel }
    {
        LockedKernel {
            kernel,
            of: PhantomData,
        }
    }

    pub(crate) fn into_kernel(self) -> KernelCell
        ensures stands { KernelKeeps W.world.trace W.world.table result }
        ensures cell { result ≡ self }
    {
        let LockedKernel { kernel, of: _ } = self;
        kernel
    }
}

/// The cell of a shared heap of the world `W`.
#[derive(Drop)]
pub struct LockedShared<W: WorldName> {
    pub shared: SharedCell,
    of: PhantomData<W>,
}

impl<W: WorldName> Model for LockedShared<W> {
    ghost use Rattle.k_process.specs.k_shared.SharedHeaps.{SharedRecord};

    ghost Value = { SharedRecord };

    ghost use Rattle.k_process.specs.Keeping.{SharedKeeps};

    ghost view = { λ l. l.shared };

    ghost invariant = { λ l. SharedKeeps W.world.trace W.world.table l.shared };
}

impl<W: WorldName> LockedShared<W> {
    pub(crate) fn of(shared: SharedCell) -> LockedShared<W>
        requires { SharedKeeps W.world.trace W.world.table shared }
        ensures { result ≡ shared }
    {
        LockedShared {
            shared,
            of: PhantomData,
        }
    }

    pub(crate) fn into_shared(self) -> SharedCell
        ensures stands { SharedKeeps W.world.trace W.world.table result }
        ensures cell { result ≡ self }
    {
        let LockedShared { shared, of: _ } = self;
        shared
    }
}

/// The book of the world `W`, whose journal has no closing yet, and the pen by which its numbers are published where the run is watched.
/// What was published last has all events of the journal.
#[derive(Drop)]
pub struct LockedBook<W: WorldName> {
    pub book: Book,
    pub pen: Option<WatchPen>,
    of: PhantomData<W>,
}

impl<W: WorldName> Model for LockedBook<W> {
    ghost use Rattle.k_process.specs.k_book.Books.{BookRecord};

    ghost Value = { BookRecord };

    ghost use Rattle.k_process.specs.Keeping.{BookKeeps};
    ghost use Rattle.k_watch.specs.Shown.{IsShown};

    ghost view = { λ l. l.book };

    ghost invariant = { λ l. BookKeeps W.world.trace W.world.table l.book × IsShown W.watched W.world.trace l.book.journal.list l.pen };
}

impl<W: WorldName> LockedBook<W> {
    pub(crate) fn of(book: Book, pen: Option<WatchPen>) -> LockedBook<W>
        requires stands { BookKeeps W.world.trace W.world.table book }
        requires shown { IsShown W.watched W.world.trace book.journal.list pen }
        ensures { result ≡ book }
    {
        LockedBook {
            book,
            pen,
            of: PhantomData,
        }
    }

    pub(crate) fn into_parts(self) -> (Book, Option<WatchPen>)
        ensures stands { BookKeeps W.world.trace W.world.table result.0 }
        ensures shown { IsShown W.watched W.world.trace result.0.journal.list result.1 }
        ensures book { result.0 ≡ self }
    {
        let LockedBook { book, pen, of: _ } = self;
        (book, pen)
    }
}
