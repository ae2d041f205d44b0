//! The end of a process by another's operation, and the absorption of a shared heap that nobody shares.
ghost use Rattle.k_parts.specs.Calls.{IsAbsorbed, IsKilled};
ghost use Rattle.k_parts.specs.Parts.{CanMeet};

use crate::errors::{PartError, hosted};
use crate::names::HostName;
use crate::parts::{BookPart, GuestPart, KernelPart, SharedPart, are_four, are_three};
use k_ends::{try_absorb, try_kill};
use k_types::{Event, Op};

impl<H: HostName> GuestPart<H> {
    /// Does the process's `kill` of the target. Where that ends the target, what both did inside their heaps is published first, the own
    /// before the target's.
    ///
    /// # Errors
    ///
    /// Each changes nothing: those of `Host::operate` for a `kill`, and `Mixed`.
    pub fn kill(
        &mut self,
        target: &mut GuestPart<H>,
        kernel: &mut KernelPart<H>,
        book: &mut BookPart<H>,
    ) -> Result<Event, PartError>
        requires target { CanMeet H.home self.old.home target.old.home }
        requires kernel { CanMeet H.home self.old.home kernel.old.home }
        requires book { CanMeet H.home self.old.home book.old.home }
        ensures { IsKilled self.old self.new target.old target.new kernel.old kernel.new book.old book.new result }
    {
        if !are_four(&self.head, &target.head, &kernel.head, &book.head) {
            return Err(PartError::Mixed);
        }
        let op = Op::Kill {
            target: target.guest.cell.pid(),
        };
        hosted(try_kill(
            &self.head.terms,
            &mut self.guest,
            &mut target.guest,
            &mut kernel.kernel,
            &mut book.book,
            &op,
        ))
    }
}

impl<H: HostName> SharedPart<H> {
    /// Absorbs the shared heap, an orphan of which no other has a lower number: it becomes the kernel's.
    ///
    /// # Errors
    ///
    /// Each changes nothing: `Orphan` where it is not that one, `Phase`, `Full` where the journal has no room, and `Mixed`.
    pub fn absorb(
        &mut self,
        kernel: &mut KernelPart<H>,
        book: &mut BookPart<H>,
    ) -> Result<Event, PartError>
        requires kernel { CanMeet H.home self.old.home kernel.old.home }
        requires book { CanMeet H.home self.old.home book.old.home }
        ensures { IsAbsorbed self.old self.new kernel.old kernel.new book.old book.new result }
    {
        if !are_three(&self.head, &kernel.head, &book.head) {
            return Err(PartError::Mixed);
        }
        hosted(try_absorb(
            &self.head.terms,
            &mut self.heap,
            &mut kernel.kernel,
            &mut book.book,
        ))
    }
}
