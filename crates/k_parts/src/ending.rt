//! Whole collections, ends of processes and absorptions, over the parts that each touches.
ghost use Rattle.std.specs.Prelude.{◌≡◌, length};
ghost use Rattle.k_parts.specs.Calls.{AreNamesKept, IsCollected, IsCollectedKernel, IsExited};
ghost use Rattle.k_parts.specs.Parts.{CanMeet};

use crate::errors::{PartError, hosted};
use crate::names::HostName;
use crate::parts::{BookPart, GuestPart, KernelPart, are_one, are_three};
use k_ends::{try_collect, try_collect_kernel, try_exit};
use k_types::{Event, Name};

impl<H: HostName> GuestPart<H> {
    /// Publishes, and collects the process's heap whole. It answers the event of the end, with what was freed; the book's part then has the
    /// names.
    ///
    /// # Errors
    ///
    /// Each changes nothing: `Ended`, `Phase`, `Full` where the journal has no room, and `Mixed`.
    pub fn collect(&mut self, book: &mut BookPart<H>) -> Result<Event, PartError>
        requires { CanMeet H.home self.old.home book.old.home }
        ensures done { IsCollected self.old self.new book.old book.new result }
        ensures freed { AreNamesKept self.old.home book.old book.new result }
    {
        if !are_one(&self.head, &book.head) {
            return Err(PartError::Mixed);
        }
        hosted(try_collect(
            &self.head.terms,
            &mut self.guest,
            &mut book.book,
            &mut book.freed,
        ))
    }

    /// Publishes, and collects the kernel's heap whole, as the process.
    ///
    /// # Errors
    ///
    /// Each changes nothing: `Ended`, `Phase`, `Orphan` where a shared heap is to be absorbed first, `Full` where the journal has no room,
    /// and `Mixed`.
    pub fn collect_kernel(
        &mut self,
        kernel: &mut KernelPart<H>,
        book: &mut BookPart<H>,
    ) -> Result<Event, PartError>
        requires kernel { CanMeet H.home self.old.home kernel.old.home }
        requires book { CanMeet H.home self.old.home book.old.home }
        ensures done { IsCollectedKernel self.old self.new kernel.old kernel.new book.old book.new result }
        ensures freed { AreNamesKept self.old.home book.old book.new result }
    {
        if !are_three(&self.head, &kernel.head, &book.head) {
            return Err(PartError::Mixed);
        }
        hosted(try_collect_kernel(
            &self.head.terms,
            &mut self.guest,
            &mut kernel.kernel,
            &mut book.book,
            &mut book.freed,
        ))
    }

    /// Publishes, and ends the process, whoever asks for it: its heap becomes the kernel's.
    ///
    /// # Errors
    ///
    /// Each changes nothing: `Ended`, `Phase`, `Full` where the journal has no room, and `Mixed`.
    pub fn exit(
        &mut self,
        kernel: &mut KernelPart<H>,
        book: &mut BookPart<H>,
    ) -> Result<Event, PartError>
        requires kernel { CanMeet H.home self.old.home kernel.old.home }
        requires book { CanMeet H.home self.old.home book.old.home }
        ensures { IsExited self.old self.new kernel.old kernel.new book.old book.new result }
    {
        if !are_three(&self.head, &kernel.head, &book.head) {
            return Err(PartError::Mixed);
        }
        hosted(try_exit(
            &self.head.terms,
            &mut self.guest,
            &mut kernel.kernel,
            &mut book.book,
        ))
    }
}

impl<H: HostName> BookPart<H> {
    /// How many events the journal has.
    pub fn len(&self) -> u64
        ensures { result ≡ length self.now.book.journal.list }
    {
        self.book.len()
    }

    /// The names of the objects that the last collection freed, each once and in any order; none before the first.
    pub fn freed(&self) -> &[Name]
        ensures { result.now ≡ self.now.freed }
    {
        self.freed.names()
    }
}
