//! Operations of a process with the book, and with what else they touch.
ghost use Rattle.k_parts.specs.Calls.{IsOperated, IsOperatedWithKernel, IsOperatedWithShared, IsPublished};
ghost use Rattle.k_parts.specs.Parts.{CanMeet};

use crate::errors::{PartError, hosted};
use crate::names::HostName;
use crate::parts::{BookPart, GuestPart, KernelPart, SharedPart, are_one, are_three};
use k_ends::{Came, try_own, try_publish, try_with_kernel, try_with_shared};
use k_types::Op;

impl<H: HostName> GuestPart<H> {
    /// Publishes what the process did inside its heap.
    ///
    /// # Errors
    ///
    /// Each changes nothing: `Full` where the journal has no room for it, and `Mixed`.
    pub fn publish(&mut self, book: &mut BookPart<H>) -> Result<(), PartError>
        requires { CanMeet H.home self.old.home book.old.home }
        ensures { IsPublished self.old self.new book.old book.new result }
    {
        if !are_one(&self.head, &book.head) {
            return Err(PartError::Mixed);
        }
        hosted(try_publish(&self.head.terms, &mut self.guest, &mut book.book))
    }

    /// Does the operation where it touches the process's own cell alone, with the book; else it tells which cell is touched, and nothing
    /// has changed. What is done inside the heap is published once no event more can be unpublished.
    ///
    /// # Errors
    ///
    /// Each changes nothing: those of `Host::operate`, where the operation adds to the process's heap, and `Mixed`.
    pub fn operate(&mut self, book: &mut BookPart<H>, op: &Op) -> Result<Came, PartError>
        requires { CanMeet H.home self.old.home book.old.home }
        ensures { IsOperated op.now self.old self.new book.old book.new result }
    {
        if !are_one(&self.head, &book.head) {
            return Err(PartError::Mixed);
        }
        hosted(try_own(
            self.head.alloc,
            &self.head.terms,
            &mut self.guest,
            &mut book.book,
            op,
        ))
    }

    /// The same where the operation touches the kernel's cell too, whose heap is then not to be collected.
    ///
    /// # Errors
    ///
    /// Each changes nothing: those of `Host::operate`, where the operation adds to the kernel's heap, and `Mixed`.
    pub fn operate_with_kernel(
        &mut self,
        kernel: &mut KernelPart<H>,
        book: &mut BookPart<H>,
        op: &Op,
    ) -> Result<Came, PartError>
        requires kernel { CanMeet H.home self.old.home kernel.old.home }
        requires book { CanMeet H.home self.old.home book.old.home }
        ensures { IsOperatedWithKernel op.now self.old self.new kernel.old kernel.new book.old book.new result }
    {
        if !are_three(&self.head, &kernel.head, &book.head) {
            return Err(PartError::Mixed);
        }
        hosted(try_with_kernel(
            self.head.alloc,
            &self.head.terms,
            &mut self.guest,
            &mut kernel.kernel,
            &mut book.book,
            op,
        ))
    }

    /// The same where the operation touches the cell of this shared heap too. Where it touches that of another one, it tells which.
    ///
    /// # Errors
    ///
    /// Each changes nothing: those of `Host::operate`, where the operation adds to the shared heap, and `Mixed`.
    pub fn operate_with_shared(
        &mut self,
        shared: &mut SharedPart<H>,
        book: &mut BookPart<H>,
        op: &Op,
    ) -> Result<Came, PartError>
        requires shared { CanMeet H.home self.old.home shared.old.home }
        requires book { CanMeet H.home self.old.home book.old.home }
        ensures { IsOperatedWithShared op.now self.old self.new shared.old shared.new book.old book.new result }
    {
        if !are_three(&self.head, &shared.head, &book.head) {
            return Err(PartError::Mixed);
        }
        hosted(try_with_shared(
            self.head.alloc,
            &self.head.terms,
            &mut self.guest,
            &mut shared.heap,
            &mut book.book,
            op,
        ))
    }
}
