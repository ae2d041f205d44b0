//! What is done with the part of a process alone.
ghost use Rattle.std.specs.Prelude.{◌≡◌};
ghost use Rattle.k_parts.specs.Calls.{IsTriedInside};

use crate::names::HostName;
use crate::parts::GuestPart;
use k_ends::{HostError, try_inside};
use k_types::{Op, Pid, Reply};

impl<H: HostName> GuestPart<H> {
    /// The process.
    pub fn pid(&self) -> Pid
        ensures { result ≡ self.now.guest.cell.pid }
    {
        self.guest.cell.pid()
    }

    /// Does the operation inside the process's heap, if it needs that heap alone; it answers `None` where it needs the book. The event is
    /// kept by the process, until it is published by a call that is lent the book.
    ///
    /// # Errors
    ///
    /// Each changes nothing: `Unknown`, `Ended` and `Phase` as they say, and `Full` where no event more could be unpublished afterwards, or
    /// the process has done as many operations as can be counted. The call that is lent the book does the first of these, and publishes.
    pub fn inside(&mut self, op: &Op) -> Result<Option<Reply>, HostError>
        ensures { IsTriedInside op.now self.old self.new result }
    {
        try_inside(&self.head.terms, &mut self.guest, op)
    }
}
