//! Collections, absorptions and ends of processes, called on a host, and what a process does inside its heap.
ghost use Rattle.std.specs.Prelude.{◌≡◌, ◌≤◌, IfErr, IfOk, MatchOption, OnErr, OnOk};
ghost use Rattle.k_ends.specs.k_guests.Objects.{objects_after};
ghost use Rattle.k_ends.specs.CallsRefusals.{CanNotDoInside, CanNotPublish};
ghost use Rattle.k_ends.specs.Refusals.{CanNotBegin, CanNotBeginKernel, CanNotEnd, CanNotEndKernel, CanNotExit, CanNotMark, CanNotMarkKernel, CanNotSettle, CanNotSettleKernel};
ghost use Rattle.k_ends.specs.Whole.{AreFreedLast, CanNotCollect, CanNotCollectKernel};
ghost use Rattle.k_host.specs.Calls.{HasAbsorbedIn, HasBegunIn, HasBegunKernelIn, HasCollectedIn, HasCollectedKernelIn, HasDoneInsideIn, HasEndedIn, HasEndedKernelIn, HasExitedIn, HasLeftOutside, HasMarkedIn, HasMarkedKernelIn, HasPublishedIn, HasSettledIn, HasSettledKernelIn};
ghost use Rattle.k_host.specs.Refusals.{MayRefuse, MayRefuseAbsorption};

use crate::host::Host;
use crate::places::place_of;
use k_ends::{
    HostError, try_absorb, try_begin, try_begin_kernel, try_collect, try_collect_kernel, try_end,
    try_end_kernel, try_exit, try_inside, try_mark, try_mark_kernel, try_publish, try_settle,
    try_settle_kernel,
};
use k_mark::Freed;
use k_types::{Event, Op, Pid, Reply, SharedId};

impl Host {
    /// Does the operation inside the process's own heap, if it needs that heap alone: its event is then the newest unpublished one.
    /// `None` comes exactly where it does not, and changes nothing.
    ///
    /// # Errors
    ///
    /// Each changes nothing: `Unknown`, `Ended`, `Phase` where a collection of the heap is open, and `Full` where the process has done as
    /// many operations as can be counted, or no event more could be unpublished after this one.
    pub fn local(&mut self, pid: Pid, op: &Op) -> Result<Option<Reply>, HostError>
        ensures done { IfOk result (λ answer. MatchOption answer (HasLeftOutside self.old self.new pid op.now) (λ said. HasDoneInsideIn self.old self.new pid op.now said)) }
        ensures same { OnErr result (self.new ≡ self.old) }
        ensures why { IfErr result (λ why. MayRefuse self.old pid (CanNotDoInside self.old.basis op.now) why) }
    {
        let at = place_of(&self.guests, pid)?;
        let guest = &mut self.guests[at];
        try_inside(&self.terms, guest, op)
    }

    /// Publishes what the process did inside its heap.
    ///
    /// # Errors
    ///
    /// Each changes nothing: `Unknown`, and `Full` where the journal has no room for them.
    pub fn publish(&mut self, pid: Pid) -> Result<(), HostError>
        ensures done { OnOk result (HasPublishedIn self.old self.new pid) }
        ensures same { OnErr result (self.new ≡ self.old) }
        ensures why { IfErr result (λ why. MayRefuse self.old pid (CanNotPublish self.old.basis self.old.book) why) }
    {
        let at = place_of(&self.guests, pid)?;
        let guest = &mut self.guests[at];
        try_publish(&self.terms, guest, &mut self.book)
    }

    /// Begins the collection of the process's heap, its operation `collect`.
    ///
    /// # Errors
    ///
    /// Each changes nothing: `Unknown`, `Ended`, `Phase` where a collection of the heap is open, and `Full` where the
    /// journal has no room for what is unpublished and one event more.
    pub fn begin_heap(&mut self, pid: Pid) -> Result<Event, HostError>
        ensures done { IfOk result (λ event. HasBegunIn self.old self.new pid event) }
        ensures same { OnErr result (self.new ≡ self.old) }
        ensures why { IfErr result (λ why. MayRefuse self.old pid (CanNotBegin self.old.basis self.old.book) why) }
    {
        let at = place_of(&self.guests, pid)?;
        let guest = &mut self.guests[at];
        try_begin(&self.terms, guest, &mut self.book)
    }

    /// Marks the process's heap, whose collection has begun.
    ///
    /// # Errors
    ///
    /// Each changes nothing: `Unknown`, and `Phase` where no collection of the heap has begun or it is marked.
    pub fn mark_heap(&mut self, pid: Pid) -> Result<(), HostError>
        ensures done { OnOk result (HasMarkedIn self.old self.new pid) }
        ensures same { OnErr result (self.new ≡ self.old) }
        ensures why { IfErr result (λ why. MayRefuse self.old pid CanNotMark why) }
    {
        let at = place_of(&self.guests, pid)?;
        let guest = &mut self.guests[at];
        try_mark(&self.terms, guest)
    }

    /// Ends the collection of the process's heap, which is marked.
    ///
    /// # Errors
    ///
    /// Each changes nothing: `Unknown`, `Ended`, `Phase` where the heap is not marked, and `Full` where the journal has no room
    /// for what is unpublished and one event more.
    pub fn end_heap(&mut self, pid: Pid) -> Result<Event, HostError>
        ensures done { IfOk result (λ event. HasEndedIn self.old self.new pid event) }
        ensures same { OnErr result (self.new ≡ self.old) }
        ensures why { IfErr result (λ why. MayRefuse self.old pid (CanNotEnd self.old.basis self.old.book) why) }
    {
        let at = place_of(&self.guests, pid)?;
        let guest = &mut self.guests[at];
        try_end(&self.terms, guest, &mut self.book)
    }

    /// Publishes what the process did inside its heap, and ends what is open of it.
    ///
    /// # Errors
    ///
    /// Each changes nothing: `Unknown`, `Ended`, and `Full` where the journal has no room for what is unpublished and one event more.
    pub fn settle_heap(&mut self, pid: Pid) -> Result<(), HostError>
        ensures done { OnOk result (HasSettledIn self.old self.new pid) }
        ensures same { OnErr result (self.new ≡ self.old) }
        ensures why { IfErr result (λ why. MayRefuse self.old pid (CanNotSettle self.old.basis self.old.book) why) }
    {
        let at = place_of(&self.guests, pid)?;
        let guest = &mut self.guests[at];
        try_settle(&self.terms, guest, &mut self.book)
    }

    /// Begins the collection of the kernel's heap, the process's operation `kcollect`.
    ///
    /// # Errors
    ///
    /// Each changes nothing: `Unknown`, `Ended`, `Phase` where a collection of either heap is open, `Orphan` where a shared heap has
    /// to be absorbed first, and `Full` where the journal has no room for what is unpublished and one event more.
    pub fn begin_kernel(&mut self, pid: Pid) -> Result<Event, HostError>
        ensures done { IfOk result (λ event. HasBegunKernelIn self.old self.new pid event) }
        ensures same { OnErr result (self.new ≡ self.old) }
        ensures why { IfErr result (λ why. MayRefuse self.old pid (CanNotBeginKernel self.old.basis self.old.kernel self.old.book) why) }
    {
        let at = place_of(&self.guests, pid)?;
        let guest = &mut self.guests[at];
        try_begin_kernel(&self.terms, guest, &mut self.kernel, &mut self.book)
    }

    /// Marks the kernel's heap, whose collection has begun.
    ///
    /// # Errors
    ///
    /// `Phase` where no collection of the heap has begun or it is marked; it changes nothing.
    pub fn mark_kernel(&mut self) -> Result<(), HostError>
        ensures done { OnOk result (HasMarkedKernelIn self.old self.new) }
        ensures same { OnErr result (self.new ≡ self.old) }
        ensures why { IfErr result (λ why. CanNotMarkKernel self.old.kernel why) }
    {
        try_mark_kernel(&self.terms, &mut self.kernel)
    }

    /// Ends the collection of the kernel's heap, which is marked.
    ///
    /// # Errors
    ///
    /// Each changes nothing: `Phase` where the heap is not marked, and `Full`.
    pub fn end_kernel(&mut self) -> Result<Event, HostError>
        ensures done { IfOk result (λ event. HasEndedKernelIn self.old self.new event) }
        ensures same { OnErr result (self.new ≡ self.old) }
        ensures why { IfErr result (λ why. CanNotEndKernel self.old.basis self.old.kernel self.old.book why) }
    {
        try_end_kernel(&self.terms, &mut self.kernel, &mut self.book)
    }

    /// Ends what is open of the kernel's heap.
    ///
    /// # Errors
    ///
    /// `Full`, which changes nothing.
    pub fn settle_kernel(&mut self) -> Result<(), HostError>
        ensures done { OnOk result (HasSettledKernelIn self.old self.new) }
        ensures same { OnErr result (self.new ≡ self.old) }
        ensures why { IfErr result (λ why. CanNotSettleKernel self.old.basis self.old.book why) }
    {
        try_settle_kernel(&self.terms, &mut self.kernel, &mut self.book)
    }

    /// Collects the process's heap whole: begins, marks and ends. It answers the event of the end, with what was freed, of which the
    /// list then has the names: those of this collection alone, each once, where it has room for as many as the machine has objects. The cost is
    /// in proportion to the objects of the heap, its exit items and its entered and pinned objects.
    ///
    /// # Errors
    ///
    /// Each changes nothing: `Unknown`, `Ended`, `Phase` where a collection of the heap is open, and `Full` where the journal has no room
    /// for what is unpublished and two events more.
    pub fn collect(&mut self, pid: Pid, freed: &mut Freed) -> Result<Event, HostError>
        ensures done { IfOk result (λ event. HasCollectedIn self.old self.new pid event) }
        ensures same { OnErr result (self.new ≡ self.old) }
        ensures why { IfErr result (λ why. MayRefuse self.old pid (CanNotCollect self.old.basis self.old.book) why) }
        ensures freed { objects_after self.old.basis.trace self.old.book.journal.list ≤ freed.old.room → OnOk result (AreFreedLast self.new.basis.trace self.new.book.journal.list freed.new.names) }
        ensures kept { OnErr result (freed.new ≡ freed.old) }
        ensures room { freed.new.room ≡ freed.old.room }
    {
        let at = place_of(&self.guests, pid)?;
        let guest = &mut self.guests[at];
        try_collect(&self.terms, guest, &mut self.book, freed)
    }

    /// Collects the kernel's heap whole, as the process. It answers the event of the end, with what was freed.
    ///
    /// # Errors
    ///
    /// Each changes nothing: `Unknown`, `Ended`, `Phase` where a collection of either heap is open, `Orphan` where a shared heap has
    /// to be absorbed first, and `Full` where the journal has no room for what is unpublished and two events more.
    pub fn collect_kernel(&mut self, pid: Pid, freed: &mut Freed) -> Result<Event, HostError>
        ensures done { IfOk result (λ event. HasCollectedKernelIn self.old self.new pid event) }
        ensures same { OnErr result (self.new ≡ self.old) }
        ensures why { IfErr result (λ why. MayRefuse self.old pid (CanNotCollectKernel self.old.basis self.old.kernel self.old.book) why) }
        ensures freed { objects_after self.old.basis.trace self.old.book.journal.list ≤ freed.old.room → OnOk result (AreFreedLast self.new.basis.trace self.new.book.journal.list freed.new.names) }
        ensures kept { OnErr result (freed.new ≡ freed.old) }
        ensures room { freed.new.room ≡ freed.old.room }
    {
        let at = place_of(&self.guests, pid)?;
        let guest = &mut self.guests[at];
        try_collect_kernel(&self.terms, guest, &mut self.kernel, &mut self.book, freed)
    }

    /// Ends the process, by its operation `exit`: its heap becomes the kernel's.
    ///
    /// # Errors
    ///
    /// Each changes nothing: `Unknown`, `Ended`, `Phase` where a collection of either heap is open, and `Full` where the
    /// journal has no room for what is unpublished and one event more.
    pub fn exit(&mut self, pid: Pid) -> Result<Event, HostError>
        ensures done { IfOk result (λ event. HasExitedIn self.old self.new pid event) }
        ensures same { OnErr result (self.new ≡ self.old) }
        ensures why { IfErr result (λ why. MayRefuse self.old pid (CanNotExit self.old.basis self.old.kernel self.old.book) why) }
    {
        let at = place_of(&self.guests, pid)?;
        let guest = &mut self.guests[at];
        try_exit(&self.terms, guest, &mut self.kernel, &mut self.book)
    }

    /// Absorbs the shared heap, an orphan of which no other has a lower number: it becomes the kernel's.
    ///
    /// # Errors
    ///
    /// Each changes nothing: `Unknown`, `Orphan` where another shared heap is the first orphan or none is, `Phase` where a collection
    /// of the kernel's heap is open, and `Full`.
    pub fn absorb(&mut self, id: SharedId) -> Result<Event, HostError>
        ensures done { IfOk result (λ event. HasAbsorbedIn self.old self.new id event) }
        ensures same { OnErr result (self.new ≡ self.old) }
        ensures why { IfErr result (λ why. MayRefuseAbsorption self.old id why) }
    {
        let at = id.0 as usize;
        if at >= self.shared.len() {
            return Err(HostError::Unknown);
        }
        let heap = &mut self.shared[at];
        try_absorb(&self.terms, heap, &mut self.kernel, &mut self.book)
    }
}
