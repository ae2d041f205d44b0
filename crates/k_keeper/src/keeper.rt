//! A host and the room that it keeps.
ghost use Rattle.std.specs.Prelude.{◌≡◌, ◌+◌, ◌≤◌, [], IfErr, IfNone, IfOk, IfSome, OnErr, OnOk};
ghost use Rattle.k_host.specs.Whole.{AreFreedLast};
ghost use Rattle.k_host.specs.Calls.{HasAbsorbedIn, HasCollectedIn, HasExitedIn, HasOperatedIn};
ghost use Rattle.k_host.specs.Growing.{IsNotGrown};
ghost use Rattle.k_keeper.specs.Keeping.{IsKept, needed_by_the_kernel, needed_to_operate, objects_in};
ghost use Rattle.k_keeper.specs.Publishing.{HasPublishedEach};
ghost use Rattle.k_keeper.specs.Kept.{HasCollectedAll, HasGrownIn, HasOpened, HasTaken, HasTakenNone, IsGone, IsNotOpened, MayRefuseCollection, MayRefuseKernel, MayRefuseOperation, MayRefuseToAbsorb};

use crate::absorbing::absorb_all;
use crate::alive::{alive, ready, spared, spelled};
use crate::publishing::publish_each;
use crate::rooms::{
    fits, has_object_left, left_after, most_objects, needed_by_the_kernel, needed_to_absorb,
    needed_to_collect, needed_to_operate, objects_then,
};
use k_host::{Freed, GrowError, Host, HostError, OpenError, Rooms, Taken};
use k_types::{Event, Name, Op, Pid, SharedId, TypeId};
use std::alloc::Global;
use std::marker::Model;

/// A host, and how many events are left for operations and collections. Room for the end of each living process is kept beside these. It
/// also has the names of the objects that its last collection freed, counts the objects, of which there are never more than that list has
/// room for, and counts the events that were taken out of the journal.
#[derive(Drop)]
pub struct Keeper {
    pub(crate) host: Host,
    pub(crate) left: u64,
    pub(crate) freed: Freed,
    pub(crate) most: u32,
    pub(crate) objects: u32,
    pub(crate) taken: u64,
}

impl Model for Keeper {
    ghost use Rattle.std.specs.Prelude.{◌≡◌, ◌≤◌, length};
    ghost use Rattle.k_keeper.specs.Keeping.{IsKept, KeeperValue, most_objects, objects_in};

    ghost Value = { KeeperValue };

    ghost view = { λ k. record { host = k.host; left = k.left; freed = k.freed.names; objects = k.objects; taken = k.taken } };

    ghost invariant = { λ k. record {
      kept : IsKept k.host k.left;
      counted : objects_in k.host ≡ k.objects;
      listed : k.objects ≤ k.most;
      room : k.freed.room ≡ k.most;
      named : length k.freed.names ≤ k.most;
      most : k.most ≡ most_objects k.host;
    } };
}

impl Keeper {
    /// A host of the setup that the text of a trace declares, as `Host::read` makes it.
    ///
    /// # Errors
    ///
    /// Those of `Host::read`; and `Terms` where the events are too few for one operation beside the reserve: three for each process, one
    /// for each shared heap and three. It takes memory for the names of as many objects as there can be, 8 bytes each, so that no
    /// collection wants any.
    pub fn read(
        alloc: Global,
        text: &[u8],
        ty: TypeId,
        bodies: u32,
        rooms: Rooms,
    ) -> Result<Keeper, OpenError>
        ensures read { IfOk result (λ k. HasOpened text.now ty bodies rooms k) }
        ensures freed { IfOk result (λ k. k.freed ≡ []) }
        ensures why { IfErr result (λ why. IsNotOpened text.now ty bodies rooms why) }
    {
        let host = Host::read(alloc, text, ty, bodies, rooms)?;
        if !fits(&host, rooms.events) {
            return Err(OpenError::Terms);
        }
        let left = rooms.events - u64::from(host.processes());
        let most = most_objects(&host, rooms.objects);
        let freed = Freed::make(alloc, most)?;
        Ok(Keeper {
            host,
            left,
            freed,
            most,
            objects: 1,
            taken: 0,
        })
    }

    /// The host, for questions.
    pub fn host(&self) -> &Host
        ensures { result.now ≡ self.now.host }
    {
        &self.host
    }

    /// Tells what a keeper keeps between its calls: no collection is open, the journal has room for what is left and for the end of
    /// each process, and the objects are counted.
    pub fn keeps(&self)
        ensures kept { IsKept self.now.host self.now.left }
        ensures counted { objects_in self.now.host ≡ self.now.objects }
    {
        let _left = self.left;
    }

    /// How many events are left beside those that are kept for the ends of processes. Constant time.
    pub fn left(&self) -> u64
        ensures { result ≡ self.now.left }
    {
        self.left
    }

    /// How many objects the machine has after the events of the journal, the directory with them. Constant time.
    pub fn objects(&self) -> u32
        ensures { result ≡ self.now.objects }
    {
        self.objects
    }

    /// Takes the next event out of the journal: the first that was not taken out yet and is still among those that are kept; `None` where there
    /// is none. So each event is taken out at most once, and in order, and its number tells how many were missed before it. Constant time.
    pub fn take(&mut self) -> Option<Taken>
        ensures taken { IfSome result (λ t. HasTaken self.old self.new t.number t.event) }
        ensures none { IfNone result (HasTakenNone self.old self.new) }
    {
        let taken = self.host.next_from(self.taken)?;
        self.taken = taken.number + 1;
        Some(taken)
    }

    /// Has these rooms from now on, as `Host::grow` says, and answers how many of the last events can be read. As many events more are left for
    /// operations and collections as there is room for. It takes memory also for the names of the objects that can live beside those that
    /// could.
    ///
    /// # Errors
    ///
    /// Each changes nothing: those of `Host::grow`, `Rooms` where the rooms are not larger ones, and else `NoMemory`.
    pub fn grow(&mut self, rooms: Rooms) -> Result<u32, GrowError>
        ensures grown { IfOk result (λ kept. HasGrownIn self.old self.new rooms kept) }
        ensures same { OnErr result (self.new ≡ self.old) }
        ensures why { IfErr result (λ why. IsNotGrown self.old.host rooms why) }
    {
        if !self.host.can_grow(&rooms) {
            return Err(GrowError::Rooms);
        }
        let more = rooms.events - self.host.rooms().events;
        let most = most_objects(&self.host, rooms.objects);
        let freed = Freed::make(self.host.allocator(), most)?;
        let kept = self.host.grow(rooms)?;
        self.host.serves();
        self.freed.move_into(freed);
        self.most = most;
        self.left += more;
        Ok(kept)
    }

    /// The names of the objects that the last collection freed, of a process's heap or the kernel's, each once and in any order; none before
    /// the first. They stay until the next collection is done.
    pub fn freed(&self) -> &[Name]
        ensures { result.now ≡ self.now.freed }
    {
        self.freed.names()
    }

    /// Does the operation of the process, as `Host::operate` does. Where it is done, at least two events for each process, one for each
    /// shared heap and two are left: enough for a collection of each heap.
    ///
    /// # Errors
    ///
    /// Each changes nothing: those of `Host::operate`, `Reserved` where no more is left than the reserve, `Objects` also where the host
    /// has as many objects as all its heaps have room for, and `Unknown` also for a field above 15, which no object has and no line of a
    /// trace spells. So all that a keeper has done can be printed.
    #[inline(always)]
    pub fn operate(&mut self, pid: Pid, op: &Op) -> Result<Event, HostError>
        ensures done { IfOk result (λ event. HasOperatedIn self.old.host self.new.host pid op.now event) }
        ensures left { OnOk result (self.old.left ≡ self.new.left + 1) }
        ensures enough { OnOk result (needed_to_operate self.old.host ≤ self.new.left + 1) }
        ensures freed { self.new.freed ≡ self.old.freed }
        ensures taken { self.new.taken ≡ self.old.taken }
        ensures same { OnErr result (self.new ≡ self.old) }
        ensures why { IfErr result (λ why. MayRefuseOperation self.old pid op.now why) }
    {
        ready(&self.host, pid, self.left, needed_to_operate(&self.host))?;
        has_object_left(self.objects, self.most, op)?;
        spelled(op)?;
        let came = self.host.operate(pid, op);
        self.host.serves();
        self.left = left_after(self.left, 1, &came);
        self.objects = objects_then(self.objects, &came);
        came
    }

    /// Collects the process's heap whole. It answers the event of the end, with what was freed; `freed` has the names.
    ///
    /// # Errors
    ///
    /// Each changes nothing: `Unknown`, `Ended`, and `Reserved` where no more is left than a collection of the kernel's heap asks for.
    pub fn collect(&mut self, pid: Pid) -> Result<Event, HostError>
        ensures done { IfOk result (λ event. HasCollectedIn self.old.host self.new.host pid event) }
        ensures left { OnOk result (self.old.left ≡ self.new.left + 2) }
        ensures enough { OnOk result (needed_by_the_kernel self.old.host ≤ self.new.left) }
        ensures freed { OnOk result (AreFreedLast self.new.host.basis.trace self.new.host.book.journal.list self.new.freed) }
        ensures taken { self.new.taken ≡ self.old.taken }
        ensures same { OnErr result (self.new ≡ self.old) }
        ensures why { IfErr result (λ why. MayRefuseCollection self.old pid why) }
    {
        ready(&self.host, pid, self.left, needed_to_collect(&self.host))?;
        let came = self.host.collect(pid, &mut self.freed);
        self.host.serves();
        self.left = left_after(self.left, 2, &came);
        self.objects = objects_then(self.objects, &came);
        came
    }

    /// Absorbs every orphan, and collects the kernel's heap whole, as the process. It answers the event of the end of the collection, with
    /// what was freed; `freed` has the names.
    ///
    /// # Errors
    ///
    /// Each changes nothing: `Unknown`, `Ended`, and `Reserved` where fewer are left than two events and one for each shared heap.
    pub fn collect_kernel(&mut self, pid: Pid) -> Result<Event, HostError>
        ensures done { IfOk result (λ event. HasCollectedAll self.old self.new pid event) }
        ensures freed { OnOk result (AreFreedLast self.new.host.basis.trace self.new.host.book.journal.list self.new.freed) }
        ensures taken { self.new.taken ≡ self.old.taken }
        ensures same { OnErr result (self.new ≡ self.old) }
        ensures why { IfErr result (λ why. MayRefuseKernel self.old pid why) }
    {
        ready(&self.host, pid, self.left, needed_by_the_kernel(&self.host))?;
        let left = absorb_all(&mut self.host, self.left);
        let came = self.host.collect_kernel(pid, &mut self.freed);
        self.host.serves();
        self.left = left_after(left, 2, &came);
        self.objects = objects_then(self.objects, &came);
        came
    }

    /// Ends the process, whoever asks for it: what it did inside its heap is published, and its heap becomes the kernel's.
    ///
    /// # Errors
    ///
    /// Each changes nothing: `Unknown` and `Ended`. A process that lives can always be ended.
    pub fn kill(&mut self, pid: Pid) -> Result<Event, HostError>
        ensures done { IfOk result (λ event. HasExitedIn self.old.host self.new.host pid event) }
        ensures left { self.new.left ≡ self.old.left }
        ensures freed { self.new.freed ≡ self.old.freed }
        ensures taken { self.new.taken ≡ self.old.taken }
        ensures same { OnErr result (self.new ≡ self.old) }
        ensures why { IfErr result (λ why. IsGone self.old.host pid why) }
    {
        alive(&self.host, pid)?;
        let came = self.host.exit(pid);
        self.host.serves();
        came
    }

    /// Publishes what each process did inside its heap, in the order of their numbers: the journal has all that was done then. It takes
    /// nothing of what is left, and can't fail. Time goes with what is published, and with the number of processes.
    pub fn publish(&mut self)
        ensures published { HasPublishedEach self.old.host self.new.host }
        ensures rest { self.new ≡ record self.old { host = self.new.host } }
    {
        publish_each(&mut self.host);
    }

    /// Absorbs the shared heap, an orphan of which no other has a lower number: it becomes the kernel's.
    ///
    /// # Errors
    ///
    /// Each changes nothing: those of `Host::absorb`, and `Reserved` where no more is left than a collection of the kernel's heap asks
    /// for, which absorbs every orphan itself.
    pub fn absorb(&mut self, id: SharedId) -> Result<Event, HostError>
        ensures done { IfOk result (λ event. HasAbsorbedIn self.old.host self.new.host id event) }
        ensures left { OnOk result (self.old.left ≡ self.new.left + 1) }
        ensures freed { self.new.freed ≡ self.old.freed }
        ensures taken { self.new.taken ≡ self.old.taken }
        ensures same { OnErr result (self.new ≡ self.old) }
        ensures why { IfErr result (λ why. MayRefuseToAbsorb self.old id why) }
    {
        spared(self.left, needed_to_absorb(&self.host))?;
        let came = self.host.absorb(id);
        self.left = left_after(self.left, 1, &came);
        self.host.serves();
        came
    }
}
