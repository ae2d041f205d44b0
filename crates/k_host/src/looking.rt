//! What a host shows.
ghost use Rattle.std.specs.Prelude.{◌≡◌, IfOk, length, option_map, slice_get};
ghost use Rattle.k_types.specs.Counted.{counted};
ghost use Rattle.k_shares.specs.Sharers.{heap_number, lowest_orphan};
ghost use Rattle.k_ends.specs.k_guests.Serving.{open_trace};
ghost use Rattle.k_host.specs.Hosts.{HostServes, collection_of, event_of, unpublished_of};
ghost use Rattle.k_host.specs.Twins.{first_twin};

use crate::host::Host;
use crate::twin::Twin;
use k_ends::Rooms;
use k_trace::Names;
use k_types::{CellPhase, Event, Name, NoMemory, Pid, Setup, SharedId};
use std::alloc::Global;

impl Host {
    /// Tells what a host keeps between its calls: its parts agree with its setup and have room. So the journal is a legal history of the
    /// machine, and cells and book show the machine after what they know of it.
    pub fn serves(&self)
        ensures { HostServes self.now }
    {
        let _book = &self.book;
    }

    /// For how much there is room. Constant time.
    pub fn rooms(&self) -> Rooms
        ensures { result ≡ self.now.basis.rooms }
    {
        self.terms.rooms
    }

    /// The names of what is declared. Constant time.
    pub fn names(&self) -> &Names
        ensures { result.now ≡ self.now.basis.names }
    {
        let _book = &self.book;
        &self.terms.names
    }

    /// What is declared. Constant time.
    pub fn setup(&self) -> &Setup
        ensures { open_trace result.now ≡ self.now.basis.trace }
    {
        let _book = &self.book;
        &self.terms.setup
    }

    /// The number of processes, ended ones too. Constant time.
    pub fn processes(&self) -> u32
        ensures { result ≡ length self.now.guests }
    {
        self.guests.len() as u32
    }

    /// The number of shared heaps, absorbed ones too. Constant time.
    pub fn shared_heaps(&self) -> u32
        ensures { result ≡ length self.now.shared }
    {
        self.shared.len() as u32
    }

    /// The number of events in the journal. Constant time.
    pub fn len(&self) -> u64
        ensures { result ≡ length self.now.book.journal.list }
    {
        self.book.len()
    }

    /// The event of that number in the journal, from 0; `None` past the last, and where it is no more among those that are kept. Constant
    /// time.
    pub fn event(&self, number: u64) -> Option<Event>
        ensures { result ≡ event_of self.now number }
    {
        let count = self.book.len();
        if number >= count || count - number > u64::from(self.terms.rooms.kept) {
            return None;
        }
        Some(*self.book.event(number))
    }

    /// How many heaps have an exit item to the object. Constant time where the hash spreads the names.
    pub fn entries(&self, target: Name) -> u32
        ensures { result ≡ counted self.now.book.value.entries target }
    {
        self.book.entries(target)
    }

    /// How many registers of other processes than its owner hold the object. Constant time where the hash spreads the names.
    pub fn pins(&self, target: Name) -> u32
        ensures { result ≡ counted self.now.book.value.pins target }
    {
        self.book.pins(target)
    }

    /// The number of unpublished events of the process; `None` where there is no such process. Constant time.
    pub fn unpublished(&self, pid: Pid) -> Option<u32>
        ensures { result ≡ option_map unpublished_of (slice_get self.now.guests pid.0) }
    {
        let guest = self.guests.get(pid.0 as usize)?;
        Some(guest.cell.tail_len())
    }

    /// How far the collection of the process's heap has come; `None` where there is no such process. Constant time.
    pub fn phase(&self, pid: Pid) -> Option<CellPhase>
        ensures { result ≡ option_map collection_of (slice_get self.now.guests pid.0) }
    {
        let guest = self.guests.get(pid.0 as usize)?;
        Some(guest.cell.phase())
    }

    /// How far the collection of the kernel's heap has come. Constant time.
    pub fn kernel_phase(&self) -> CellPhase
        ensures { result ≡ self.now.kernel.value.collection }
    {
        self.kernel.phase()
    }

    /// The machine on one thread before the first event, with the setup of the host. `NoMemory` comes where its lists find no memory.
    pub fn twin(&self, alloc: Global) -> Result<Twin, NoMemory>
        ensures { IfOk result (λ twin. twin ≡ first_twin self.now.basis.trace) }
    {
        let _book = &self.book;
        Twin::make(alloc, &self.terms.setup)
    }

    /// The shared heap of the lowest number that was made, isn't absorbed and has no sharer. The cost is in proportion to the shares.
    pub fn first_orphan(&self) -> Option<SharedId>
        ensures { option_map heap_number result ≡ lowest_orphan self.now.book.value.phases self.now.book.value.shares }
    {
        self.book.first_orphan()
    }
}
