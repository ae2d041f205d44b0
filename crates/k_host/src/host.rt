//! A host of processes.
ghost use Rattle.std.specs.Prelude.{◌≡◌, IfErr, IfOk, OnErr, OnOk};
ghost use Rattle.k_types.specs.TraceRules.{KeepsRules};
ghost use Rattle.k_ends.specs.k_guests.Making.{AreFit};
ghost use Rattle.k_ends.specs.k_guests.Serving.{basis_of, open_trace};
ghost use Rattle.k_host.specs.Calls.{HasOperatedIn};
ghost use Rattle.k_host.specs.Hosts.{IsFresh};
ghost use Rattle.k_host.specs.Opening.{HasRead, IsNotMade, IsNotRead};
ghost use Rattle.k_host.specs.Refusals.{CanNotOperateIn, MayRefuse};

use crate::errors::OpenError;
use crate::killing::{kill_among, killed};
use crate::places::place_of;
use k_book::Book;
use k_ends::{Guest, HostError, Rooms, Terms, are_fit, make_parts, operate_with};
use k_kernel::KernelCell;
use k_reader::{SECOND_VERSION, read_trace};
use k_shared::SharedCell;
use k_trace::{Trace, TraceError};
use k_types::{Event, Op, Pid, TypeId};
use std::alloc::Global;
use std::marker::Model;

/// Processes with their heaps, the kernel's heap, shared heaps and the book, driven operation by operation.
#[derive(Drop)]
pub struct Host {
    pub(crate) terms: Terms,
    pub(crate) guests: Vec<Guest>,
    pub(crate) kernel: KernelCell,
    pub(crate) shared: Vec<SharedCell>,
    pub(crate) book: Book,
}

impl Model for Host {
    ghost use Rattle.k_ends.specs.k_guests.Serving.{basis_of};
    ghost use Rattle.k_host.specs.Hosts.{HostServes, HostValue};

    ghost Value = { HostValue };

    ghost view = { λ h. record { basis = basis_of h.terms; guests = h.guests.items; kernel = h.kernel; shared = h.shared.items; book = h.book } };

    ghost invariant = { λ h. HostServes (record { basis = basis_of h.terms; guests = h.guests.items; kernel = h.kernel; shared = h.shared.items; book = h.book }) };
}

impl Host {
    /// A host for these terms, before the first event. It takes all memory that its calls will need, but for objects of which the supply of
    /// their process has no body: time and memory are in proportion to the bodies and to the rooms, those of a heap for each heap.
    ///
    /// # Errors
    ///
    /// `Terms` exactly where the setup has no such type or the rooms are not fit, as `are_fit` of `k_guests` says. `NoMemory` where memory
    /// runs out.
    pub fn make(alloc: Global, terms: Terms) -> Result<Host, OpenError>
        requires { KeepsRules (open_trace terms.setup) }
        ensures made { IfOk result (λ host. IsFresh (basis_of terms) terms.bodies host) }
        ensures fit { OnOk result (AreFit terms.setup terms.ty terms.rooms) }
        ensures why { IfErr result (λ why. IsNotMade terms why) }
    {
        if !are_fit(&terms) {
            return Err(OpenError::Terms);
        }
        let parts = make_parts(alloc, &terms)?;
        Ok(Host {
            terms,
            guests: parts.guests,
            kernel: parts.kernel,
            shared: parts.shared,
            book: parts.book,
        })
    }

    /// A host of the setup that the text of a trace declares, with its names. Operations that stand there are left out. The setup is of the
    /// second version, whatever the text says, since each host has `kill` and `resize`.
    ///
    /// # Errors
    ///
    /// `Bad` exactly where the bytes spell no trace, with the first bad line and its reason, as `k_trace` numbers them; else those of
    /// `make`: `Terms` where the trace declares no such type or the rooms are not fit, and `NoMemory` where memory runs out.
    pub fn read(
        alloc: Global,
        text: &[u8],
        ty: TypeId,
        bodies: u32,
        rooms: Rooms,
    ) -> Result<Host, OpenError>
        ensures read { IfOk result (λ host. HasRead text.now ty bodies rooms host) }
        ensures why { IfErr result (λ why. IsNotRead text.now ty rooms why) }
    {
        match read_trace(alloc, text) {
            Ok(trace) => {
                let Trace {
                    setup,
                    names,
                    ops: _,
                    order: _,
                } = trace;
                let mut setup = setup;
                setup.version = SECOND_VERSION;
                Host::make(
                    alloc,
                    Terms {
                        setup,
                        names,
                        ty,
                        bodies,
                        rooms,
                    },
                )
            }
            Err(TraceError::NoMemory(refused)) => Err(OpenError::NoMemory(refused)),
            Err(TraceError::Bad { line, reason }) => Err(OpenError::Bad { line, reason }),
        }
    }

    /// Does the operation of the process, inside its heap where it needs that heap alone, and answers its event. What is done inside the heap
    /// is published once no event more can be unpublished. Where it is a `kill` that
    /// ends another process, what both did inside their heaps is published first, the own before the target's.
    ///
    /// # Errors
    ///
    /// Each changes nothing: `Unknown`, `OwnCall`, `Ended` and `NoMemory` as they say, `Phase` where a collection is open of the process's
    /// heap, or of the kernel's or a killed process's where the operation touches that, `Full` where the journal has no room for what is
    /// unpublished and one event more, or the process has done as many operations as can be counted, `Objects` where the heap has no room for
    /// the object or the host has as many as 32 bits count, and `Items` where it has no exit item left or the book no entry item.
    #[inline(always)]
    pub fn operate(&mut self, pid: Pid, op: &Op) -> Result<Event, HostError>
        ensures done { IfOk result (λ event. HasOperatedIn self.old self.new pid op.now event) }
        ensures same { OnErr result (self.new ≡ self.old) }
        ensures why { IfErr result (λ why. MayRefuse self.old pid (CanNotOperateIn self.old op.now) why) }
    {
        let at = place_of(&self.guests, pid)?;
        if let Some(target) = killed(&self.guests, pid, op) {
            return kill_among(
                &self.terms,
                &mut self.guests,
                at,
                target,
                &mut self.kernel,
                &mut self.book,
                op,
            );
        }
        let alloc = *self.guests.allocator();
        let guest = &mut self.guests[at];
        operate_with(
            alloc,
            &self.terms,
            guest,
            &mut self.kernel,
            &mut self.shared,
            &mut self.book,
            op,
        )
    }
}
