//! How the parts of a host are taken apart.
ghost use Rattle.std.specs.Prelude.{◌≡◌, IfOk, map};
ghost use Rattle.std.specs.Arc.{arc_value};
ghost use Rattle.k_host.specs.Hosts.{HostServes, host_of_parts};
ghost use Rattle.k_parts.specs.Parts.{IsOf, guest_seen, shared_seen};
ghost use Rattle.k_parts.specs.Splitting.{AreSplit, GuestsRest, HeapsRest, IsAtRest, home_of};

use crate::head::Head;
use crate::names::HostName;
use crate::parts::{BookPart, GuestPart, KernelPart, SharedPart};
use k_ends::{Guest, Parts, Terms};
use k_host::Host;
use k_mark::Freed;
use k_shared::SharedCell;
use k_types::NoMemory;
use std::alloc::Global;
use std::sync::Arc;

/// The parts of a host, each by itself.
#[derive(Drop)]
pub struct SplitHost<H: HostName> {
    /// Each process, in the place of its number.
    pub guests: Vec<GuestPart<H>>,
    pub kernel: KernelPart<H>,
    /// Each shared heap, in the place of its number.
    pub shared: Vec<SharedPart<H>>,
    pub book: BookPart<H>,
}

/// Each process by itself.
fn split_guests<H: HostName>(
    alloc: Global,
    head: &Arc<Head, Global>,
    guests: Vec<Guest>,
) -> Result<Vec<GuestPart<H>>, NoMemory>
    requires { GuestsRest H.home (arc_value head.now) guests.items }
    ensures { IfOk result (λ made. made.items ≡ map (guest_seen (arc_value head.now)) guests.items) }
{
    let mut made = Vec::new(alloc);
    for guest in guests {
        made.push(GuestPart::of(head, guest)?)?;
    }
    Ok(made)
}

/// Each shared heap by itself.
fn split_heaps<H: HostName>(
    alloc: Global,
    head: &Arc<Head, Global>,
    heaps: Vec<SharedCell>,
) -> Result<Vec<SharedPart<H>>, NoMemory>
    requires { HeapsRest H.home (arc_value head.now) heaps.items }
    ensures { IfOk result (λ made. made.items ≡ map (shared_seen (arc_value head.now)) heaps.items) }
{
    let mut made = Vec::new(alloc);
    for heap in heaps {
        made.push(SharedPart::of(head, heap)?)?;
    }
    Ok(made)
}

/// Takes a host apart. Its parts are known by the number: no other host may have it, unless a type names the host. No collection may be
/// open, as one could never be ended. The list for the names of what a collection frees has room for so many.
///
/// # Errors
///
/// `NoMemory` where memory runs out, and then the host is gone.
pub fn split<H: HostName>(
    alloc: Global,
    host: Host,
    number: u64,
    most_freed: u32,
) -> Result<SplitHost<H>, NoMemory>
    requires rest { IsAtRest host }
    requires named { IsOf H.home (home_of host number) }
    ensures { IfOk result (λ made. AreSplit host number most_freed made.guests.items made.kernel made.shared.items made.book) }
{
    let (terms, parts) = host.into_parts();
    split_parts(alloc, terms, parts, number, most_freed)
}

/// Each part of the host by itself.
fn split_parts<H: HostName>(
    alloc: Global,
    terms: Terms,
    parts: Parts,
    number: u64,
    most_freed: u32,
) -> Result<SplitHost<H>, NoMemory>
    requires serves { HostServes (host_of_parts terms parts) }
    requires named { IsOf H.home (home_of (host_of_parts terms parts) number) }
    ensures { IfOk result (λ made. AreSplit (host_of_parts terms parts) number most_freed made.guests.items made.kernel made.shared.items made.book) }
{
    let Parts {
        guests,
        kernel,
        shared,
        book,
    } = parts;
    let head = Arc::new(
        alloc,
        Head {
            alloc,
            terms,
            number,
        },
    )?;
    let freed = Freed::make(alloc, most_freed)?;
    Ok(SplitHost {
        guests: split_guests(alloc, &head, guests)?,
        kernel: KernelPart::of(&head, kernel)?,
        shared: split_heaps(alloc, &head, shared)?,
        book: BookPart::of(&head, book, freed)?,
    })
}
