//! How the journal of a host is read and printed.
ghost use Rattle.std.specs.Prelude.{◌≡◌, ◌<◌, ◌≤◌, IfErr, IfOk, Some, length, slice_get};
ghost use Rattle.k_print.specs.Printed.{AreTexts};
ghost use Rattle.k_chronicle.specs.Chronicle.{IsNotTold, journal_in};

use crate::errors::ChronicleError;
use k_keeper::{Host, Keeper};
use k_print::{Printed, Texts};
use k_types::{Event, NoMemory};
use std::alloc::Global;

/// The event of that number, of a journal that has kept them all.
fn event_at(host: &Host, number: u64) -> Event
    requires kept { length host.now.book.journal.list ≤ host.now.basis.rooms.kept }
    requires there { number < length host.now.book.journal.list }
    ensures { slice_get host.now.book.journal.list number ≡ Some result }
{
    match host.event(number) {
        Some(event) => event,
        None => unreachable!(),
    }
}

/// All events of the journal, which has kept them.
fn events_of(alloc: Global, host: &Host) -> Result<Vec<Event>, NoMemory>
    requires { length host.now.book.journal.list ≤ host.now.basis.rooms.kept }
    ensures { IfOk result (λ events. events.items ≡ host.now.book.journal.list) }
{
    let mut events = Vec::new(alloc);
    for number in 0..host.len() {
        events.push(event_at(host, number))?;
    }
    Ok(events)
}

/// What the host has done up to now, ready to be printed. What a process did inside its heap and has not published is not in it;
/// `Keeper::publish` publishes it. It takes memory for a copy of all events and for the machine on one thread, and time as its steps do.
///
/// # Errors
///
/// `Forgotten` where the host keeps fewer events than there are, and `Print` as `Printed::of` says, but never with `Unspelled`, since a keeper
/// does no operation that no line of a trace can have. Each comes only where it is so.
pub fn chronicle<'a>(alloc: Global, keeper: &'a Keeper) -> Result<Printed<'a>, ChronicleError>
    ensures of { IfOk result (λ p. p ≡ journal_in keeper.now.host) }
    ensures why { IfErr result (λ why. IsNotTold keeper.now.host why) }
{
    keeper.keeps();
    let host = keeper.host();
    if host.len() > u64::from(host.rooms().kept) {
        return Err(ChronicleError::Forgotten);
    }
    let events = events_of(alloc, host)?;
    Ok(Printed::of(alloc, host.setup(), host.names(), events)?)
}

/// Both texts of what the host has done up to now, which `kaffe check` accepts one after the other. Memory and time are those of
/// [`chronicle`], and go with the texts.
///
/// # Errors
///
/// Those of [`chronicle`], and `Print` with `TooLong`. Each comes only where it is so.
pub fn texts(alloc: Global, keeper: &Keeper) -> Result<Texts, ChronicleError>
    ensures texts { IfOk result (λ t. AreTexts (journal_in keeper.now.host) t) }
    ensures why { IfErr result (λ why. IsNotTold keeper.now.host why) }
{
    keeper.keeps();
    let printed = chronicle(alloc, keeper)?;
    Ok(printed.texts(alloc)?)
}
