//! The numbers of errors, faults and replies.
ghost use Rattle.std.specs.Prelude.{◌≡◌};
ghost use Rattle.k_embed.specs.Codes.{of_error, of_event, of_fault, of_found, of_held, of_listed, of_name, of_no_host, of_number, of_reply, of_result, of_target, plain};

use crate::messages::Answer;
use k_chronicle::HostError;
use k_types::{Event, Fault, Name, Reply};

/// An answer that says only this.
pub(crate) fn plain(status: u32, fault: u32, at: u32) -> Answer
    ensures { result ≡ plain status fault at }
{
    Answer {
        status,
        fault,
        at,
        what: 0,
        seg: 0,
        serial: 0,
        number: 0,
    }
}

/// Done, with nothing to tell.
pub fn done() -> Answer
    ensures { result ≡ plain 0 0 0 }
{
    plain(0, 0, 0)
}

/// The request names no call.
pub fn no_call() -> Answer
    ensures { result ≡ plain 8 0 0 }
{
    plain(8, 0, 0)
}

/// There is no host, and why.
pub fn lacking_host(line: u32, reason: u32) -> Answer
    ensures { result ≡ of_no_host line reason }
{
    Answer {
        status: 9,
        fault: 0,
        at: reason,
        what: 0,
        seg: line,
        serial: 0,
        number: 0,
    }
}

/// Something that is not declared.
pub fn unknown() -> Answer
    ensures { result ≡ plain 1 0 0 }
{
    plain(1, 0, 0)
}

/// A number.
pub fn number(n: u64) -> Answer
    ensures { result ≡ of_number n }
{
    Answer {
        status: 0,
        fault: 0,
        at: 0,
        what: 2,
        seg: 0,
        serial: 0,
        number: n,
    }
}

/// The object of that name.
pub(crate) fn named(name: Name) -> Answer
    ensures { result ≡ of_name name }
{
    Answer {
        status: 0,
        fault: 0,
        at: 0,
        what: 1,
        seg: name.seg.0,
        serial: name.serial.0,
        number: 0,
    }
}

/// The object, or null.
pub(crate) fn referred(target: Option<Name>) -> Answer
    ensures { result ≡ of_target target }
{
    match target {
        Some(name) => named(name),
        None => Answer {
            status: 0,
            fault: 0,
            at: 0,
            what: 1,
            seg: 0,
            serial: 0,
            number: 0,
        },
    }
}

/// The object of that name, where there is one.
pub fn of_listed(found: Option<Name>) -> Answer
    ensures { result ≡ of_listed found }
{
    match found {
        Some(name) => named(name),
        None => unknown(),
    }
}

/// What the register holds, where there is one.
pub fn of_held(found: Option<Option<Name>>) -> Answer
    ensures { result ≡ of_held found }
{
    match found {
        Some(held) => referred(held),
        None => unknown(),
    }
}

/// What is lacking.
pub fn lacking(why: HostError) -> Answer
    ensures { result ≡ of_error why }
{
    let status = match why {
        HostError::Unknown => 1,
        HostError::OwnCall => 2,
        HostError::Ended => 3,
        HostError::Phase => 4,
        HostError::Full => 5,
        HostError::NoMemory => 6,
        HostError::Orphan => 7,
        HostError::Reserved => 10,
        HostError::Objects => 11,
        HostError::Items => 12,
    };
    plain(status, 0, 0)
}

/// The fault.
fn refused(fault: Fault) -> Answer
    ensures { result ≡ of_fault fault }
{
    match fault {
        Fault::Null => plain(0, 1, 0),
        Fault::Foreign => plain(0, 2, 0),
        Fault::NotSharer(shared) => plain(0, 3, shared.0),
        Fault::NoField => plain(0, 4, 0),
        Fault::WrongKind => plain(0, 5, 0),
        Fault::Frozen => plain(0, 6, 0),
        Fault::Segv => plain(0, 7, 0),
        Fault::NotPopulating(shared) => plain(0, 8, shared.0),
        Fault::NotFrozen(shared) => plain(0, 9, shared.0),
        Fault::Taken(shared) => plain(0, 10, shared.0),
        Fault::LimitFull(limit) => plain(0, 11, limit.0),
        Fault::KernelFull => plain(0, 12, 0),
        Fault::ProcNotBelow(target) => plain(0, 13, target.0),
        Fault::LimitNotBelow(limit) => plain(0, 14, limit.0),
        Fault::InUse(limit) => plain(0, 15, limit.0),
    }
}

/// The reply of an operation.
#[inline(always)]
pub fn replied(reply: Reply) -> Answer
    ensures { result ≡ of_reply reply }
{
    match reply {
        Reply::Done => done(),
        Reply::Made(name) => named(name),
        Reply::Loaded(target) => referred(target),
        Reply::Value(n) => number(n),
        Reply::Refused(fault) => refused(fault),
    }
}

/// What an event tells.
#[inline(always)]
pub fn happened(event: Event) -> Answer
    ensures { result ≡ of_event event }
{
    match event {
        Event::Done {
            pid: _,
            op: _,
            reply,
        } => replied(reply),
        Event::Ended {
            heap: _,
            freed_objects,
            freed_bytes,
            exits_dropped,
            shares_dropped,
        } => Answer {
            status: 0,
            fault: 0,
            at: shares_dropped,
            what: 3,
            seg: freed_objects,
            serial: exits_dropped,
            number: freed_bytes,
        },
        Event::Absorbed { shared: _ } => done(),
        Event::Closing => done(),
    }
}

/// What came of a call that has an event.
#[inline(always)]
pub(crate) fn of_event(came: Result<Event, HostError>) -> Answer
    ensures { result ≡ of_result came }
{
    match came {
        Ok(event) => happened(event),
        Err(why) => lacking(why),
    }
}

/// A number, where there is one.
pub fn of_number(found: Option<u64>) -> Answer
    ensures { result ≡ of_found found }
{
    match found {
        Some(n) => number(n),
        None => unknown(),
    }
}
