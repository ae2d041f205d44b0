//! The numbers of what comes of a call over parts.
ghost use Rattle.std.specs.Prelude.{◌≡◌, ◌==◌};
ghost use Rattle.k_slots.specs.Codes.{of_came, of_charge, of_done, of_happened, of_inside, of_mixed, of_needs, of_operated, of_part_error, of_reach, of_tried};

use k_embed::{Answer, Request, done, happened, lacking, number, replied};
use k_operate::Reach;
use k_parts::{Came, HostError, PartError};
use k_types::{Event, Reply};

/// The parts are not of one host, or not of the kinds that the call is lent.
pub(crate) fn mixed() -> Answer
    ensures { result ≡ of_mixed }
{
    Answer {
        status: 17,
        fault: 0,
        at: 0,
        what: 0,
        seg: 0,
        serial: 0,
        number: 0,
    }
}

/// The call needs other parts than it was lent, this one among them.
fn needs(part: u32, at: u32) -> Answer
    ensures { result ≡ of_needs part at }
{
    Answer {
        status: 18,
        fault: 0,
        at,
        what: 5,
        seg: part,
        serial: 0,
        number: 0,
    }
}

/// What an operation touches.
fn of_reach(reached: Reach) -> Answer
    ensures { result ≡ of_reach reached }
{
    match reached {
        Reach::Own => needs(1, 0),
        Reach::Kernel => needs(2, 0),
        Reach::Shared(id) => needs(3, id.0),
        Reach::End(pid) => needs(4, pid.0),
    }
}

fn of_part_error(why: PartError) -> Answer
    ensures { result ≡ of_part_error why }
{
    match why {
        PartError::Host(why) => lacking(why),
        PartError::Mixed => mixed(),
    }
}

/// The operation was done, or it needs another part.
fn of_came(came: Came) -> Answer
    ensures { result ≡ of_came came }
{
    match came {
        Came::Did(event) => happened(event),
        Came::Needs(reached) => of_reach(reached),
    }
}

/// What came of an operation.
pub(crate) fn of_operated(came: Result<Came, PartError>) -> Answer
    ensures { result ≡ of_operated came }
{
    match came {
        Ok(came) => of_came(came),
        Err(why) => of_part_error(why),
    }
}

/// What a process is charged.
pub(crate) fn of_charge(came: Result<u64, PartError>) -> Answer
    ensures { result ≡ of_charge came }
{
    match came {
        Ok(bytes) => number(bytes),
        Err(why) => of_part_error(why),
    }
}

/// What came of a call that has an event.
pub(crate) fn of_happened(came: Result<Event, PartError>) -> Answer
    ensures { result ≡ of_happened came }
{
    match came {
        Ok(event) => happened(event),
        Err(why) => of_part_error(why),
    }
}

/// What came of a call with nothing to tell.
pub(crate) fn of_done(came: Result<(), PartError>) -> Answer
    ensures { result ≡ of_done came }
{
    match came {
        Ok(()) => done(),
        Err(why) => of_part_error(why),
    }
}

/// The operation was done inside the heap, or it needs the book.
#[inline(always)]
fn of_inside(answer: Option<Reply>) -> Answer
    ensures { result ≡ of_inside answer }
{
    match answer {
        Some(reply) => replied(reply),
        None => needs(1, 0),
    }
}

/// What came of an operation that was tried inside the heap.
#[inline(always)]
pub(crate) fn of_tried(came: Result<Option<Reply>, HostError>) -> Answer
    ensures { result ≡ of_tried came }
{
    match came {
        Ok(answer) => of_inside(answer),
        Err(why) => lacking(why),
    }
}

/// Whether the request is for the call of that number.
#[inline(always)]
pub(crate) fn asks(request: &Request, call: u32) -> bool
    ensures { result ≡ (request.now.call == call) }
{
    request.call == call
}
