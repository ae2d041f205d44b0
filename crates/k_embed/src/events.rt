//! Events in numbers: what each was asked for, what came of it, and the next one that is taken out.
ghost use Rattle.std.specs.Prelude.{◌≡◌, ◌<◌};
ghost use Rattle.k_chronicle.specs.k_keeper.k_host.Hosts.{event_of};
ghost use Rattle.k_embed.specs.Asked.{is_take};
ghost use Rattle.k_embed.specs.Codes.{of_event};
ghost use Rattle.k_embed.specs.Events.{asked_by, asked_of, asked_op, of_ended, of_seen, of_taken};
ghost use Rattle.k_embed.specs.Served.{IsTaken};

use crate::codes::{done, happened, number, unknown};
use crate::messages::{Answer, Request};
use k_chronicle::{Host, Keeper, Taken};
use k_types::{Event, Heap, Op, Pid};

/// The numbers of a request by which the process has asked: its call, process, `at`, registers and number.
fn asked_by(call: u32, pid: u32, at: u32, reg: u8, base: u8, number: u64) -> Answer
    requires { call < 32 }
    ensures { result ≡ asked_by call pid at reg base number }
{
    Answer {
        status: 0,
        fault: 0,
        at: pid,
        what: 32 + call,
        seg: at,
        serial: u32::from(reg) + 256 * u32::from(base),
        number,
    }
}

/// The numbers of a request for the operation.
fn asked_op(pid: Pid, op: Op) -> Answer
    ensures { result ≡ asked_op pid op }
{
    let pid = pid.0;
    match op {
        Op::New { reg, ty } => asked_by(0, pid, ty.0, reg.0, 0, 0),
        Op::KNew { reg, ty } => asked_by(1, pid, ty.0, reg.0, 0, 0),
        Op::SNew { reg, shared, ty } => { asked_by(2, pid, shared.0, reg.0, 0, u64::from(ty.0)) }
        Op::Store { base, field, value } => asked_by(3, pid, field, value.0, base.0, 0),
        Op::Load { reg, base, field } => asked_by(4, pid, field, reg.0, base.0, 0),
        Op::Move { reg, from } => asked_by(5, pid, 0, reg.0, from.0, 0),
        Op::Clear { reg } => asked_by(6, pid, 0, reg.0, 0, 0),
        Op::Dir { reg } => asked_by(7, pid, 0, reg.0, 0, 0),
        Op::Put {
            base,
            field,
            number,
        } => asked_by(8, pid, field, 0, base.0, number),
        Op::Get { base, field } => asked_by(9, pid, field, 0, base.0, 0),
        Op::Share { shared } => asked_by(10, pid, shared.0, 0, 0, 0),
        Op::Freeze { shared, root } => asked_by(11, pid, shared.0, root.0, 0, 0),
        Op::Attach { reg, shared } => asked_by(12, pid, shared.0, reg.0, 0, 0),
        Op::Kill { target } => asked_by(13, pid, target.0, 0, 0, 0),
        Op::Resize { limit, max } => asked_by(14, pid, limit.0, 0, 0, max),
        Op::Collect => asked_by(16, pid, 0, 0, 0, 0),
        Op::KCollect => asked_by(17, pid, 0, 0, 0, 0),
        Op::Exit => asked_by(18, pid, 0, 0, 0, 0),
    }
}

/// The heap whose collection has ended: in the place of a register 0 for the kernel's, 1 for a process's and 2 for a shared one.
fn of_ended(heap: Heap) -> Answer
    ensures { result ≡ of_ended heap }
{
    match heap {
        Heap::Kernel => asked_by(22, 0, 0, 0, 0, 0),
        Heap::User(pid) => asked_by(22, pid.0, 0, 1, 0, 0),
        Heap::Shared(shared) => asked_by(22, 0, shared.0, 2, 0, 0),
    }
}

/// What the event was asked for.
fn asked_of(event: Event) -> Answer
    ensures { result ≡ asked_of event }
{
    match event {
        Event::Done { pid, op, reply: _ } => asked_op(pid, op),
        Event::Ended {
            heap,
            freed_objects: _,
            freed_bytes: _,
            exits_dropped: _,
            shares_dropped: _,
        } => of_ended(heap),
        Event::Absorbed { shared } => asked_by(19, 0, shared.0, 0, 0, 0),
        Event::Closing => asked_by(23, 0, 0, 0, 0, 0),
    }
}

/// What the event was asked for, where it can be read.
pub fn seen_asked(found: Option<Event>) -> Answer
    ensures { result ≡ of_seen asked_of found }
{
    match found {
        Some(event) => asked_of(event),
        None => unknown(),
    }
}

/// What came of the event, where it can be read.
pub fn seen_came(found: Option<Event>) -> Answer
    ensures { result ≡ of_seen of_event found }
{
    match found {
        Some(event) => happened(event),
        None => unknown(),
    }
}

/// What the event of that number was asked for, where it can be read.
pub(crate) fn event_asked(host: &Host, number: u64) -> Answer
    ensures { result ≡ of_seen asked_of (event_of host.now number) }
{
    seen_asked(host.event(number))
}

/// What came of the event of that number, where it can be read.
pub(crate) fn event_came(host: &Host, number: u64) -> Answer
    ensures { result ≡ of_seen of_event (event_of host.now number) }
{
    seen_came(host.event(number))
}

/// Whether the request takes the next event out.
pub(crate) fn is_take(request: &Request) -> bool
    ensures { result ≡ is_take request.now }
{
    request.call == 20
}

/// The number of the event that was taken out, where there was one.
pub fn of_taken(came: Option<Taken>) -> Answer
    ensures { result ≡ of_taken came }
{
    match came {
        Some(
            Taken {
                number: at,
                event: _,
            },
        ) => number(at),
        None => done(),
    }
}

/// Takes the next event out, and answers its number.
pub fn take_next(host: &mut Keeper) -> Answer
    ensures { IsTaken host.old host.new result }
{
    of_taken(host.take())
}
