//! How many events each call asks for and takes.
ghost use Rattle.std.specs.Prelude.{◌≡◌, ◌+◌, ◌<◌, ◌≤◌, ◌^◌, ◌↔◌, IfErr, IsTrue, OnOk, length};
ghost use Rattle.k_laws.specs.Counts.{is_allocation};
ghost use Rattle.k_host.specs.k_guests.Objects.{gone_by, made_by};
ghost use Rattle.k_host.specs.CallsRefusals.{Lacks};
ghost use Rattle.k_host.specs.HostError.TheVariants.{Objects};
ghost use Rattle.k_keeper.specs.Keeping.{CanCount, left_after, most_with, needed_by_the_kernel, needed_to_absorb, needed_to_collect, needed_to_operate, objects_then};

use k_host::{Host, HostError};
use k_types::{Event, Op, Reply};

/// For a collection of the kernel's heap. Constant time.
pub(crate) fn needed_by_the_kernel(host: &Host) -> u64
    ensures { result ≡ needed_by_the_kernel host.now }
{
    u64::from(host.shared_heaps()) + 2
}

/// For a collection of a process's heap. Constant time.
pub(crate) fn needed_to_collect(host: &Host) -> u64
    ensures { result ≡ needed_to_collect host.now }
{
    u64::from(host.shared_heaps()) + 4
}

/// For an operation. Constant time.
pub(crate) fn needed_to_operate(host: &Host) -> u64
    ensures { result ≡ needed_to_operate host.now }
{
    u64::from(host.shared_heaps()) + 2 * u64::from(host.processes()) + 3
}

/// For an absorption. Constant time.
pub(crate) fn needed_to_absorb(host: &Host) -> u64
    ensures { result ≡ needed_to_absorb host.now }
{
    u64::from(host.shared_heaps()) + 3
}

/// How many events are left once a call that takes so many is done, or is refused.
pub(crate) fn left_after(left: u64, cost: u64, came: &Result<Event, HostError>) -> u64
    requires { cost ≤ left }
    ensures { result ≡ left_after left cost came.now }
{
    match came {
        Ok(_) => left - cost,
        Err(_) => left,
    }
}

/// How many objects the event makes.
fn made_by(event: &Event) -> u32
    ensures { result ≡ made_by event.now }
{
    match *event {
        Event::Done {
            reply: Reply::Made(_),
            ..
        } => 1,
        _ => 0,
    }
}

/// How many objects go with the event.
fn gone_by(event: &Event) -> u32
    ensures { result ≡ gone_by event.now }
{
    match *event {
        Event::Ended { freed_objects, .. } => freed_objects,
        _ => 0,
    }
}

/// How many objects there are once a call has answered.
pub(crate) fn objects_then(objects: u32, came: &Result<Event, HostError>) -> u32
    requires { CanCount objects came.now }
    ensures { result ≡ objects_then objects came.now }
{
    match came {
        Ok(event) => objects - gone_by(event) + made_by(event),
        Err(_) => objects,
    }
}

/// How many objects the host can have at once, where it has room for so many in each heap. Constant time.
pub(crate) fn most_objects(host: &Host, objects: u32) -> u32
    requires { objects < 2 ^ 30 }
    ensures { result ≡ most_with host.now objects }
{
    host.serves();
    let segments = 1 + u64::from(host.processes()) + u64::from(host.shared_heaps());
    let all = segments * u64::from(objects);
    if all < u64::from(u32::MAX) {
        all as u32
    } else {
        u32::MAX
    }
}

/// Whether the operation makes an object.
fn allocates(op: &Op) -> bool
    ensures { result ≡ is_allocation op.now }
{
    match *op {
        Op::New { .. } => true,
        Op::KNew { .. } => true,
        Op::SNew { .. } => true,
        _ => false,
    }
}

/// Tells that there can be one object more, where the operation makes one.
pub(crate) fn has_object_left(objects: u32, most: u32, op: &Op) -> Result<(), HostError>
    ensures ok { OnOk result (IsTrue (is_allocation op.now) → objects < most) }
    ensures why { IfErr result (λ why. Lacks Objects (IsTrue (is_allocation op.now) → objects < most) why) }
{
    if allocates(op) && objects >= most {
        return Err(HostError::Objects);
    }
    Ok(())
}

/// Whether so many events are enough for the ends of all processes and for one operation beside the reserve. Constant time.
pub(crate) fn fits(host: &Host, events: u64) -> bool
    ensures { IsTrue result ↔ (needed_to_operate host.now + length host.now.guests ≤ events) }
{
    u64::from(host.shared_heaps()) + 3 * u64::from(host.processes()) + 3 <= events
}
