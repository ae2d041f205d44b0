//! What is counted of a journal.
ghost use Rattle.std.specs.Prelude.{◌≡◌, ◌≤◌};
ghost use Rattle.k_types.specs.Totals.{total};
ghost use Rattle.k_big.specs.Counts.{faults_in, freed_in, operations_in};

use k_text::View;
use k_types::{Event, Reply};

/// What a journal comes to.
#[derive(Clone, Copy, Debug, PartialEq, Eq)]
pub(crate) struct Counts {
    /// How many operations were done.
    pub operations: u32,
    /// How many of them were answered by a fault.
    pub faults: u32,
    /// How many objects collections freed.
    pub freed: u64,
}

fn operations_in(event: &Event) -> u32
    ensures exact { result ≡ operations_in event.now }
    ensures one { result ≤ 1 }
{
    match *event {
        Event::Done { .. } => 1,
        _ => 0,
    }
}

fn faults_in(event: &Event) -> u32
    ensures exact { result ≡ faults_in event.now }
    ensures one { result ≤ 1 }
{
    match *event {
        Event::Done {
            reply: Reply::Refused(_),
            ..
        } => 1,
        _ => 0,
    }
}

fn freed_in(event: &Event) -> u32
    ensures { result ≡ freed_in event.now }
{
    match *event {
        Event::Ended { freed_objects, .. } => freed_objects,
        _ => 0,
    }
}

/// What the journal comes to, in one pass over it.
pub(crate) fn counts_of<V: View>(view: &V) -> Counts
    ensures operations { result.operations ≡ total operations_in (V.events view.now) }
    ensures faults { result.faults ≡ total faults_in (V.events view.now) }
    ensures freed { result.freed ≡ total freed_in (V.events view.now) }
{
    let mut operations = 0;
    let mut faults = 0;
    let mut freed = 0;
    for i in 0..view.events() {
        let event = view.event(i);
        operations += operations_in(event);
        faults += faults_in(event);
        freed += u64::from(freed_in(event));
    }
    Counts {
        operations,
        faults,
        freed,
    }
}
