//! Two cells add events to one journal, each from a thread of its own.
ghost use Rattle.std.specs.Prelude.{◌≡◌, ◌<◌, ◌≢◌, ◌-◌, ◌^◌, length};

use k_tie::{JournalSeat, Note, Tie};
use k_types::{Event, Op, Pid, Reg, Reply};
use std::marker::{Brand, Model, PhantomData};
use std::sync::{Mutex, Wait};
use std::test::Fail;
use std::thread;
use std::thread::Threads;

trait TableName {
    ghost use Rattle.atomic_table.specs.Seated.{TableId};

    ghost table: { TableId };
}

impl TableName for Brand {
    ghost use Rattle.k_tie.specs.Values.{no_table};

    ghost table = { no_table };
}

/// The journal of the table `W`, with its events kept beside it.
#[derive(Drop)]
struct Desk<W: TableName> {
    tie: Tie,
    journal: JournalSeat,
    events: Vec<Event>,
    of: PhantomData<W>,
}

impl<W: TableName> Model for Desk<W> {
    ghost use Rattle.std.specs.Prelude.{◌≡◌};
    ghost use Rattle.k_tie.specs.Values.{JournalValue};

    ghost Value = { JournalValue };

    ghost view = { λ d. d.journal };

    ghost invariant = { λ d. (d.tie ≡ W.table) × (d.journal.table ≡ W.table) × (d.journal.list ≡ d.events.items) };
}

impl<W: TableName> Desk<W> {
    fn add(&mut self, note: Note, event: Event) -> Note
        requires { note.table ≡ W.table }
        ensures { (result.table ≡ note.table) × (result.cell ≡ note.cell) }
    {
        let mut note = self.journal.meet(&self.tie, note);
        if self.events.len() < 100 && self.events.push(event).is_ok() {
            self.journal.append(&self.tie, &event);
            self.journal.touch_in_place(&self.tie, &mut note);
        }
        self.journal.meet_in_place(&self.tie, &mut note);
        note
    }

    fn tell_apart(&mut self, one: &mut Note, other: &mut Note)
        requires { (one.old.table ≡ W.table) × (other.old.table ≡ W.table) }
        ensures { one.old.cell ≢ other.old.cell }
    {
        self.journal.apart_in_place(&self.tie, one, other);
    }
}

fn event(pid: u32, reg: u8) -> Event {
    Event::Done {
        pid: Pid(pid),
        op: Op::Clear { reg: Reg(reg) },
        reply: Reply::Done,
    }
}

fn add_three<W: TableName, R: Wait>(rt: &R, desk: &Mutex<Desk<W>>, note: Note, pid: u32) -> Note
    requires { note.table ≡ W.table }
    ensures { (result.table ≡ note.table) × (result.cell ≡ note.cell) }
{
    let note = desk.lock(rt).add(note, event(pid, 0));
    let note = desk.lock(rt).add(note, event(pid, 1));
    desk.lock(rt).add(note, event(pid, 2))
}

fn add_from_threads<W: TableName + Send + Sync, R: Threads + Wait + Sync>(
    rt: &R,
    desk: Desk<W>,
    first: Note,
    second: Note,
) -> Vec<Event>
    requires { (first.table ≡ W.table) × (second.table ≡ W.table) }
{
    let desk = Mutex::new(desk);
    let (mut first, mut second) = thread::join(
        rt,
        || add_three(rt, &desk, first, 1),
        || add_three(rt, &desk, second, 2),
    );
    let mut desk = desk.into_inner();
    desk.tell_apart(&mut first, &mut second);
    let Desk {
        tie: _,
        journal: _,
        events,
        of: _,
    } = desk;
    events
}

fn add_to_a_table<W: TableName + Send + Sync, R: Threads + Wait + Sync>(
    rt: &R,
    tie: Tie,
    journal: JournalSeat,
    first: Note,
    second: Note,
    events: Vec<Event>,
) -> Vec<Event>
    requires table { tie ≡ W.table }
    requires notes { (journal.table ≡ tie) × (first.table ≡ tie) × (second.table ≡ tie) }
    requires empty { journal.list ≡ events.items }
{
    let desk: Desk<W> = Desk {
        tie,
        journal,
        events,
        of: PhantomData,
    };
    add_from_threads(rt, desk, first, second)
}

fn is_of(event: &Event, process: u32) -> bool {
    matches!(event, Event::Done { pid, .. } if pid.0 == process)
}

#[test]
fn two_threads_add_each_event_once_and_in_their_order(rt: HostRuntime) -> Result<(), Fail> {
    let (tie, journal, mut notes) = Tie::make(rt.alloc(), 2)?;
    let second = notes.pop().ok_or("a note")?;
    let first = notes.pop().ok_or("a note")?;
    let events = Vec::with_capacity(rt.alloc(), 6)?;
    let events = add_to_a_table::<Brand, HostRuntime>(&rt, tie, journal, first, second, events);
    assert_eq!(rt; events.len(), 6);
    for pid in [1, 2] {
        let mut own = Vec::new(rt.alloc());
        for event in &events {
            if is_of(event, pid) {
                own.push(*event)?;
            }
        }
        assert_eq!(rt;
            own.as_slice(),
            [event(pid, 0), event(pid, 1), event(pid, 2)].as_slice()
        );
    }
    Ok(())
}

// A tie is made with no cell, with one, and with more than 65,536.
#[test]
fn ties_are_made_for_none_and_for_many(rt: HostRuntime) -> Result<(), Fail> {
    for cells in [0, 1, 70_000] {
        let (_, _, notes) = Tie::make(rt.alloc(), cells)?;
        assert_eq!(rt; notes.len(), cells as usize);
    }
    Ok(())
}
