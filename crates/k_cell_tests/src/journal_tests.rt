//! Events that come back as they were appended.
use k_book::Journal;
use k_tie::Tie;
use k_types::{Event, Op, Pid, Reg, Reply, SharedId};
use std::test::Fail;

// A note is met and touched, and the events come back in order.
#[test]
fn events_come_back(rt: HostRuntime) -> Result<(), Fail> {
    let (tie, seat, notes) = Tie::make(rt.alloc(), 2)?;
    let mut journal = Journal::make(rt.alloc(), tie, seat, 2, 2)?;
    let event = Event::Done {
        pid: Pid(1),
        op: Op::Clear { reg: Reg(3) },
        reply: Reply::Done,
    };
    journal.append(Event::Closing);
    journal.append(event);
    assert_eq!(rt; journal.len(), 2);
    assert_eq!(rt; *journal.event(0), Event::Closing);
    assert_eq!(rt; *journal.event(1), event);
    let _notes = notes;
    Ok(())
}

fn absorbed(number: u32) -> Event {
    Event::Absorbed {
        shared: SharedId(number),
    }
}

// Where two events are kept, the two last of three come back, and all three are counted.
#[test]
fn the_last_events_come_back(rt: HostRuntime) -> Result<(), Fail> {
    let (tie, seat, notes) = Tie::make(rt.alloc(), 2)?;
    let mut journal = Journal::make(rt.alloc(), tie, seat, 3, 2)?;
    journal.append(absorbed(0));
    journal.append(absorbed(1));
    journal.append(absorbed(2));
    assert_eq!(rt; journal.len(), 3);
    assert_eq!(rt; *journal.event(1), absorbed(1));
    assert_eq!(rt; *journal.event(2), absorbed(2));
    let _notes = notes;
    Ok(())
}
