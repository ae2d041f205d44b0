//! Operations that are made up as it goes.
use crate::driving::{
    begin_heap, begin_kernel, end_heap, end_kernel, mark_heap, mark_kernel, operate,
};
use crate::usual::{NODE, P1, P2, S, let_go, share, usual};
use k_chronicle::{Host, HostError, Twin};
use k_io::NoMemory;
use k_types::{Event, Op, Pid, Reg, Reply};
use std::alloc::Global;
use std::process::Abort;
use std::test::Fail;

/// Numbers that look like chance, from a seed.
#[derive(Drop)]
struct Chance(u64);

impl Chance {
    /// A number below the most, which is not 0.
    fn below(&mut self, most: u64) -> u64 {
        self.0 ^= self.0 << 13;
        self.0 ^= self.0 >> 7;
        self.0 ^= self.0 << 17;
        if most == 0 { 0 } else { self.0 % most }
    }

    fn register(&mut self) -> Reg {
        match self.below(4) {
            0 => Reg(0),
            1 => Reg(1),
            2 => Reg(2),
            _ => Reg(3),
        }
    }

    fn field(&mut self) -> u32 {
        match self.below(8) {
            0 => 3,
            1 => 2,
            2 => 2,
            3 => 1,
            4 => 1,
            _ => 0,
        }
    }

    fn process(&mut self) -> Pid {
        if self.below(2) == 0 { P1 } else { P2 }
    }

    /// An operation that touches the process's heap or the kernel's.
    fn common(&mut self) -> Op {
        let reg = self.register();
        let base = self.register();
        let field = self.field();
        match self.below(10) {
            0 => Op::New { reg, ty: NODE },
            1 => Op::KNew { reg, ty: NODE },
            2 => Op::Store {
                base,
                field,
                value: reg,
            },
            3 => Op::Store {
                base,
                field,
                value: reg,
            },
            4 => Op::Load { reg, base, field },
            5 => Op::Load { reg, base, field },
            6 => Op::Move { reg, from: base },
            7 => Op::Dir { reg },
            8 => Op::Put {
                base,
                field,
                number: self.0,
            },
            _ => Op::Get { base, field },
        }
    }

    /// An operation that touches the shared heap, or drops a reference.
    fn rarer(&mut self) -> Op {
        let reg = self.register();
        match self.below(6) {
            0 => share(),
            1 => Op::SNew {
                reg,
                shared: S,
                ty: NODE,
            },
            2 => Op::SNew {
                reg,
                shared: S,
                ty: NODE,
            },
            3 => Op::Freeze {
                shared: S,
                root: reg,
            },
            4 => Op::Attach { reg, shared: S },
            _ => Op::Clear { reg },
        }
    }

    fn operation(&mut self) -> Op {
        if self.below(4) == 0 {
            self.rarer()
        } else {
            self.common()
        }
    }
}

/// One more step: an operation, or a part of a collection.
fn step(host: &mut Host, chance: &mut Chance) -> Result<Option<Event>, HostError> {
    let pid = chance.process();
    match chance.below(36) {
        0 => Ok(Some(begin_heap(host, pid)?)),
        1 => Ok(Some(begin_kernel(host, pid)?)),
        2 | 3 | 4 => {
            mark_heap(host, pid)?;
            Ok(None)
        }
        5 | 6 => {
            mark_kernel(host)?;
            Ok(None)
        }
        7 | 8 | 9 => Ok(Some(end_heap(host, pid)?)),
        10 | 11 => Ok(Some(end_kernel(host)?)),
        _ => Ok(Some(operate(host, pid, &chance.operation())?)),
    }
}

/// One more step, and whether its event is a step of the machine on one thread too; none where it is refused or has no event.
fn step_beside(
    host: &mut Host,
    twin: &mut Twin,
    chance: &mut Chance,
    alloc: Global,
) -> Result<Option<bool>, NoMemory> {
    match step(host, chance) {
        Ok(Some(event)) => Ok(Some(twin.take(alloc, &event)?)),
        _ => Ok(None),
    }
}

/// Each event of a thousand steps is a step of the machine on one thread: how many there are.
fn agreed<R: Abort>(
    rt: &R,
    alloc: Global,
    host: &mut Host,
    twin: &mut Twin,
) -> Result<u32, NoMemory> {
    let mut chance = Chance(0x9E37_7B93_7F4A_74BD);
    let mut done: u32 = 0;
    for _ in 0..1000 {
        if let Some(agreed) = step_beside(host, twin, &mut chance, alloc)? {
            assert!(rt; agreed);
            done = done.saturating_add(1);
        }
    }
    Ok(done)
}

/// Whether the event loads the root of a shared heap into a register.
fn attaches(event: Option<Event>) -> bool {
    match event {
        Some(Event::Done { op, reply, .. }) => {
            matches!(op, Op::Attach { .. }) && matches!(reply, Reply::Loaded(_))
        }
        _ => false,
    }
}

/// How often a process has come to share the heap, by the journal.
fn attached(host: &Host) -> u32 {
    let mut count: u32 = 0;
    for number in 0..host.len() {
        if attaches(host.event(number)) {
            count = count.saturating_add(1);
        }
    }
    count
}

/// A host and the machine on one thread go through the same.
fn beside<R: Abort>(rt: &R, alloc: Global, host: &mut Host) -> Result<(), Fail> {
    let mut twin = host.twin(alloc)?;
    let done = agreed(rt, alloc, host, &mut twin)?;
    assert!(rt; done > 300, "{done}");
    assert!(rt; attached(host) > 0);
    Ok(())
}

// Each event is a step of the machine on one thread, with the same reply and the same numbers, in the order in which they are done.
#[test]
fn each_reply_is_the_plain_machines(rt: HostRuntime) -> Result<(), Fail> {
    let mut host = usual(rt.alloc())?;
    let end = beside(&rt, rt.alloc(), &mut host);
    let_go(host);
    end
}
