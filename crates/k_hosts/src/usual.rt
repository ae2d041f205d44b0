//! The setup with which hosts are tested, and operations on it.
use k_chronicle::{Host, OpenError, Rooms};
use k_types::{Name, Op, Pid, Reg, Seg, Serial, SharedId, TypeId};
use std::alloc::Global;

/// A ceiling, a type with two references and a number, a hard and a soft limit under the root, two processes and a shared heap.
pub(crate) const USUAL: &[u8] =
    b"kaffe 1\nkernel 200 2\ntype Node ref ref int\nlimit root 1000\nlimit a root hard 120\nlimit b root soft 400\nproc p1 a\nproc p2 b\nshared s\n";

pub(crate) const P1: Pid = Pid(0);

pub(crate) const P2: Pid = Pid(1);

pub(crate) const NODE: TypeId = TypeId(0);

pub(crate) const S: SharedId = SharedId(0);

/// The room for events of the usual host.
pub(crate) const EVENTS: u32 = 2000;

/// Room for so many events, which can all be read, and for all else that a test needs.
pub(crate) fn rooms(events: u32) -> Rooms {
    Rooms {
        events: u64::from(events),
        kept: events,
        tail: 2000,
        objects: 2000,
        exits: 2000,
        kernel_exits: 100000,
        entries: 100000,
    }
}

/// A host of the usual setup.
pub(crate) fn usual(alloc: Global) -> Result<Host, OpenError> {
    Host::read(alloc, USUAL, NODE, 100, rooms(EVENTS))
}

/// Drops the host. A function that has a host drops all its parts wherever it can end; so tests only lend theirs, and end here.
pub(crate) fn let_go(_host: Host) {}

/// The object of that serial in the segment of that number.
pub(crate) fn name(seg: u32, serial: u32) -> Name {
    Name {
        seg: Seg(seg),
        serial: Serial(serial),
    }
}

pub(crate) fn new(reg: u8) -> Op {
    Op::New {
        reg: Reg(reg),
        ty: NODE,
    }
}

pub(crate) fn dir(reg: u8) -> Op {
    Op::Dir { reg: Reg(reg) }
}

pub(crate) fn clear(reg: u8) -> Op {
    Op::Clear { reg: Reg(reg) }
}

pub(crate) fn store(base: u8, field: u32, value: u8) -> Op {
    Op::Store {
        base: Reg(base),
        field,
        value: Reg(value),
    }
}

pub(crate) fn load(reg: u8, base: u8, field: u32) -> Op {
    Op::Load {
        reg: Reg(reg),
        base: Reg(base),
        field,
    }
}

pub(crate) fn share() -> Op {
    Op::Share { shared: S }
}
