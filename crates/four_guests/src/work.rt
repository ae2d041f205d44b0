//! What each guest does.
use k_types::{Op, Reg, TypeId};

const OWN: Reg = Reg(0);

const OTHER: Reg = Reg(1);

const FOUND: Reg = Reg(2);

const DIR: Reg = Reg(3);

/// Two objects, of which the first leads to the second.
pub(crate) const OPENING: [Op; 3] = [
    Op::New {
        reg: OWN,
        ty: TypeId(0),
    },
    Op::New {
        reg: OTHER,
        ty: TypeId(0),
    },
    Op::Store {
        base: OWN,
        field: 0,
        value: OTHER,
    },
];

/// A round inside the heap: a number is written and read, and a reference is stored, loaded and moved.
pub(crate) const ROUND: [Op; 5] = [
    Op::Put {
        base: OWN,
        field: 2,
        number: 7,
    },
    Op::Get {
        base: OWN,
        field: 2,
    },
    Op::Store {
        base: OTHER,
        field: 1,
        value: OWN,
    },
    Op::Load {
        reg: FOUND,
        base: OTHER,
        field: 1,
    },
    Op::Move {
        reg: FOUND,
        from: OTHER,
    },
];

/// The first object is stored into the directory, which is the kernel's.
pub(crate) const LAST: [Op; 2] = [
    Op::Dir { reg: DIR },
    Op::Store {
        base: DIR,
        field: 0,
        value: OWN,
    },
];
