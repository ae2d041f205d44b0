//! Objects of several types in one heap, with a supply of one of them.
use crate::driving::{charge, operate};
use crate::usual::{NODE, P1, P2, let_go, new, rooms};
use k_chronicle::{Host, HostError};
use k_types::{Event, Op, Reg, Reply, TypeId};
use std::process::Abort;
use std::test::Fail;

/// A node of 40 bytes, a leaf of 24 and a pair of 32; two processes on limits of their own.
const SEVERAL: &[u8] =
    b"kaffe 1\nkernel 200 2\ntype Node ref ref int\ntype Leaf int\ntype Pair ref ref\nlimit root 1000\nproc p1 root\nproc p2 root\n";

const LEAF: TypeId = TypeId(1);

const PAIR: TypeId = TypeId(2);

const NO_TYPE: TypeId = TypeId(3);

fn new_of(ty: TypeId) -> Op {
    Op::New { reg: Reg(0), ty }
}

fn made(host: &mut Host, op: &Op) -> Result<bool, HostError> {
    match operate(host, P1, op)? {
        Event::Done {
            pid: _,
            op: _,
            reply: Reply::Made(_),
        } => Ok(true),
        _ => Ok(false),
    }
}

/// Each type is charged by its size, the supply is taken for its own type alone, and goes on as new bodies once it is used up.
fn make_several<R: Abort>(rt: &R, host: &mut Host) -> Result<(), Fail> {
    assert!(rt; made(host, &new_of(LEAF))?);
    assert_eq!(rt; charge(host, P1), Some(24));
    assert!(rt; made(host, &new_of(PAIR))?);
    assert_eq!(rt; charge(host, P1), Some(56));
    assert_eq!(rt; host.bodies_left(P1), Some(1));
    assert!(rt; made(host, &new(0))?);
    assert!(rt; made(host, &new(0))?);
    assert_eq!(rt; charge(host, P1), Some(136));
    assert_eq!(rt; host.bodies_left(P1), Some(0));
    assert_eq!(rt;
        operate(host, P1, &new_of(NO_TYPE)).err(),
        Some(HostError::Unknown)
    );
    assert_eq!(rt; host.bodies_left(P2), Some(1));
    Ok(())
}

#[test]
fn objects_are_of_several_types(rt: HostRuntime) -> Result<(), Fail> {
    let mut host = Host::read(rt.alloc(), SEVERAL, NODE, 1, rooms(100))?;
    let end = make_several(&rt, &mut host);
    let_go(host);
    end
}
