//! Operations, and the whole calls of another kind: collections, ends and absorptions.
ghost use Rattle.std.specs.Prelude.{◌≡◌};
ghost use Rattle.k_types.specs.declared.op.Op.TheVariants.{Get as GetOp, Load as LoadOp, Move as MoveOp, New as NewOp, Put as PutOp, Store as StoreOp};
ghost use Rattle.k_embed.specs.Asked.{base_of, operation_of, reg_of, type_of, whole_of};
ghost use Rattle.k_embed.specs.Served.{HasCome};

use crate::messages::Request;
use k_chronicle::{HostError, Keeper};
use k_types::{Event, LimitId, Op, Pid, Reg, SharedId, TypeId};

/// A call that is no operation, and changes a host.
#[derive(Clone, Copy, Debug, PartialEq, Eq)]
pub enum Whole {
    /// Collects the process's heap.
    Collect,
    /// Absorbs every orphan, and collects the kernel's heap, as the process.
    CollectKernel,
    /// Ends the process, whoever asks.
    Kill,
    /// Absorbs an orphan.
    Absorb(SharedId),
}

/// A new object of the type, by the numbers of the request.
pub(crate) fn new_by(request: &Request) -> Op
    ensures { result ≡ NewOp (reg_of request.now) (type_of request.now) }
{
    Op::New {
        reg: Reg(request.reg),
        ty: TypeId(request.at),
    }
}

/// A reference stored into a field, by the numbers of the request.
pub(crate) fn store_by(request: &Request) -> Op
    ensures { result ≡ StoreOp (base_of request.now) request.now.at (reg_of request.now) }
{
    Op::Store {
        base: Reg(request.base),
        field: request.at,
        value: Reg(request.reg),
    }
}

/// A reference loaded from a field, by the numbers of the request.
pub(crate) fn load_by(request: &Request) -> Op
    ensures { result ≡ LoadOp (reg_of request.now) (base_of request.now) request.now.at }
{
    Op::Load {
        reg: Reg(request.reg),
        base: Reg(request.base),
        field: request.at,
    }
}

/// A register copied, by the numbers of the request.
pub(crate) fn move_by(request: &Request) -> Op
    ensures { result ≡ MoveOp (reg_of request.now) (base_of request.now) }
{
    Op::Move {
        reg: Reg(request.reg),
        from: Reg(request.base),
    }
}

/// A number put into a field, by the numbers of the request.
pub(crate) fn put_by(request: &Request) -> Op
    ensures { result ≡ PutOp (base_of request.now) request.now.at request.now.number }
{
    Op::Put {
        base: Reg(request.base),
        field: request.at,
        number: request.number,
    }
}

/// A number read from a field, by the numbers of the request.
pub(crate) fn get_by(request: &Request) -> Op
    ensures { result ≡ GetOp (base_of request.now) request.now.at }
{
    Op::Get {
        base: Reg(request.base),
        field: request.at,
    }
}

/// The operation that a request asks for, where it asks for one that a host does at once.
pub fn operation(request: &Request) -> Option<Op>
    ensures { result ≡ operation_of request.now }
{
    let reg = Reg(request.reg);
    let at = request.at;
    match request.call {
        0 => Some(new_by(request)),
        1 => Some(Op::KNew {
            reg,
            ty: TypeId(at),
        }),
        2 => Some(Op::SNew {
            reg,
            shared: SharedId(at),
            ty: TypeId(request.to),
        }),
        3 => Some(store_by(request)),
        4 => Some(load_by(request)),
        5 => Some(move_by(request)),
        6 => Some(Op::Clear { reg }),
        7 => Some(Op::Dir { reg }),
        8 => Some(put_by(request)),
        9 => Some(get_by(request)),
        10 => Some(Op::Share {
            shared: SharedId(at),
        }),
        11 => Some(Op::Freeze {
            shared: SharedId(at),
            root: reg,
        }),
        12 => Some(Op::Attach {
            reg,
            shared: SharedId(at),
        }),
        13 => Some(Op::Kill { target: Pid(at) }),
        14 => Some(Op::Resize {
            limit: LimitId(at),
            max: request.number,
        }),
        _ => None,
    }
}

/// The call of another kind that a request asks for, where it asks for one.
pub(crate) fn whole_asked(request: &Request) -> Option<Whole>
    ensures { result ≡ whole_of request.now }
{
    match request.call {
        16 => Some(Whole::Collect),
        17 => Some(Whole::CollectKernel),
        18 => Some(Whole::Kill),
        19 => Some(Whole::Absorb(SharedId(request.at))),
        _ => None,
    }
}

/// Does it, as the process.
pub(crate) fn do_whole(host: &mut Keeper, pid: Pid, whole: Whole) -> Result<Event, HostError>
    ensures { HasCome host.old host.new pid whole result }
{
    match whole {
        Whole::Collect => host.collect(pid),
        Whole::CollectKernel => host.collect_kernel(pid),
        Whole::Kill => host.kill(pid),
        Whole::Absorb(id) => host.absorb(id),
    }
}
