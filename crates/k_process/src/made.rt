//! Bodies for the operations that make an object.
ghost use Rattle.std.specs.Prelude.{◌≡◌, ◌<◌, length, map, IfOk, IfSome};
ghost use Rattle.std.specs.List.{AllByRecursion};
ghost use Rattle.k_trace.specs.Meaning.{meaning_of};
ghost use Rattle.k_trace.specs.Rules.{IsTrace};
ghost use Rattle.k_process.specs.Bodies.{type_made, bodies_of};

use k_space::Body;
use k_trace::Trace;
use k_types::{NoMemory, Op, TypeId, TypeTable};
use std::alloc::Global;
use std::collections::VecDeque;

/// The type of the object that the operation makes; `None` where it makes none.
fn type_made(op: &Op) -> Option<TypeId>
    ensures { result ≡ type_made op.now }
{
    match *op {
        Op::New { ty, .. } | Op::KNew { ty, .. } | Op::SNew { ty, .. } => Some(ty),
        _ => None,
    }
}

/// The bodies for the operations of one process.
fn bodies_of(alloc: Global, types: &TypeTable, ops: &[Op]) -> Result<VecDeque<Body>, NoMemory>
    requires known { AllByRecursion (λ op. IfSome (type_made op) (λ ty. ty.0 < length types.now)) ops.now }
    ensures { IfOk result (λ made. made.items ≡ bodies_of types.now ops.now) }
{
    let makers = ops.iter().filter(|op| type_made(op).is_some()).count();
    let mut made = VecDeque::with_capacity(alloc, makers)?;
    for op in ops {
        if let Some(ty) = type_made(op) {
            made.push_back(Body::make(alloc, types, ty)?)?;
        }
    }
    Ok(made)
}

/// For each process a new body for each of its operations that makes an object, in their order. It costs time and memory in
/// proportion to the operations and to the fields of the objects.
///
/// # Errors
///
/// `NoMemory` where the bodies find no room.
pub fn bodies(alloc: Global, trace: &Trace) -> Result<Vec<VecDeque<Body>>, NoMemory>
    requires { IsTrace (meaning_of trace.now) }
    ensures { IfOk result (λ all. map (λ made. made.items) all.items ≡ map (bodies_of (meaning_of trace.now).trace.types) (meaning_of trace.now).trace.operations) }
{
    let mut all = Vec::new(alloc);
    for ops in &trace.ops {
        all.push(bodies_of(alloc, &trace.setup.types, ops)?)?;
    }
    Ok(all)
}
