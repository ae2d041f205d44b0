//! The body of the object that an operation makes, before it is done.
ghost use Rattle.std.specs.Prelude.{◌≡◌, ◌<◌, ◌↔◌, ◌∷◌, IfErr, IfSome, IsTrue, OnErr, OnOk, length};
ghost use Rattle.k_operate.specs.k_process.Bodies.{type_made};
ghost use Rattle.k_calls.specs.Doing.{HasItsBody, provided_for};
ghost use Rattle.k_calls.specs.Refusals.{Lacks};
ghost use Rattle.k_guests.specs.Serving.{basis_of, supply_of};
ghost use Rattle.k_space.specs.Objects.{new_body};

use crate::errors::HostError;
use k_guests::{Guest, Terms};
use k_heap::HeapCell;
use k_space::Body;
use k_types::{Op, TypeId};
use std::alloc::Global;

/// The type of the object that the operation makes.
fn type_made(op: &Op) -> Option<TypeId>
    ensures { result ≡ type_made op.now }
{
    match *op {
        Op::New { reg: _, ty } => Some(ty),
        Op::KNew { reg: _, ty } => Some(ty),
        Op::SNew {
            reg: _,
            shared: _,
            ty,
        } => Some(ty),
        _ => None,
    }
}

/// Whether a body of the type is left in the supply.
fn has_body_of(terms: &Terms, guest: &Guest, ty: TypeId) -> bool
    ensures { IsTrue result ↔ ((ty.0 ≡ terms.now.ty.0) × (0 < guest.now.bodies)) }
{
    ty.0 == terms.ty.0 && 0 < guest.bodies
}

/// Makes a body of the type, which is that for the next allocation.
fn make_body(alloc: Global, terms: &Terms, guest: &mut Guest, ty: TypeId) -> Result<(), HostError>
    requires { ty.0 < length terms.now.setup.types }
    ensures made { OnOk result (guest.new ≡ record guest.old { cell = record guest.old.cell { bodies = new_body terms.now.setup.types ty ∷ guest.old.cell.bodies } }) }
    ensures same { OnErr result (guest.new ≡ guest.old) }
    ensures why { IfErr result (λ why. why ≡ HostError.NoMemory) }
{
    let Ok(body) = Body::make(alloc, &terms.setup.types, ty) else {
        return Err(HostError::NoMemory);
    };
    give_body(&mut guest.cell, body)
}

/// Has the cell keep the body as that for the next allocation.
fn give_body(cell: &mut HeapCell, body: Body) -> Result<(), HostError>
    ensures given { OnOk result (cell.new ≡ record cell.old { bodies = body ∷ cell.old.bodies }) }
    ensures same { OnErr result (cell.new ≡ cell.old) }
    ensures why { IfErr result (λ why. why ≡ HostError.NoMemory) }
{
    match cell.give_body(body) {
        Ok(()) => Ok(()),
        Err(_) => Err(HostError::NoMemory),
    }
}

/// Has the body of the object that the operation makes come first: one of the supply, or else a new one.
#[inline(always)]
pub(crate) fn provide(
    alloc: Global,
    terms: &Terms,
    guest: &mut Guest,
    op: &Op,
) -> Result<(), HostError>
    requires stock { guest.old.cell.bodies ≡ supply_of (basis_of terms.now) guest.old.bodies }
    requires typed { IfSome (type_made op.now) (λ ty. ty.0 < length terms.now.setup.types) }
    ensures provided { OnOk result (guest.new ≡ provided_for (basis_of terms.now) op.now guest.old) }
    ensures same { OnErr result (guest.new ≡ guest.old) }
    ensures why { IfErr result (λ why. Lacks HostError.NoMemory (HasItsBody (basis_of terms.now) guest.old.bodies op.now) why) }
{
    let Some(ty) = type_made(op) else {
        return Ok(());
    };
    if has_body_of(terms, guest, ty) {
        guest.bodies -= 1;
        return Ok(());
    }
    make_body(alloc, terms, guest, ty)
}
