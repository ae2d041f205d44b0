//! Whether the numbers in an operation are those of a setup.
ghost use Rattle.std.specs.Prelude.{◌≡◌, nat_lt, length};
ghost use Rattle.k_types.specs.Bounds.{maximum_below, register_count};
ghost use Rattle.k_types.specs.Steps.{in_range};
ghost use Rattle.k_guests.specs.Serving.{open_trace};

use k_types::{LimitId, MAXIMUM_BELOW, Op, Pid, REGISTERS, Reg, Setup, SharedId, TypeId};

fn is_register(reg: Reg) -> bool
    ensures { result ≡ nat_lt reg.0 register_count }
{
    reg.0 < REGISTERS
}

fn is_shared(setup: &Setup, shared: SharedId) -> bool
    ensures { result ≡ nat_lt shared.0 setup.now.shared }
{
    shared.0 < setup.shared
}

fn is_type(setup: &Setup, ty: TypeId) -> bool
    ensures { result ≡ nat_lt ty.0 (length setup.now.types) }
{
    (ty.0 as usize) < setup.types.len()
}

fn is_process(setup: &Setup, pid: Pid) -> bool
    ensures { result ≡ nat_lt pid.0 (length setup.now.procs.items) }
{
    (pid.0 as usize) < setup.procs.len()
}

fn is_limit(setup: &Setup, limit: LimitId) -> bool
    ensures { result ≡ nat_lt limit.0 (length setup.now.limits.items) }
{
    (limit.0 as usize) < setup.limits.len()
}

fn is_maximum(max: u64) -> bool
    ensures { result ≡ nat_lt max maximum_below }
{
    max < MAXIMUM_BELOW
}

/// Whether the numbers in the operation are those of the setup, and a maximum that it sets is one that a limit may have.
#[inline(always)]
#[tactic(auto, unfolding(k_types::specs::Steps::in_range))]
pub(crate) fn is_in_range(setup: &Setup, op: &Op) -> bool
    ensures { result ≡ in_range (open_trace setup.now) op.now }
{
    match *op {
        Op::New { reg, ty } => is_register(reg) && is_type(setup, ty),
        Op::KNew { reg, ty } => is_register(reg) && is_type(setup, ty),
        Op::SNew { reg, shared, ty } => {
            is_register(reg) && is_shared(setup, shared) && is_type(setup, ty)
        }
        Op::Store { base, value, .. } => is_register(base) && is_register(value),
        Op::Load { reg, base, .. } => is_register(reg) && is_register(base),
        Op::Move { reg, from } => is_register(reg) && is_register(from),
        Op::Clear { reg } => is_register(reg),
        Op::Dir { reg } => is_register(reg),
        Op::Put { base, .. } => is_register(base),
        Op::Get { base, .. } => is_register(base),
        Op::Collect => true,
        Op::KCollect => true,
        Op::Share { shared } => is_shared(setup, shared),
        Op::Freeze { shared, root } => is_shared(setup, shared) && is_register(root),
        Op::Attach { reg, shared } => is_register(reg) && is_shared(setup, shared),
        Op::Exit => true,
        Op::Kill { target } => is_process(setup, target),
        Op::Resize { limit, max } => is_limit(setup, limit) && is_maximum(max),
    }
}
