//! Whether the numbers in an operation are those of the trace.
ghost use Rattle.std.specs.Prelude.{◌≡◌, nat_lt, length};
ghost use Rattle.k_types.specs.Bounds.{maximum_below, register_count};
ghost use Rattle.k_types.specs.Steps.{in_range};
ghost use Rattle.k_types.specs.Trace.{process_count};

use k_state::PlainLists;
use k_types::{LimitId, MAXIMUM_BELOW, Op, Pid, REGISTERS, Reg, SharedId, TypeId};

fn is_register(reg: Reg) -> bool
    ensures { result ≡ nat_lt reg.0 register_count }
{
    reg.0 < REGISTERS
}

fn is_shared(lists: &PlainLists, shared: SharedId) -> bool
    ensures { result ≡ nat_lt shared.0 lists.now.setup.shared_heaps }
{
    shared.0 < lists.shared_count()
}

fn is_type(lists: &PlainLists, ty: TypeId) -> bool
    ensures { result ≡ nat_lt ty.0 (length lists.now.setup.types) }
{
    (ty.0 as usize) < lists.setup().types.len()
}

fn is_process(lists: &PlainLists, pid: Pid) -> bool
    ensures { result ≡ nat_lt pid.0 (process_count lists.now.setup) }
{
    (pid.0 as usize) < lists.process_count()
}

fn is_limit(lists: &PlainLists, limit: LimitId) -> bool
    ensures { result ≡ nat_lt limit.0 (length lists.now.setup.limits) }
{
    limit.0 < lists.limit_count()
}

fn is_maximum(max: u64) -> bool
    ensures { result ≡ nat_lt max maximum_below }
{
    max < MAXIMUM_BELOW
}

/// Whether the numbers in the operation are those of the trace, and a maximum that it sets is one that a limit may have.
#[tactic(auto, unfolding(k_types::specs::Steps::in_range))]
pub fn is_in_range(lists: &PlainLists, op: &Op) -> bool
    ensures { result ≡ in_range lists.now.setup op.now }
{
    match *op {
        Op::New { reg, ty } => is_register(reg) && is_type(lists, ty),
        Op::KNew { reg, ty } => is_register(reg) && is_type(lists, ty),
        Op::SNew { reg, shared, ty } => {
            is_register(reg) && is_shared(lists, shared) && is_type(lists, ty)
        }
        Op::Store { base, value, .. } => is_register(base) && is_register(value),
        Op::Load { reg, base, .. } => is_register(reg) && is_register(base),
        Op::Move { reg, from } => is_register(reg) && is_register(from),
        Op::Clear { reg } => is_register(reg),
        Op::Dir { reg } => is_register(reg),
        Op::Put { base, .. } => is_register(base),
        Op::Get { base, .. } => is_register(base),
        Op::Collect => true,
        Op::KCollect => true,
        Op::Share { shared } => is_shared(lists, shared),
        Op::Freeze { shared, root } => is_shared(lists, shared) && is_register(root),
        Op::Attach { reg, shared } => is_register(reg) && is_shared(lists, shared),
        Op::Exit => true,
        Op::Kill { target } => is_process(lists, target),
        Op::Resize { limit, max } => is_limit(lists, limit) && is_maximum(max),
    }
}
