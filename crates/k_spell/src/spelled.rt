//! Which operations a line of a trace can have.
ghost use Rattle.std.specs.Prelude.{◌≡◌, ◌^◌, nat_lt};
ghost use Rattle.k_types.specs.TraceRules.{is_spelled};

use k_types::{MAXIMUM_BELOW, MOST_FIELDS, Op};

/// Whether a line of a trace can have the number: it has each of 64 bits.
fn is_number(number: u64) -> bool
    ensures { result ≡ nat_lt number (2 ^ 64) }
{
    let _number = number;
    true
}

/// Whether a line of a trace can have the operation: its field is below 16, and a maximum that it sets below 2^40. Constant time.
#[inline(always)]
pub fn is_spelled(op: &Op) -> bool
    ensures { result ≡ is_spelled op.now }
{
    match *op {
        Op::Store { field, .. } => (field as usize) < MOST_FIELDS,
        Op::Load { field, .. } => (field as usize) < MOST_FIELDS,
        Op::Put { field, number, .. } => (field as usize) < MOST_FIELDS && is_number(number),
        Op::Get { field, .. } => (field as usize) < MOST_FIELDS,
        Op::Resize { max, .. } => max < MAXIMUM_BELOW,
        _ => true,
    }
}
