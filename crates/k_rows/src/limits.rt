//! Histories about limits and the ceiling.
ghost use Rattle.k_rows.specs.Limits.{a_full_limit_above_a_soft_one, a_full_limit_above_a_soft_one_left, a_soft_limit_charges_upward, a_soft_limit_charges_upward_left, boundary_of_a_hard_limit, boundary_of_a_hard_limit_left, reservations_fill_a_limit, reservations_fill_a_limit_left, the_ceiling, the_ceiling_left};
ghost use Rattle.k_rows.specs.Words.{reserved, soft_path, usual};
ghost use Rattle.k_rows.specs.Worked.{IsWorked};

/// A soft limit charges upward: what its process allocates counts at its parent too.
pub fn a_soft_limit_charges_upward_row()
    ensures { IsWorked usual a_soft_limit_charges_upward a_soft_limit_charges_upward_left }
{}

/// Boundary of a hard limit: the third object fits exactly, the fourth does not.
pub fn boundary_of_a_hard_limit_row()
    ensures { IsWorked usual boundary_of_a_hard_limit boundary_of_a_hard_limit_left }
{}

/// A soft limit that is not full is stopped by a full one above it, which the fault names.
pub fn a_full_limit_above_a_soft_one_row()
    ensures { IsWorked soft_path a_full_limit_above_a_soft_one a_full_limit_above_a_soft_one_left }
{}

/// What hard limits reserve counts at their parent, also where nothing is charged.
pub fn reservations_fill_a_limit_row()
    ensures { IsWorked reserved reservations_fill_a_limit reservations_fill_a_limit_left }
{}

/// The kernel heap takes allocations up to its ceiling, and no limit is charged for them.
pub fn the_ceiling_row()
    ensures { IsWorked usual the_ceiling the_ceiling_left }
{}
