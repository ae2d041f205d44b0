//! A history about what can still be used across heaps.
ghost use Rattle.std.specs.Prelude.{◌≡◌};
ghost use Rattle.k_rows.specs.Lefts.{live_by};
ghost use Rattle.k_rows.specs.Liveness.{reached_through_three_heaps, reached_through_three_heaps_left, reached_through_three_heaps_live};
ghost use Rattle.k_rows.specs.Words.{trace_doing, usual};
ghost use Rattle.k_rows.specs.Worked.{IsWorked};

/// What a register leads to through the heap of its process, the kernel's and that of another process can still be used, as can what
/// a shared heap refers to; a cycle of two heaps that nothing reaches cannot.
pub fn reached_through_three_heaps_row()
    ensures worked { IsWorked usual reached_through_three_heaps reached_through_three_heaps_left }
    ensures live { live_by (trace_doing usual reached_through_three_heaps) reached_through_three_heaps ≡ reached_through_three_heaps_live }
{}
