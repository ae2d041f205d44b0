//! A trace and its report, as two texts for `kaffe check`.
ghost use Rattle.std.specs.Prelude.{◌≡◌, ◌+◌, ◌≤◌, ◌↔◌, IsTrue, length};
ghost use Rattle.k_types.specs.Bounds.{most_check_bytes, most_trace_bytes};

use k_types::{MOST_CHECK_BYTES, MOST_TRACE_BYTES};

/// A trace and its report. `kaffe check` accepts the bytes of the trace followed by those of the report.
#[derive(Drop)]
pub struct Texts {
    pub trace: Vec<u8>,
    pub report: Vec<u8>,
}

/// Whether a trace of so many bytes is read, and a report of so many behind it.
pub(crate) fn are_few(trace: usize, report: usize) -> bool
    ensures { IsTrue result ↔ ((trace ≤ most_trace_bytes) × (trace + report ≤ most_check_bytes)) }
{
    trace <= MOST_TRACE_BYTES && report <= MOST_CHECK_BYTES - trace
}
