//! What is said of a report.

/// What is said of a report.
#[derive(Clone, Copy, Debug, PartialEq, Eq)]
pub enum Verdict {
    /// It is the report of a history that is legal and complete for the trace.
    Good,
    /// The line of this number, counted from 1, is the first wrong one.
    Refused(u32),
}
