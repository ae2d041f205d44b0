//! A journal, printed: the trace of what was done, and its report, which `kaffe check` accepts.
//!
//! [`Printed::of`] steps the machine on one thread along the events of a journal, and tests all that a check asks. What it makes has both
//! texts: [`Printed::trace_text`] spells the trace that has exactly the operations of the journal, and [`Printed::write_report`] writes the
//! machine's report of the journal, which [`Printed::report_text`] gives as bytes; [`Printed::texts`] gives both where
//! they are short enough to be read. A check of the two accepts them, which a clause says.
//! Below stand `k_spell` with the text of a trace, `k_report` with that of a report, `k_reports` with what is accepted, and the plain machine
//! with its view in `k_solo`.
#![tactic(auto)]

mod errors;
mod printed;
mod stepping;
mod testing;
mod text_sink;
mod texts;
mod tracing;

pub use errors::PrintError;
pub use printed::Printed;
pub use texts::Texts;
