//! The program: reads a trace from standard input, runs it on threads or in the order of the file and writes its report to
//! standard output, or checks a report, or audits a snapshot, or does what else its words say. Its exit status says how that ended.
//!
//! The contract of `kaffe` promises, for any source and sink, which status comes and what was
//! written, and that of `program` that the exit status is the number of this status. `program` has a
//! sink before its own that gathers lines. `main` gives it the standard streams and the arguments of
//! the command line.
#![tactic(auto)]

mod call;
mod command_line;
mod gathering;
mod settling;
mod snapping;
mod spawning;
mod watched;
mod watching;
mod working;
mod workload;

pub use call::kaffe;
pub use command_line::program;
pub use gathering::gathered_call;
pub use k_status::Status;
pub use settling::answer_at_once;
pub use watched::watch_trace;
