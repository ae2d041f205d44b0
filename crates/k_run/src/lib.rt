//! Runs of a trace: each heap and the book behind a lock of its own, workers on threads, and what is left done on one thread; and the
//! commands `run` and `replay`, which run the trace that a source gives and write its report.
//!
//! [`run_trace`] runs a whole trace: [`open_still`] makes all that the run needs, [`open`] puts it behind its locks, [`run`] has workers do
//! what the processes have to do, and [`finish`] ends the run, whatever they did. [`replay_trace`] does the operations in the order of the
//! file instead, with no lock. A lock tells nothing of its value but the value's type; so the types of all values behind the locks are named
//! by the run's trace and by the table of its journal ([`WorldName`]).
//!
//! The program that has all commands calls these two here (`k_top`). The program that has them alone, `kaffe_run`, does what [`program`]
//! does: it stands on what a run needs and on nothing else, so that the first run of a trace waits for fewer proofs. The contracts of the
//! commands say of each status what it tells of the words, the source and the text that was written.
#![tactic(auto)]

mod command_line;
mod commands;
mod gathering;
mod replaying;
mod running;
mod whole;
mod words;
mod world;

pub use command_line::program;
pub use commands::{replay_file, replay_source, run_file, tell_end};
pub use gathering::gathered_call;
pub use k_opening::{
    Book, LockedBook, LockedKernel, LockedProcess, LockedShared, Outcome, Process, Sample, Still,
    WatchPen, Watcher, World, WorldName, empty_list, make, open, open_still, open_watched,
};
pub use replaying::replay;
pub use running::run;
pub use whole::{replay_trace, run_trace};
pub use words::{Order, order_of, runner};
pub use world::{finish, finish_watched};
