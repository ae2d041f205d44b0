//! Three numbers of a run that a watcher reads without the book's lock: how many events the journal has, what the root limit
//! has in use, and how many processes live.
//!
//! Whoever holds the book publishes its numbers with the `WatchPen`. A `Watcher` takes samples of what was published last.
//! The rule in `specs/Rule.antt` is over the words of the cell and over what the pen and each watcher know: the words are the
//! pen's last sample, and each sample that was taken is one that was published. What pen and watchers know is known to the
//! proofs alone and takes no bytes at run time. Below stands the sequence cell of `crossbeam_utils`: its readers take no
//! lock unless a writer comes between.
#![tactic(auto)]

mod cell;
mod counting;
mod opening;
mod pen;
mod sample;
mod showing;
mod steps;
mod view;
mod watcher;

pub use counting::books_tell_the_numbers;
pub use opening::make;
pub use pen::WatchPen;
pub use sample::Sample;
pub use showing::{show, show_end};
pub use watcher::Watcher;
