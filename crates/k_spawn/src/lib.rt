//! Scripts: traces in which processes make and end child processes.
//!
//! A [`Script`] is a header, children and lines. Its bytes are judged line by line, with the reason of the first bad line; a header
//! line is judged as that of a trace. Its translation is a trace of the second version. The tree machine has the processes and
//! limits of the header and of the children that were spawned. Below stands `k_trace`, whose definitions judge what scripts and
//! traces have in common.
#![tactic(auto)]

mod course;
mod errors;
mod family;
mod laws;
mod reader;
mod reading;
mod reasons;
mod script;
mod translation;

pub use errors::ScriptError;
pub use family::Family;
pub use laws::{
    full_child_row, reaped_child_row, scripts_keep_the_rules, strangers_row, trees_agree,
    whole_tree_row,
};
pub use reading::read_script;
pub use reasons::ScriptReason;
pub use script::{Deed, Script, ScriptLine};
pub use translation::translate;
