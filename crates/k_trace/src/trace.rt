//! A trace that was read, with its names.
use crate::names::Names;
use k_limits::{Op, Pid, Setup};

/// What a text of a trace says.
#[derive(Drop)]
pub struct Trace {
    pub setup: Setup,
    pub names: Names,
    /// The operations of each process, in order.
    pub ops: Vec<Vec<Op>>,
    /// The process of each operation, in the order of the file.
    pub order: Vec<Pid>,
}
