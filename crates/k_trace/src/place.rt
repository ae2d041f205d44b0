//! The places of a trace's lines.

/// Where in a trace the next line stands.
#[derive(Clone, Copy, Debug, PartialEq, Eq)]
pub enum Place {
    Version,
    Kernel,
    Types,
    Limits,
    Procs,
    Shared,
    Operations,
}
