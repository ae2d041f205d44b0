//! Which cells an operation touches beside its process's own.
use k_types::{Pid, SharedId};

/// The cells that an operation touches beside its process's own: none, the kernel's, that of a shared heap, or those of the end of
/// another process, its own and the kernel's.
#[derive(Clone, Copy, Debug, PartialEq, Eq)]
pub enum Reach {
    Own,
    Kernel,
    Shared(SharedId),
    End(Pid),
}
