//! The error of a call that finds no memory.
ghost use Rattle.std.specs.Prelude.{◌≡◌, ◌↔◌, IsTrue, is_some};
ghost use Rattle.std.specs.IoError.{error_kind};
ghost use Rattle.std.specs.declared.io.ErrorKind.{ErrorKind};

use std::alloc::{AllocError, AllocFailed};
use std::io;
use std::io::ErrorKind;

/// Memory ran out: an allocation was refused.
///
/// It is made here alone: from an allocation that was refused, or from an error by which the system tells of want of memory.
#[derive(Clone, Copy, Debug, PartialEq, Eq)]
pub struct NoMemory {
    refused: AllocError,
}

impl NoMemory {
    /// The refused allocation that an error of the system tells of; `None` where it tells of something else.
    pub fn told_by(error: &io::Error) -> Option<NoMemory>
        ensures { IsTrue (is_some result) ↔ error_kind error.now ≡ ErrorKind.OutOfMemory }
    {
        match error.kind() {
            ErrorKind::OutOfMemory => Some(NoMemory {
                refused: AllocError,
            }),
            _ => None,
        }
    }
}

impl From<AllocError> for NoMemory {
    ghost from_gives = { λ refused e. e ≡ record { refused = refused } };

    fn from(refused: AllocError) -> NoMemory {
        NoMemory { refused }
    }
}

impl<T: Drop> From<AllocFailed<T>> for NoMemory {
    fn from(refused: AllocFailed<T>) -> NoMemory {
        NoMemory::from(AllocError::from(refused))
    }
}
