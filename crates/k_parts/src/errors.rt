//! Why a call over parts changes nothing.
ghost use Rattle.std.specs.Prelude.{◌≡◌};
ghost use Rattle.k_parts.specs.Calls.{hosted};

use k_ends::HostError;

/// Why a call over parts changes nothing.
#[derive(Clone, Copy, Debug, PartialEq, Eq)]
pub enum PartError {
    /// The call can't be done.
    Host(HostError),
    /// The parts are not of one host.
    Mixed,
}

/// What comes of a call, where its parts are of one host.
pub(crate) fn hosted<T>(came: Result<T, HostError>) -> Result<T, PartError>
    ensures { result ≡ hosted came }
{
    match came {
        Ok(value) => Ok(value),
        Err(why) => Err(PartError::Host(why)),
    }
}
