//! The parts of a host, taken out of it.
ghost use Rattle.std.specs.Prelude.{◌≡◌};
ghost use Rattle.k_host.specs.Hosts.{HostServes, host_of_parts};

use crate::host::Host;
use k_ends::{Parts, Terms};

impl Host {
    /// For what the host is made, and its parts, which serve together.
    pub fn into_parts(self) -> (Terms, Parts)
        ensures parts { host_of_parts result.0 result.1 ≡ self }
        ensures serves { HostServes (host_of_parts result.0 result.1) }
    {
        let Host {
            terms,
            guests,
            kernel,
            shared,
            book,
        } = self;
        let parts = Parts {
            guests,
            kernel,
            shared,
            book,
        };
        (terms, parts)
    }
}
