//! Which host a part is of.
use std::marker::Brand;

/// Names a host, where a type is to tell it: a lock tells nothing of its value but the value's type. Parts of a host that no type names are
/// told apart by their numbers.
pub trait HostName {
    ghost use Rattle.std.specs.Prelude.{Option};
    ghost use Rattle.k_parts.specs.Parts.{Home};

    ghost home: { Option Home };
}

impl HostName for Brand {
    ghost use Rattle.std.specs.Prelude.{None};

    ghost home = { None };
}

/// Names no host.
pub struct AnyHost;

impl HostName for AnyHost {
    ghost use Rattle.std.specs.Prelude.{None};

    ghost home = { None };
}
