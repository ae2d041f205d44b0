//! To which sink a gathering sink hands on.
use std::marker::Brand;

/// Names the sink to which a gathering sink hands on. A call that is lent a gathering sink could have put another sink behind it, for all
/// that its contract says; so the type has the name. Each call that makes a gathering sink picks it.
pub trait SinkName {
    ghost use Rattle.std.specs.Prelude.{ℕ};

    ghost name: { ℕ };
}

impl SinkName for Brand {
    ghost name = { 0 };
}
