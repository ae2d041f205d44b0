//! Which run a locked value belongs to.
use std::marker::Brand;

/// Names one run: the trace that is run, the table of its journal, and the cell by which it is watched, if it is. A lock tells nothing
/// of its value but the value's type, so the types of all values behind the locks of one run are named by it.
pub trait WorldName {
    ghost use Rattle.std.specs.Prelude.{Option};
    ghost use Rattle.atomic_table.specs.Seated.{TableId};
    ghost use Rattle.k_process.specs.Worlds.{WorldValue};

    ghost world: { WorldValue };

    ghost watched: { Option TableId };
}

impl WorldName for Brand {
    ghost use Rattle.std.specs.Prelude.{None};
    ghost use Rattle.k_process.specs.Worlds.{no_world};

    ghost world = { no_world };

    ghost watched = { None };
}
