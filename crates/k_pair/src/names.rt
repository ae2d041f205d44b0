//! Which step a function is a part of.
use std::marker::Brand;

/// Names one step: the cells and the book as they were once both cells had met the journal. A step picks it, and what it calls speaks
/// of that.
pub(crate) trait StepName {
    ghost use Rattle.k_commit.specs.Met.{BeforeWith};

    ghost before: { BeforeWith };
}

impl StepName for Brand {
    ghost use Rattle.k_pair.specs.NoStep.{no_step};

    ghost before = { no_step };
}
