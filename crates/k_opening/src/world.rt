//! A run whose heaps and book stand behind locks.
use k_locks::{EndRooms, Locks, WorldName};
use k_outcome::ReportRooms;
use k_trace::Names;
use k_turns::{TurnPass, Turns};
use k_types::Setup;
use std::marker::Model;

/// A run named `W`: its locks, the queue of its processes with a pass for each worker, and the memory with which it is ended and what a
/// report lists of the end. Contracts see the names that its trace declares, and its setup.
#[derive(Drop)]
pub struct World<W: WorldName> {
    pub locks: Locks<W>,
    pub turns: Turns,
    pub passes: Vec<TurnPass>,
    pub rooms: EndRooms,
    pub report: ReportRooms,
    pub names: Names,
    pub setup: Setup,
}

impl<W: WorldName> Model for World<W> {
    ghost use Rattle.k_opening.specs.Worlds.{RunValue};

    ghost Value = { RunValue };

    ghost use Rattle.std.specs.Prelude.{length};
    ghost use Rattle.k_opening.specs.Worlds.{HoldsRun};

    ghost view = { λ w. record { names = w.names; setup = w.setup } };

    ghost invariant = { λ w. HoldsRun W.world (length w.locks.processes.items) (length w.locks.shared.items) w.rooms w.report w.turns w.passes.items w.setup };
}
