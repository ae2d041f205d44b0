//! The lists of a state, and the shape that they keep.

use crate::exits::Exits;
use crate::items::{Scan, Share};
use crate::registers::Registers;
use crate::segments::Segments;
use k_types::{Phase, Setup};
use std::marker::Model;

/// A state of the machine over plain lists, with the setup of its trace.
///
/// Contracts see the setup, as the trace that has it and no operations, and the machine's state. Objects stand in the order of
/// their names, each in the list of its segment. The invariant is the shape of the lists alone.
pub struct PlainLists {
    pub(crate) setup: Setup,
    // The objects of each segment, with their bytes.
    pub(crate) segments: Segments,
    pub(crate) made: Vec<u32>,
    pub(crate) registers: Vec<Registers>,
    pub(crate) done: Vec<u32>,
    // The exit items, with what finds one of them.
    pub(crate) exits: Exits,
    pub(crate) shares: Vec<Share>,
    pub(crate) phases: Vec<Phase>,
    pub(crate) ended: Vec<u32>,
    pub(crate) scans: Vec<Scan>,
    pub(crate) closed: bool,
    pub(crate) maxima: Vec<u64>,
}

impl Drop for PlainLists {
    fn drop(self) {
        let PlainLists {
            setup: _,
            segments: _,
            made: _,
            registers: _,
            done: _,
            exits: _,
            shares: _,
            phases: _,
            ended: _,
            scans: _,
            closed: _,
            maxima: _,
        } = self;
    }
}

impl Model for PlainLists {
    ghost use Rattle.std.specs.Prelude.{[]};
    ghost use Rattle.k_state.specs.Machines.{IsKept, Machine};
    ghost use Rattle.k_types.specs.Trace.{trace_of};

    ghost Value = { Machine };

    ghost view = { λ s. record {
      setup = trace_of s.setup [] [];
      state = record {
        objects = s.segments.objects;
        made = s.made.items;
        registers = s.registers.items;
        done = s.done.items;
        exits = s.exits;
        shares = s.shares.items;
        phases = s.phases.items;
        ended = s.ended.items;
        scans = s.scans.items;
        closed = s.closed;
        maxima = s.maxima.items;
      };
    } };

    ghost invariant = { λ s. IsKept (record {
      setup = trace_of s.setup [] [];
      state = record {
        objects = s.segments.objects;
        made = s.made.items;
        registers = s.registers.items;
        done = s.done.items;
        exits = s.exits;
        shares = s.shares.items;
        phases = s.phases.items;
        ended = s.ended.items;
        scans = s.scans.items;
        closed = s.closed;
        maxima = s.maxima.items;
      };
    }) s.segments.totals };
}
