//! The snapshot that bytes are.
ghost use Rattle.std.specs.Prelude.{◌≡◌, ◌<◌, ◌-◌, ◌^◌, ◌==◌, [], Some, Ok, Err, IfOk, IfErr, length, drop};
ghost use Rattle.k_state.specs.Setups.{AreSetupRules};
ghost use Rattle.k_types.specs.Trace.{process_count, trace_of};
ghost use Rattle.k_text.specs.Named.{AreNamed};
ghost use Rattle.k_audit.specs.Reading.{HasRead, ReadsSnap, is_over, is_whole, read_line, read_lines, unread};
ghost use Rattle.k_audit.specs.Verdicts.{fed_lines};

use crate::claims::Claimed;
use crate::errors::SnapshotError;
use crate::places::Place;
use crate::reader::Reader;
use k_io::NoMemory;
use k_state::StillState;
use k_trace::Names;
use k_types::Setup;
use k_words::find;
use std::alloc::Global;
use std::marker::Model;

/// What a text of a snapshot says: a state, and what is claimed of it.
#[derive(Drop)]
pub struct Snapshot {
    pub state: StillState,
    pub claims: Claimed,
}

impl Model for Snapshot {
    ghost use Rattle.k_audit.specs.Claims.{Snap};

    ghost Value = { Snap };

    ghost view = { λ s. record { state = s.state; claims = s.claims } };
}

/// Whether the last line was read.
fn is_over(place: Place) -> bool
    ensures { result ≡ is_over place }
{
    matches!(place, Place::Over)
}

impl Reader {
    /// Takes the next line, which is given without its line feed, and says whether it fits. Looks at the line a fixed number of times.
    #[tactic(auto, unfolding(crate::specs::Reading::read_at))]
    fn take_line(
        &mut self,
        alloc: Global,
        setup: &Setup,
        names: &Names,
        line: &[u8],
    ) -> Result<bool, NoMemory>
        requires named { AreNamed names.now (trace_of setup.now [] []) }
        requires rules { AreSetupRules (trace_of setup.now [] []) }
        requires sized { length self.old.snap.state.registers ≡ process_count (trace_of setup.now [] []) }
        ensures { HasRead result self.old self.new (read_line names.now (trace_of setup.now [] []) self.old line.now) }
    {
        match self.place {
            Place::Start => self.take_start(line),
            Place::Gone(least) => self.take_gone(names, least, line),
            Place::Made(seg) => self.take_made(setup, names, seg, line),
            Place::Graph(last) => self.take_object(alloc, setup, names, last, line),
            Place::Roots(least) => self.take_root(names, least, line),
            Place::Exits(seg, last) => self.take_exit(setup, names, (seg, last), line),
            Place::Shares(least) => self.take_share(setup, names, least, line),
            Place::Charges(k) => self.take_charge(setup, names, k, line),
            Place::Over => Ok(false),
        }
    }

    /// Takes all lines that the bytes are, and says which one does not fit, is missing, has no line feed or is too many.
    fn take_lines(
        &mut self,
        alloc: Global,
        setup: &Setup,
        names: &Names,
        bytes: &[u8],
    ) -> Result<(), SnapshotError>
        requires named { AreNamed names.now (trace_of setup.now [] []) }
        requires rules { AreSetupRules (trace_of setup.now [] []) }
        requires sized { length self.old.snap.state.registers ≡ process_count (trace_of setup.now [] []) }
        requires few { length bytes.now < 2 ^ 32 - 1 }
        ensures fits { IfOk result (λ _. read_lines names.now (trace_of setup.now [] []) (is_whole bytes.now) (Some self.old) 1 (fed_lines bytes.now) ≡ Ok self.new.snap) }
        ensures refused { IfErr result (λ e. ReadsSnap (Err e) (read_lines names.now (trace_of setup.now [] []) (is_whole bytes.now) (Some self.old) 1 (fed_lines bytes.now))) }
    {
        let mut rest = bytes;
        let mut number: u32 = 1;
        while !rest.is_empty() {
            let end = find(rest, b'\n');
            if end >= rest.len() {
                return Err(SnapshotError::Bad(number));
            }
            if !self.take_line(alloc, setup, names, &rest[..end])? {
                return Err(SnapshotError::Bad(number));
            }
            number += 1;
            rest = &rest[end + 1..];
        }
        if !is_over(self.place) {
            return Err(SnapshotError::Bad(number));
        }
        Ok(())
    }
}

/// The snapshot that the bytes are, over the header of a trace.
///
/// # Errors
///
/// `Bad` exactly where the bytes are no snapshot's text, with the number of the first line that does not fit, is missing, has no line
/// feed or is too many. `NoMemory` where what is read finds no room.
pub fn read_snapshot(
    alloc: Global,
    setup: &Setup,
    names: &Names,
    bytes: &[u8],
) -> Result<Snapshot, SnapshotError>
    requires named { AreNamed names.now (trace_of setup.now [] []) }
    requires rules { AreSetupRules (trace_of setup.now [] []) }
    requires few { length bytes.now < 2 ^ 32 - 1 }
    ensures { ReadsSnap result (read_lines names.now (trace_of setup.now [] []) (is_whole bytes.now) (Some (unread (trace_of setup.now [] []))) 1 (fed_lines bytes.now)) }
{
    let mut reader = Reader::unread(alloc, setup)?;
    reader.take_lines(alloc, setup, names, bytes)?;
    Ok(Snapshot {
        state: reader.state,
        claims: reader.claims,
    })
}
