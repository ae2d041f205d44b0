//! How far a reading has come, and what was read: the sections up to the shares.
ghost use Rattle.std.specs.Prelude.{◌≡◌, ◌<◌, ◌≤◌, ◌+◌, ◌*◌, ◌∷◌, [], length, IfOk, Option};
ghost use Rattle.k_types.specs.Bounds.{register_count};
ghost use Rattle.k_types.specs.Trace.{process_count, segment_count, trace_of};
ghost use Rattle.k_words.specs.Words.{word_at, words_of};
ghost use Rattle.k_text.specs.Named.{AreNamed, segment_names};
ghost use Rattle.k_types.specs.declared.names.Name.{Name};
ghost use Rattle.k_audit.specs.Grammar.{share_place};
ghost use Rattle.k_audit.specs.Items.{exit_item, root, sharing};
ghost use Rattle.k_audit.specs.Reading.{HasRead, past_heading, exit_line, gone_line, graph_line, is_after, is_exit_after, made_line, made_of, root_line, root_place, share_line, start_line, unread};

use crate::claims::Claimed;
use crate::holding::segment_of;
use crate::items::{ExitLine, RootLine, ShareLine, read_exit, read_gone, read_root, read_share};
use crate::objects::read_object;
use crate::places::Place;
use k_io::NoMemory;
use k_state::{ExitItem, Share, StillState, is_before};
use k_trace::Names;
use k_types::{Name, Pid, REGISTERS, Setup, SharedId};
use k_words::{is, number, word, word_count};
use std::alloc::Global;
use std::marker::Model;

/// How far a reading has come, and what was read.
#[derive(Drop)]
pub struct Reader {
    pub place: Place,
    pub state: StillState,
    pub claims: Claimed,
}

impl Model for Reader {
    ghost use Rattle.k_audit.specs.Reading.{Reading};

    ghost Value = { Reading };

    ghost view = { λ r. record { place = r.place; snap = record { state = r.state; claims = r.claims } } };
}

/// The name of the segment.
fn segment_name(names: &Names, seg: u32) -> &[u8]
    requires { seg < length (segment_names names.now) }
    ensures { result.now ≡ word_at (segment_names names.now) seg }
{
    let procs = names.proc_count() as u32;
    if seg == 0 {
        b"kernel"
    } else if seg <= procs {
        names.proc_name(Pid(seg - 1))
    } else {
        names.shared_name(SharedId(seg - 1 - procs))
    }
}

/// The number of serials behind the name of the segment.
#[tactic(auto, unfolding(crate::specs::Reading::made_of))]
fn read_made(names: &Names, seg: u32, line: &[u8]) -> Option<u32>
    requires { seg < length (segment_names names.now) }
    ensures { result ≡ made_of names.now seg (words_of line.now) }
{
    if word_count(line) != 2 {
        return None;
    }
    if !is(word(line, 0), segment_name(names, seg)) {
        return None;
    }
    Some(number(word(line, 1), 1 << 32)? as u32)
}

/// Whether the name comes after the last one, if there is one.
fn is_after(last: Option<Name>, name: Name) -> bool
    ensures { result ≡ is_after last name }
{
    match last {
        None => true,
        Some(last) => is_before(last, name),
    }
}

/// Whether the exit item comes after the last one of the heap of that segment.
fn is_exit_after(setup: &Setup, seg: u64, last: Option<Name>, exit: ExitLine) -> bool
    requires { process_count (trace_of setup.now [] []) ≤ 64 }
    ensures { result ≡ is_exit_after (trace_of setup.now [] []) seg last (exit_item exit) }
{
    let own = segment_of(setup, exit.heap);
    seg < own || (seg == own && is_after(last, exit.target))
}

/// The number of the register among all registers.
fn root_place(line: RootLine) -> u32
    requires { line.pid.0 < 64 }
    ensures place { result ≡ root_place (root line) }
    ensures small { result < 2000 }
{
    line.pid.0 * u32::from(REGISTERS) + u32::from(line.r.0)
}

/// The number of the share among all that there may be.
fn share_place(setup: &Setup, line: ShareLine) -> u32
    requires line { (line.pid.0 < 64) × (line.heap.0 < 64) }
    requires heaps { setup.now.shared ≤ 64 }
    ensures place { result ≡ share_place (trace_of setup.now [] []) (sharing line) }
    ensures small { result < 5000 }
{
    line.pid.0 * setup.shared + line.heap.0
}

impl Reader {
    /// Nothing is read yet. `NoMemory` comes where the registers find no memory.
    pub fn unread(alloc: Global, setup: &Setup) -> Result<Reader, NoMemory>
        ensures { IfOk result (λ r. r ≡ unread (trace_of setup.now [] [])) }
    {
        Ok(Reader {
            place: Place::Start,
            state: StillState::blank(alloc, setup.procs.len())?,
            claims: Claimed::nothing(alloc),
        })
    }

    /// Goes past a heading, where the line is that heading, and says whether it is.
    pub fn pass(&mut self, wanted: &[u8], place: Place, line: &[u8]) -> Result<bool, NoMemory>
        ensures { HasRead result self.old self.new (past_heading wanted.now place self.old line.now) }
    {
        if is(line, wanted) {
            self.place = place;
            return Ok(true);
        }
        Ok(false)
    }

    /// The first line.
    #[tactic(auto, unfolding(crate::specs::Reading::start_line))]
    pub fn take_start(&mut self, line: &[u8]) -> Result<bool, NoMemory>
        ensures { HasRead result self.old self.new (start_line self.old line.now) }
    {
        self.pass(b"snapshot 1", Place::Gone(0), line)
    }

    /// The heading `made`, or a process that has ended, none below that number.
    #[tactic(auto, unfolding(crate::specs::Reading::gone_line))]
    pub fn take_gone(&mut self, names: &Names, least: u32, line: &[u8]) -> Result<bool, NoMemory>
        ensures { HasRead result self.old self.new (gone_line names.now least self.old line.now) }
    {
        if is(line, b"made") {
            self.place = Place::Made(0);
            return Ok(true);
        }
        match read_gone(names, line) {
            Some(pid) if least <= pid.0 => {
                self.state.add_ended(pid)?;
                self.place = Place::Gone(pid.0 + 1);
                Ok(true)
            }
            _ => Ok(false),
        }
    }

    /// The line of that segment, or, behind the last one, the heading `graph`.
    #[tactic(auto, unfolding(crate::specs::Reading::made_line))]
    pub fn take_made(
        &mut self,
        setup: &Setup,
        names: &Names,
        seg: u32,
        line: &[u8],
    ) -> Result<bool, NoMemory>
        requires named { AreNamed names.now (trace_of setup.now [] []) }
        requires few { segment_count (trace_of setup.now [] []) ≤ 129 }
        ensures { HasRead result self.old self.new (made_line names.now (trace_of setup.now [] []) seg self.old line.now) }
    {
        if u64::from(seg) >= 1 + setup.procs.len() as u64 + u64::from(setup.shared) {
            return self.pass(b"graph", Place::Graph(None), line);
        }
        match read_made(names, seg, line) {
            Some(serials) => {
                self.state.add_made(serials)?;
                self.place = Place::Made(seg + 1);
                Ok(true)
            }
            None => Ok(false),
        }
    }

    /// The heading `roots`, or an object that comes after the last one.
    #[tactic(auto, unfolding(crate::specs::Reading::graph_line))]
    pub fn take_object(
        &mut self,
        alloc: Global,
        setup: &Setup,
        names: &Names,
        last: Option<Name>,
        line: &[u8],
    ) -> Result<bool, NoMemory>
        requires named { AreNamed names.now (trace_of setup.now [] []) }
        requires few { setup.now.dir_fields ≤ 16 }
        ensures { HasRead result self.old self.new (graph_line names.now (trace_of setup.now [] []) last self.old line.now) }
    {
        if is(line, b"roots") {
            self.place = Place::Roots(0);
            return Ok(true);
        }
        let Some(read) = read_object(alloc, setup, names, line)? else {
            return Ok(false);
        };
        let name = read.object.name();
        if !is_after(last, name) {
            return Ok(false);
        }
        self.claims.add_owner(read.owner)?;
        self.state.add_object(read.object)?;
        self.place = Place::Graph(Some(name));
        Ok(true)
    }

    /// The heading `exits`, or a register that is none of those before that number.
    #[tactic(auto, unfolding(crate::specs::Reading::root_line))]
    pub fn take_root(&mut self, names: &Names, least: u32, line: &[u8]) -> Result<bool, NoMemory>
        requires { length names.now.procs ≡ length self.old.snap.state.registers }
        ensures { HasRead result self.old self.new (root_line names.now least self.old line.now) }
    {
        if is(line, b"exits") {
            self.place = Place::Exits(0, None);
            return Ok(true);
        }
        let Some(root) = read_root(names, line) else {
            return Ok(false);
        };
        let place = root_place(root);
        if place < least {
            return Ok(false);
        }
        self.state.set_register(root.pid, root.r, root.name);
        self.place = Place::Roots(place + 1);
        Ok(true)
    }

    /// The heading `shares`, or an exit item that comes after the last one.
    #[tactic(auto, unfolding(crate::specs::Reading::exit_line))]
    pub fn take_exit(
        &mut self,
        setup: &Setup,
        names: &Names,
        after: (u64, Option<Name>),
        line: &[u8],
    ) -> Result<bool, NoMemory>
        requires { process_count (trace_of setup.now [] []) ≤ 64 }
        ensures { HasRead result self.old self.new (exit_line names.now (trace_of setup.now [] []) after.0 after.1 self.old line.now) }
    {
        if is(line, b"shares") {
            self.place = Place::Shares(0);
            return Ok(true);
        }
        let Some(exit) = read_exit(names, line) else {
            return Ok(false);
        };
        if !is_exit_after(setup, after.0, after.1, exit) {
            return Ok(false);
        }
        self.state.add_exit(ExitItem::of(exit.heap, exit.target))?;
        self.place = Place::Exits(segment_of(setup, exit.heap), Some(exit.target));
        Ok(true)
    }

    /// The heading `charges`, or a share that is none of those before that number.
    #[tactic(auto, unfolding(crate::specs::Reading::share_line))]
    pub fn take_share(
        &mut self,
        setup: &Setup,
        names: &Names,
        least: u32,
        line: &[u8],
    ) -> Result<bool, NoMemory>
        requires { setup.now.shared ≤ 64 }
        ensures { HasRead result self.old self.new (share_line names.now (trace_of setup.now [] []) least self.old line.now) }
    {
        if is(line, b"charges") {
            self.place = Place::Charges(0);
            return Ok(true);
        }
        let Some(share) = read_share(names, line) else {
            return Ok(false);
        };
        let place = share_place(setup, share);
        if place < least {
            return Ok(false);
        }
        self.state.add_share(Share::of(share.pid, share.heap))?;
        self.place = Place::Shares(place + 1);
        Ok(true)
    }
}
