//! Scripts: a header, children and lines.
ghost use Rattle.std.specs.Prelude.{◌≡◌, ◌<◌, ◌≤◌, ◌+◌, length};
ghost use Rattle.k_types.specs.Trace.{process_count};
ghost use Rattle.k_trace.specs.Meaning.{meaning_of};
ghost use Rattle.k_spawn.specs.Scripts.{limit_for};

use crate::family::Family;
use k_trace::Trace;
use k_types::{LimitId, Op, Pid};
use k_words::NameList;
use std::marker::Model;

/// What a line of a script does. A child is named by the number of its process.
#[derive(Clone, Copy, Debug, PartialEq, Eq)]
pub enum Deed {
    /// An operation of the first version.
    Does(Op),
    /// The child begins, with this maximum in bytes.
    Spawns { child: Pid, max: u64 },
    /// The child and all below it end.
    Reaps { child: Pid },
}

/// A line of a script: a process of the header or a child, and what it does.
#[derive(Clone, Copy, Debug)]
pub struct ScriptLine {
    pub pid: Pid,
    pub deed: Deed,
}

/// What a text of a script says.
///
/// Contracts see its header as a trace without operations, the name and the parent of each child, and its lines.
pub struct Script {
    pub(crate) header: Trace,
    pub(crate) child_names: NameList,
    pub(crate) family: Family,
    pub(crate) lines: Vec<ScriptLine>,
}

impl Drop for Script {
    fn drop(self) {
        let Script {
            header: _,
            child_names: _,
            family: _,
            lines: _,
        } = self;
    }
}

impl Model for Script {
    ghost use Rattle.std.specs.Prelude.{◌≡◌, ◌≤◌, length};
    ghost use Rattle.k_trace.specs.Meaning.{meaning_of};
    ghost use Rattle.k_spawn.specs.Scripts.{Script};

    ghost Value = { Script };

    ghost view = { λ s. record { header = meaning_of s.header; child_names = s.child_names; parents = s.family.parents; lines = s.lines.items } };

    ghost invariant = { λ s. (s.family.first ≡ length s.header.setup.procs.items) × (length s.header.setup.limits.items ≤ 128) };
}

impl Script {
    /// The script of these parts. The children stand behind the header's processes.
    pub(crate) fn new(
        header: Trace,
        child_names: NameList,
        family: Family,
        lines: Vec<ScriptLine>,
    ) -> Script
        requires behind { family.first ≡ length header.setup.procs.items }
        requires few { length header.setup.limits.items ≤ 128 }
        ensures { result ≡ record { header = meaning_of header; child_names = child_names; parents = family.parents; lines = lines.items } }
    {
        Script {
            header,
            child_names,
            family,
            lines,
        }
    }

    /// How many processes there are, children among them.
    pub fn process_count(&self) -> usize
        ensures { result ≡ process_count self.now.header.trace + length self.now.parents }
    {
        self.header.setup.procs.len() + self.family.len()
    }

    /// The limit of a process: for a child its own, behind those of the header.
    pub fn limit_of(&self, pid: Pid) -> LimitId
        requires { pid.0 < process_count self.now.header.trace + length self.now.parents }
        ensures { result.0 ≡ limit_for self.now pid.0 }
    {
        if self.family.is_child(pid) {
            LimitId((self.header.setup.limits.len() + self.family.place_of(pid)) as u32)
        } else {
            self.header.setup.procs[pid.0 as usize]
        }
    }
}
