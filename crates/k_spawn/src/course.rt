//! The lines of a script, and what they say of each process.
ghost use Rattle.std.specs.Prelude.{◌≡◌, ◌<◌, ◌≤◌, ◌+◌, ◌||◌, [], length, map, nat_lt, IfOk, OnOk};
ghost use Rattle.std.specs.List.{AllByRecursion};
ghost use Rattle.k_types.specs.Bounds.{most_operations};
ghost use Rattle.k_types.specs.TraceRules.{is_exit};
ghost use Rattle.k_spawn.specs.Courses.{with_child, with_deed, reaped_by, weight_by, IsDeedOf, AreMarked};
ghost use Rattle.k_spawn.specs.Timely.{weight, has_left, operations_so_far, is_of_parent, is_running, is_due};

use crate::family::Family;
use crate::script::{Deed, ScriptLine};
use k_types::{NoMemory, Op, Pid, push};
use std::alloc::Global;
use std::marker::Model;

/// The children and the lines so far. Which children were spawned and reaped, which processes have left and how many operations the
/// lines become is kept beside them.
pub struct Course {
    family: Family,
    lines: Vec<ScriptLine>,
    spawned: [bool; 64],
    reaped: [bool; 64],
    left: [bool; 64],
    operations: usize,
}

impl Drop for Course {
    fn drop(self) {
        let Course {
            family: _,
            lines: _,
            spawned: _,
            reaped: _,
            left: _,
            operations: _,
        } = self;
    }
}

impl Model for Course {
    ghost use Rattle.k_spawn.specs.Courses.{Course, IsKept};

    ghost Value = { Course };

    ghost view = { λ c. record { family = c.family; lines = c.lines.items } };

    ghost invariant = { λ c. IsKept c.family c.lines.items c.spawned c.reaped c.left c.operations };
}

impl Course {
    /// No process and no line.
    pub fn new(alloc: Global) -> Course
        ensures { result ≡ record { family = record { first = 0; parents = [] }; lines = [] } }
    {
        Course {
            family: Family::new(alloc),
            lines: Vec::new(alloc),
            spawned: [false; 64],
            reaped: [false; 64],
            left: [false; 64],
            operations: 0,
        }
    }

    /// The header has so many processes. There is no child and no line yet.
    pub fn set_first(&mut self, first: u32)
        requires no_child { self.old.family.parents ≡ [] }
        requires no_line { self.old.lines ≡ [] }
        requires few { first ≤ 64 }
        ensures { self.new ≡ record { family = record { first = first; parents = [] }; lines = [] } }
    {
        self.family.set_first(first);
    }

    /// Adds a child of that process. There is no line yet.
    pub fn add_child(&mut self, parent: Pid) -> Result<(), NoMemory>
        requires no_line { self.old.lines ≡ [] }
        requires few { self.old.family.first + length self.old.family.parents < 64 }
        requires before { parent.0 < self.old.family.first + length self.old.family.parents }
        ensures { OnOk result (self.new ≡ with_child self.old parent) }
    {
        self.family.add(parent)
    }

    /// How many children there are.
    pub fn child_count(&self) -> usize
        ensures count { result ≡ length self.now.family.parents }
        ensures few { self.now.family.first + result ≤ 64 }
    {
        self.family.len()
    }

    /// How many processes there are, children among them.
    pub fn process_count(&self) -> usize
        ensures count { result ≡ self.now.family.first + length self.now.family.parents }
        ensures few { result ≤ 64 }
    {
        self.family.process_count()
    }

    /// The process of the child at that place.
    pub fn child_at(&self, place: usize) -> Pid
        requires { place < length self.now.family.parents }
        ensures process { result.0 ≡ self.now.family.first + place }
        ensures few { result.0 < 64 }
    {
        self.family.child_at(place)
    }

    /// Whether there is a line.
    pub fn has_lines(&self) -> bool
        ensures { result ≡ nat_lt 0 (length self.now.lines) }
    {
        !self.lines.is_empty()
    }

    /// Whether a line is an exit of the process.
    pub fn has_left(&self, pid: Pid) -> bool
        requires { pid.0 < 64 }
        ensures { result ≡ has_left self.now.lines pid.0 }
    {
        self.left[pid.0 as usize]
    }

    /// Whether the process is one of the header, or was spawned and not reaped.
    pub fn is_running(&self, pid: Pid) -> bool
        requires { pid.0 < 64 }
        ensures { result ≡ is_running self.now.family self.now.lines pid.0 }
    {
        let at = pid.0 as usize;
        !self.family.is_child(pid) || (self.spawned[at] && !self.reaped[at])
    }

    /// Whether whom the deed speaks of is a child of that process.
    pub fn is_of_parent(&self, pid: Pid, deed: Deed) -> bool
        requires { IsDeedOf self.now.family deed }
        ensures { result ≡ is_of_parent self.now.family pid.0 deed }
    {
        match deed {
            Deed::Does(_) => true,
            Deed::Spawns { child, max: _ } | Deed::Reaps { child } => {
                self.family.is_parent(pid, child)
            }
        }
    }

    /// Whether the deed's time has come: a child is spawned once, and reaped once after that.
    pub fn is_due(&self, deed: Deed) -> bool
        requires { IsDeedOf self.now.family deed }
        ensures { result ≡ is_due self.now.family self.now.lines deed }
    {
        match deed {
            Deed::Does(_) => true,
            Deed::Spawns { child, max: _ } => !self.spawned[child.0 as usize],
            Deed::Reaps { child } => {
                self.spawned[child.0 as usize] && !self.reaped[child.0 as usize]
            }
        }
    }

    /// Whom the deed reaps, in order; nobody where it is no reaping.
    pub fn reaped_by(&self, alloc: Global, deed: Deed) -> Result<Vec<Pid>, NoMemory>
        requires { IsDeedOf self.now.family deed }
        ensures list { IfOk result (λ list. map (λ it. it.0) list.items ≡ reaped_by self.now.family deed) }
        ensures known { IfOk result (λ list. AllByRecursion (λ p. p < 64) (map (λ it. it.0) list.items)) }
    {
        match deed {
            Deed::Does(_) | Deed::Spawns { child: _, max: _ } => Ok(Vec::new(alloc)),
            Deed::Reaps { child } => self.family.reaped_with(alloc, child),
        }
    }

    /// How many operations the lines become.
    pub fn operation_count(&self) -> usize
        ensures count { result ≡ operations_so_far self.now.family self.now.lines }
        ensures few { result ≤ most_operations }
    {
        self.operations
    }

    /// Adds a line of the process. The list is whom the deed reaps.
    pub fn push(&mut self, pid: Pid, deed: Deed, reaped: &[Pid]) -> Result<(), NoMemory>
        requires process { pid.0 < 64 }
        requires known { IsDeedOf self.old.family deed }
        requires reaped { map (λ it. it.0) reaped.now ≡ reaped_by self.old.family deed }
        requires few { AllByRecursion (λ p. p < 64) (map (λ it. it.0) reaped.now) }
        requires room { operations_so_far self.old.family self.old.lines + weight self.old.family deed ≤ most_operations }
        ensures { OnOk result (self.new ≡ with_deed self.old pid deed) }
    {
        push(&mut self.lines, ScriptLine { pid, deed })?;
        self.operations += weight_of(deed, reaped);
        match deed {
            Deed::Does(op) => {
                let at = pid.0 as usize;
                self.left[at] = leaves(self.left[at], op);
            }
            Deed::Spawns { child, max: _ } => self.spawned[child.0 as usize] = true,
            Deed::Reaps { child: _ } => mark(&mut self.reaped, reaped),
        }
        Ok(())
    }

    /// The children and the lines.
    pub fn into_parts(self) -> (Family, Vec<ScriptLine>)
        ensures family { result.0 ≡ self.family }
        ensures lines { result.1.items ≡ self.lines }
    {
        let Course {
            family,
            lines,
            spawned: _,
            reaped: _,
            left: _,
            operations: _,
        } = self;
        (family, lines)
    }
}

/// Whether a process has left, where it did this operation last.
fn leaves(left: bool, op: Op) -> bool
    ensures { result ≡ (left || is_exit op) }
{
    left || matches!(op, Op::Exit)
}

/// How many operations a deed becomes that reaps these.
pub fn weight_of(deed: Deed, reaped: &[Pid]) -> usize
    ensures { result ≡ weight_by deed (length reaped.now) }
{
    match deed {
        Deed::Does(_) | Deed::Spawns { child: _, max: _ } => 1,
        Deed::Reaps { child: _ } => 2 * reaped.len(),
    }
}

/// Marks these processes.
fn mark(marks: &mut [bool; 64], pids: &[Pid])
    requires { AllByRecursion (λ p. p < 64) (map (λ it. it.0) pids.now) }
    ensures { AreMarked marks.old marks.new pids.now }
{
    for pid in pids {
        marks[pid.0 as usize] = true;
    }
}
