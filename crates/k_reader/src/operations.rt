//! The operations of each process, and their order in the file.
ghost use Rattle.std.specs.Prelude.{◌≡◌, ◌<◌, ◌++◌, ◌∷◌, ◌||◌, [], length, map, OnOk, OnErr, slice_index_or};
ghost use Rattle.k_limits.specs.k_types.TraceRules.{is_exit};
ghost use Rattle.k_trace.specs.Grown.{has_exit};
ghost use Rattle.k_trace.specs.OperationLists.{no_operations, with_no_operations, with_operation};

use k_io::NoMemory;
use k_limits::{Op, Pid};
use std::alloc::Global;
use std::marker::Model;

/// Whether there is an exit among operations, where the last of them is that one.
fn ends_with(ended: bool, op: Op) -> bool
    ensures { result ≡ (ended || is_exit op) }
{
    ended || matches!(op, Op::Exit)
}

/// The operations of up to 64 processes, and their order in the file. Whether a process has an
/// `exit` among its operations is kept beside them.
#[derive(Drop)]
pub struct Operations {
    ops: Vec<Vec<Op>>,
    order: Vec<Pid>,
    ended: [bool; 64],
}

impl Model for Operations {
    ghost use Rattle.std.specs.Prelude.{map};
    ghost use Rattle.k_trace.specs.OperationLists.{OperationLists, AreEnded};

    ghost Value = { OperationLists };

    ghost view = { λ o. record { operations = map (λ ops. ops.items) o.ops.items; order = map (λ pid. pid.0) o.order.items } };

    ghost invariant = { λ o. AreEnded (map (λ ops. ops.items) o.ops.items) o.ended };
}

impl Operations {
    pub fn new(alloc: Global) -> Operations
        ensures { result ≡ no_operations }
    {
        Operations {
            ops: Vec::new(alloc),
            order: Vec::new(alloc),
            ended: [false; 64],
        }
    }

    pub fn len(&self) -> usize
        ensures { result ≡ length self.now.order }
    {
        self.order.len()
    }

    pub fn has_exit(&self, pid: Pid) -> bool
        requires { pid.0 < 64 }
        ensures { result ≡ has_exit (slice_index_or self.now.operations pid.0 []) }
    {
        self.ended[pid.0 as usize]
    }

    pub fn add_process(&mut self, alloc: Global) -> Result<(), NoMemory>
        ensures ok { OnOk result (self.new ≡ with_no_operations self.old) }
        ensures unchanged { OnErr result (self.new ≡ self.old) }
    {
        self.ops.push(Vec::new(alloc))?;
        Ok(())
    }

    pub fn push(&mut self, pid: Pid, op: Op) -> Result<(), NoMemory>
        requires few { pid.0 < 64 }
        requires declared { pid.0 < length self.old.operations }
        ensures ok { OnOk result (self.new ≡ with_operation self.old pid.0 op) }
        ensures listed { length self.new.operations ≡ length self.old.operations }
    {
        self.order.push(pid)?;
        self.ops[pid.0 as usize].push(op)?;
        self.ended[pid.0 as usize] = ends_with(self.ended[pid.0 as usize], op);
        Ok(())
    }

    /// The operations of each process, and their order.
    pub fn into_parts(self) -> (Vec<Vec<Op>>, Vec<Pid>)
        ensures operations { map (λ ops. ops.items) result.0.items ≡ self.operations }
        ensures order { map (λ pid. pid.0) result.1.items ≡ self.order }
    {
        let Operations {
            ops,
            order,
            ended: _,
        } = self;
        (ops, order)
    }
}
