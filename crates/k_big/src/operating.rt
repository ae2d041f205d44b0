//! The operations of the processes.
ghost use Rattle.std.specs.Prelude.{◌≡◌, ◌<◌, ◌≤◌, ◌++◌, IfOk, OnOk, map, replicate};
ghost use Rattle.std.specs.List.{flat_map};
ghost use Rattle.k_types.specs.Numbers.{numbers_below};
ghost use Rattle.k_big.specs.Workload.{collected, ending, kept, most_objects, operations_for, processes, round, turns};

use k_io::NoMemory;
use k_types::{Op, Pid, Reg, TypeId};
use std::alloc::Global;

/// The number of processes.
const PROCESSES: u32 = 8;

/// The one type, of two references and a number.
const NODE: TypeId = TypeId(0);

/// The register of the newest object.
const NEWEST: Reg = Reg(0);

/// The register of the object before it.
const BEFORE: Reg = Reg(1);

/// The register of the directory.
const DIRECTORY: Reg = Reg(15);

/// Puts each fifth object into the process's field of the directory.
fn push_kept(ops: &mut Vec<Op>, process: u32, object: u32) -> Result<(), NoMemory>
    ensures { OnOk result (ops.new.items ≡ ops.old.items ++ kept process object) }
{
    if object % 5 == 0 {
        ops.push(Op::Store {
            base: DIRECTORY,
            field: process,
            value: NEWEST,
        })?;
    }
    Ok(())
}

/// Behind each tenth object, lets go of it and of the one before it, and collects.
fn push_collected(ops: &mut Vec<Op>, object: u32) -> Result<(), NoMemory>
    requires { object < most_objects }
    ensures { OnOk result (ops.new.items ≡ ops.old.items ++ collected object) }
{
    if (object + 1) % 10 == 0 {
        ops.extend_from_slice(&[
            Op::Clear { reg: NEWEST },
            Op::Clear { reg: BEFORE },
            Op::Collect,
        ])?;
    }
    Ok(())
}

/// Makes an object, links the one before it to it, and numbers it.
fn push_round(ops: &mut Vec<Op>, process: u32, object: u32) -> Result<(), NoMemory>
    requires { object < most_objects }
    ensures { OnOk result (ops.new.items ≡ ops.old.items ++ round process object) }
{
    ops.extend_from_slice(&[
        Op::New {
            reg: NEWEST,
            ty: NODE,
        },
        Op::Store {
            base: NEWEST,
            field: 0,
            value: BEFORE,
        },
        Op::Move {
            reg: BEFORE,
            from: NEWEST,
        },
        Op::Put {
            base: NEWEST,
            field: 2,
            number: u64::from(object),
        },
    ])?;
    push_kept(ops, process, object)?;
    push_collected(ops, object)
}

/// Ends every other process.
fn push_ending(ops: &mut Vec<Op>, process: u32) -> Result<(), NoMemory>
    ensures { OnOk result (ops.new.items ≡ ops.old.items ++ ending process) }
{
    if process % 2 == 0 {
        ops.push(Op::Exit)?;
    }
    Ok(())
}

/// The operations of a process. There are fewer than five for each object, and two.
#[tactic(auto, unfolding(crate::specs::Workload::operations_for))]
fn operations_for(alloc: Global, objects: u32, process: u32) -> Result<Vec<Op>, NoMemory>
    requires { objects ≤ most_objects }
    ensures { IfOk result (λ ops. ops.items ≡ operations_for objects process) }
{
    let mut ops = Vec::with_capacity(alloc, 5 * objects as usize + 2)?;
    ops.push(Op::Dir { reg: DIRECTORY })?;
    for object in 0..objects {
        push_round(&mut ops, process, object)?;
    }
    push_ending(&mut ops, process)?;
    Ok(ops)
}

/// Adds the process to the order of the file, so many times.
fn push_turns(order: &mut Vec<Pid>, pid: Pid, times: usize) -> Result<(), NoMemory>
    ensures { OnOk result (order.new.items ≡ order.old.items ++ replicate times pid) }
{
    for _ in 0..times {
        order.push(pid)?;
    }
    Ok(())
}

/// The operations of each process, and the order of the file, in which they stand one process behind the other.
pub(crate) fn all_operations(
    alloc: Global,
    objects: u32,
) -> Result<(Vec<Vec<Op>>, Vec<Pid>), NoMemory>
    requires { objects ≤ most_objects }
    ensures operations { IfOk result (λ parts. map (λ ops. ops.items) parts.0.items ≡ map (operations_for objects) (numbers_below processes)) }
    ensures order { IfOk result (λ parts. map (λ pid. pid.0) parts.1.items ≡ flat_map (turns objects) (numbers_below processes)) }
{
    let mut lists = Vec::new(alloc);
    let mut order = Vec::new(alloc);
    for process in 0..PROCESSES {
        let ops = operations_for(alloc, objects, process)?;
        push_turns(&mut order, Pid(process), ops.len())?;
        lists.push(ops)?;
    }
    Ok((lists, order))
}
