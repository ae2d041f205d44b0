//! The translation of a script into a trace of the second version.
ghost use Rattle.std.specs.Prelude.{◌≡◌, ◌<◌, ◌+◌, ◌++◌, length, map, IfOk, OnOk};
ghost use Rattle.std.specs.List.{AllByRecursion, flat_map};
ghost use Rattle.k_types.specs.Trace.{process_count};
ghost use Rattle.k_trace.specs.Meaning.{meaning_of};
ghost use Rattle.k_trace.specs.Rules.{IsTrace};
ghost use Rattle.k_spawn.specs.Families.{children};
ghost use Rattle.k_spawn.specs.Scripts.{family};
ghost use Rattle.k_spawn.specs.Translated.{IsLineOf, idle, with_lines, with_operations};
ghost use Rattle.k_spawn.specs.Translation.{child_row, ending, limit_id, operations_of_deed, translation};

use crate::script::{Deed, Script, ScriptLine};
use k_reader::{Operations, SECOND_VERSION};
use k_trace::{Names, Trace};
use k_types::{LimitId, LimitRow, NoMemory, Op, Pid, Setup, SharedId, TypeId, push};
use std::alloc::Global;

/// The limits of the header, and then that of each child: a hard one of maximum 0 under the limit of its parent.
fn limits(alloc: Global, script: &Script) -> Result<Vec<LimitRow>, NoMemory>
    ensures { IfOk result (λ rows. rows.items ≡ script.now.header.trace.limits ++ map (child_row script.now) (children (family script.now))) }
{
    let mut rows = script.header.setup.limits.as_slice().to_vec(alloc)?;
    for place in 0..script.family.len() {
        let row = LimitRow {
            parent: Some(script.limit_of(script.family.parent_at(place))),
            hard: true,
            max: 0,
        };
        push(&mut rows, row)?;
    }
    Ok(rows)
}

/// The limit of each process.
fn processes(alloc: Global, script: &Script) -> Result<Vec<LimitId>, NoMemory>
    ensures { IfOk result (λ procs. procs.items ≡ script.now.header.trace.procs ++ map (limit_id script.now) (children (family script.now))) }
{
    let mut procs = script.header.setup.procs.as_slice().to_vec(alloc)?;
    for place in 0..script.family.len() {
        push(&mut procs, script.limit_of(script.family.child_at(place)))?;
    }
    Ok(procs)
}

/// The names of the types.
fn type_names(alloc: Global, names: &Names) -> Result<Vec<Vec<u8>>, NoMemory>
    ensures { IfOk result (λ list. map (λ name. name.items) list.items ≡ names.now.types) }
{
    let mut list = Vec::new(alloc);
    for number in 0..names.type_count() {
        let name = Vec::from_slice(alloc, names.type_name(TypeId(number as u32)))?;
        push(&mut list, name)?;
    }
    Ok(list)
}

/// The names of the header's limits.
fn header_limit_names(alloc: Global, names: &Names) -> Result<Vec<Vec<u8>>, NoMemory>
    ensures { IfOk result (λ list. map (λ name. name.items) list.items ≡ names.now.limits) }
{
    let mut list = Vec::new(alloc);
    for number in 0..names.limit_count() {
        let name = Vec::from_slice(alloc, names.limit_name(LimitId(number as u32)))?;
        push(&mut list, name)?;
    }
    Ok(list)
}

/// The names of the header's processes.
fn header_process_names(alloc: Global, names: &Names) -> Result<Vec<Vec<u8>>, NoMemory>
    ensures { IfOk result (λ list. map (λ name. name.items) list.items ≡ names.now.procs) }
{
    let mut list = Vec::new(alloc);
    for number in 0..names.proc_count() {
        let name = Vec::from_slice(alloc, names.proc_name(Pid(number as u32)))?;
        push(&mut list, name)?;
    }
    Ok(list)
}

/// The names of the shared heaps.
fn shared_names(alloc: Global, names: &Names) -> Result<Vec<Vec<u8>>, NoMemory>
    ensures { IfOk result (λ list. map (λ name. name.items) list.items ≡ names.now.shared) }
{
    let mut list = Vec::new(alloc);
    for number in 0..names.shared_count() {
        let name = Vec::from_slice(alloc, names.shared_name(SharedId(number as u32)))?;
        push(&mut list, name)?;
    }
    Ok(list)
}

/// Adds the names of the children to a list.
fn add_child_names(alloc: Global, script: &Script, list: &mut Vec<Vec<u8>>) -> Result<(), NoMemory>
    ensures { OnOk result (map (λ name. name.items) list.new.items ≡ map (λ name. name.items) list.old.items ++ script.now.child_names) }
{
    for place in 0..script.child_names.len() {
        let name = Vec::from_slice(alloc, script.child_names.name(place))?;
        push(list, name)?;
    }
    Ok(())
}

/// The names of the translation: the children among the limits and among the processes.
fn names(alloc: Global, script: &Script) -> Result<Names, NoMemory>
    requires { IsTrace (translation script.now) }
    ensures { IfOk result (λ names. names ≡ (translation script.now).names) }
{
    let header = &script.header.names;
    let types = type_names(alloc, header)?;
    let mut limits = header_limit_names(alloc, header)?;
    add_child_names(alloc, script, &mut limits)?;
    let mut procs = header_process_names(alloc, header)?;
    add_child_names(alloc, script, &mut procs)?;
    let shared = shared_names(alloc, header)?;
    Names::make(alloc, &types, &limits, &procs, &shared)
}

/// Adds the end of each of these children, in order, to the operations of a process.
fn add_endings(
    script: &Script,
    pid: Pid,
    reaped: &[Pid],
    operations: &mut Operations,
) -> Result<(), NoMemory>
    requires process { pid.0 < 64 }
    requires listed { pid.0 < length operations.old.operations }
    requires known { AllByRecursion (λ it. it.0 < process_count script.now.header.trace + length script.now.parents) reaped.now }
    ensures added { OnOk result (operations.new ≡ with_operations operations.old pid.0 (flat_map (λ it. ending script.now it.0) reaped.now)) }
    ensures count { length operations.new.operations ≡ length operations.old.operations }
{
    for child in reaped {
        operations.push(pid, Op::Kill { target: *child })?;
        let limit = script.limit_of(*child);
        operations.push(pid, Op::Resize { limit, max: 0 })?;
    }
    Ok(())
}

/// Adds the operations that a line becomes.
fn add_line(
    alloc: Global,
    script: &Script,
    line: ScriptLine,
    operations: &mut Operations,
) -> Result<(), NoMemory>
    requires line { IsLineOf script.now line }
    requires few { line.pid.0 < 64 }
    requires listed { line.pid.0 < length operations.old.operations }
    ensures added { OnOk result (operations.new ≡ with_operations operations.old line.pid.0 (operations_of_deed script.now line.deed)) }
    ensures count { length operations.new.operations ≡ length operations.old.operations }
{
    match line.deed {
        Deed::Does(op) => operations.push(line.pid, op),
        Deed::Spawns { child, max } => {
            let limit = script.limit_of(child);
            operations.push(line.pid, Op::Resize { limit, max })
        }
        Deed::Reaps { child } => {
            let reaped = script.family.reaped_with(alloc, child)?;
            add_endings(script, line.pid, &reaped, operations)
        }
    }
}

/// So many processes without operations.
fn idle(alloc: Global, count: usize) -> Result<Operations, NoMemory>
    ensures { IfOk result (λ operations. operations ≡ idle count) }
{
    let mut operations = Operations::new(alloc);
    for _ in 0..count {
        operations.add_process(alloc)?;
    }
    Ok(operations)
}

/// The operations that the lines become.
fn operations(alloc: Global, script: &Script) -> Result<Operations, NoMemory>
    requires rules { IsTrace (translation script.now) }
    requires lines { AllByRecursion (IsLineOf script.now) script.now.lines }
    ensures { IfOk result (λ operations. operations ≡ with_lines script.now (idle (process_count script.now.header.trace + length script.now.parents)) script.now.lines) }
{
    let mut operations = idle(alloc, script.process_count())?;
    for line in &script.lines {
        add_line(alloc, script, *line, &mut operations)?;
    }
    Ok(operations)
}

/// The trace of the second version that the script stands for.
///
/// Each child is a hard limit of maximum 0 under the limit of its parent, behind the header's limits, and a process on that limit,
/// behind the header's processes. A `spawn` becomes a `resize`, and a `reap` a `kill` and a `resize` to 0 for each whom it ends, those
/// below before those above. Time and memory go with the number of operations.
///
/// # Errors
///
/// `NoMemory` where the trace finds no room.
pub fn translate(alloc: Global, script: &Script) -> Result<Trace, NoMemory>
    requires rules { IsTrace (translation script.now) }
    requires lines { AllByRecursion (IsLineOf script.now) script.now.lines }
    ensures { IfOk result (λ t. meaning_of t ≡ translation script.now) }
{
    let limits = limits(alloc, script)?;
    let procs = processes(alloc, script)?;
    let names = names(alloc, script)?;
    let types = script.header.setup.types.copy(alloc)?;
    let (ops, order) = operations(alloc, script)?.into_parts();
    Ok(Trace {
        setup: Setup {
            version: SECOND_VERSION,
            ceiling: script.header.setup.ceiling,
            dir_fields: script.header.setup.dir_fields,
            types,
            limits,
            procs,
            shared: script.header.setup.shared,
        },
        names,
        ops,
        order,
    })
}
