//! The state with which a trace begins.
ghost use Rattle.std.specs.Prelude.{◌≡◌, ◌≤◌, [], ◌∷◌, IfOk, None, map, replicate, length};
ghost use Rattle.k_laws.specs.Setups.{AreSetupRules};
ghost use Rattle.k_types.specs.Names.{directory};
ghost use Rattle.k_types.specs.State.{opening, Refers};
ghost use Rattle.k_types.specs.Trace.{trace_of};

use crate::lists::PlainLists;
use crate::objects::{FieldValue, PlainObject};
use crate::registers::Registers;
use crate::stills::StillState;
use k_types::{LimitRow, Name, NoMemory, Phase, Seg, Serial, Setup};
use std::alloc::Global;

impl PlainLists {
    /// The machine's opening state, with a copy of the setup. `NoMemory` comes where the lists find no memory.
    pub fn opening(alloc: Global, setup: &Setup) -> Result<PlainLists, NoMemory>
        requires { AreSetupRules (trace_of setup.now [] []) }
        ensures { IfOk result (λ s. s ≡ record { setup = trace_of setup.now [] []; state = opening (trace_of setup.now [] []) }) }
    {
        let state = opening_state(alloc, setup)?;
        PlainLists::of(alloc, setup, state)
    }
}

// The lists of the opening state.
fn opening_state(alloc: Global, setup: &Setup) -> Result<StillState, NoMemory>
    requires { AreSetupRules (trace_of setup.now [] []) }
    ensures { IfOk result (λ s. s ≡ opening (trace_of setup.now [] [])) }
{
    let procs = setup.procs.len();
    let shared = setup.shared as usize;
    let objects = first_objects(alloc, setup.dir_fields as usize)?;
    let made = first_counts(alloc, procs + shared)?;
    let phases = vec![in alloc; Phase::Unmade; shared]?;
    let maxima = maxima_of(alloc, &setup.limits)?;
    let registers = null_registers(alloc, procs)?;
    let done = vec![in alloc; 0; procs]?;
    Ok(StillState {
        objects,
        made,
        registers,
        done,
        exits: Vec::new(alloc),
        shares: Vec::new(alloc),
        phases,
        ended: Vec::new(alloc),
        maxima,
    })
}

pub(crate) fn copy_of(alloc: Global, setup: &Setup) -> Result<Setup, NoMemory>
    ensures { IfOk result (λ s. trace_of s [] [] ≡ trace_of setup.now [] []) }
{
    Ok(Setup {
        version: setup.version,
        ceiling: setup.ceiling,
        dir_fields: setup.dir_fields,
        types: setup.types.copy(alloc)?,
        limits: setup.limits.as_slice().to_vec(alloc)?,
        procs: setup.procs.as_slice().to_vec(alloc)?,
        shared: setup.shared,
    })
}

// The directory alone, with so many fields.
#[tactic(auto, using(k_types::proofs::Lists::map_replicate))]
fn first_objects(alloc: Global, fields: usize) -> Result<Vec<PlainObject>, NoMemory>
    requires { fields ≤ 16 }
    ensures { IfOk result (λ v. v.items ≡ record { name = directory; ty = None; fields = replicate fields (Refers None) } ∷ []) }
{
    let mut objects = Vec::new(alloc);
    objects.push(PlainObject {
        name: Name {
            seg: Seg(0),
            serial: Serial(1),
        },
        ty: None,
        fields: vec![in alloc; FieldValue::Reference(None); fields]?,
    })?;
    Ok(objects)
}

// One serial given in the kernel's segment, and none in the others.
fn first_counts(alloc: Global, others: usize) -> Result<Vec<u32>, NoMemory>
    requires { others ≤ 128 }
    ensures { IfOk result (λ v. v.items ≡ 1 ∷ replicate others 0) }
{
    let mut made = vec![in alloc; 0; others + 1]?;
    made[0] = 1;
    Ok(made)
}

pub(crate) fn null_registers(alloc: Global, procs: usize) -> Result<Vec<Registers>, NoMemory>
    ensures { IfOk result (λ v. v.items ≡ replicate procs (replicate 16 None)) }
{
    let mut registers = Vec::new(alloc);
    for _ in 0..procs {
        registers.push(Registers::null())?;
    }
    Ok(registers)
}

fn maxima_of(alloc: Global, limits: &[LimitRow]) -> Result<Vec<u64>, NoMemory>
    ensures { IfOk result (λ v. v.items ≡ map (λ row. row.max) limits.now) }
{
    Ok(limits.iter().map(|row| row.max).collect(alloc)?)
}
