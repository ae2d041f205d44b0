//! The text of a trace.
ghost use Rattle.std.specs.Prelude.{◌≡◌, IfOk};
ghost use Rattle.k_trace.specs.Meaning.{meaning_of};
ghost use Rattle.k_trace.specs.Rules.{IsTrace};
ghost use Rattle.k_trace.specs.Spelling.{text};

use crate::declared::{add_heading, add_limits, add_procs, add_shared, add_types};
use crate::operations::add_operations;
use k_trace::Trace;
use k_types::NoMemory;
use std::alloc::Global;

/// The text of a trace, with its last line feed. It costs time and memory in proportion to the text.
///
/// # Errors
///
/// `NoMemory` where the text finds no room.
pub fn trace_text(alloc: Global, trace: &Trace) -> Result<Vec<u8>, NoMemory>
    requires { IsTrace (meaning_of trace.now) }
    ensures { IfOk result (λ v. v.items ≡ text (meaning_of trace.now)) }
{
    let mut bytes = Vec::new(alloc);
    add_heading(&mut bytes, &trace.setup)?;
    add_types(&mut bytes, &trace.names, &trace.setup.types)?;
    add_limits(&mut bytes, &trace.names, &trace.setup.limits)?;
    add_procs(&mut bytes, &trace.names, &trace.setup.procs)?;
    add_shared(&mut bytes, &trace.names)?;
    add_operations(&mut bytes, trace)?;
    Ok(bytes)
}
