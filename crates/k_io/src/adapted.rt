//! What a source or sink over a reader or writer of the standard library answers.
ghost use Rattle.std.specs.Prelude.{◌≡◌, ◌≤◌};
ghost use Rattle.k_io.specs.Counting.{read_answer, write_answer};
ghost use Rattle.k_io.specs.Memory.{one_more};

use crate::{ReadFailed, WriteFailed};
use std::io;

/// One fault more, up to the last value of the count.
fn count_fault(faults: &mut u64)
    ensures counted { faults.new ≡ one_more faults.old }
    ensures later { faults.old ≤ faults.new }
{
    *faults = faults.saturating_add(1);
}

/// The answer of a source whose reader answered so. An error is one fault more.
pub(crate) fn read_answer(told: io::Result<usize>, faults: &mut u64) -> Result<usize, ReadFailed>
    ensures seen { (result, faults.new) ≡ read_answer told faults.old }
    ensures later { faults.old ≤ faults.new }
{
    match told {
        Ok(given) => Ok(given),
        Err(_) => {
            count_fault(faults);
            Err(ReadFailed)
        }
    }
}

/// The answer of a sink whose writer answered so. An error is one fault more, and so is taking nothing.
pub(crate) fn write_answer(told: io::Result<usize>, faults: &mut u64) -> Result<usize, WriteFailed>
    ensures seen { (result, faults.new) ≡ write_answer told faults.old }
    ensures later { faults.old ≤ faults.new }
{
    match told {
        Ok(0) | Err(_) => {
            count_fault(faults);
            Err(WriteFailed)
        }
        Ok(taken) => Ok(taken),
    }
}
