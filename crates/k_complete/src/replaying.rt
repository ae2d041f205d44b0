//! The operations of a trace, one after the other in the order of the file.
ghost use Rattle.k_complete.specs.Replaying.{CanDoLine, CanReplay, HasDoneLine, HasReplayed};
ghost use Rattle.k_operate.specs.k_process.Heaps.{value_of};
ghost use Rattle.k_operate.specs.k_process.Worlds.{WorldValue};

use crate::closing::close_all;
use crate::ending::meet_all;
use crate::placed::do_at;
use k_operate::{Heaps, meet_heap, next, publish_all};
use k_types::Pid;

/// Does the next operation of the process of that number, if it has one, and publishes its events.
fn do_line(heaps: &mut Heaps, at: usize)
    ghost world: { WorldValue }
    requires { CanDoLine world (value_of heaps.old) at }
    ensures { HasDoneLine world at (value_of heaps.old) (value_of heaps.new) }
{
    meet_heap(&mut heaps.processes[at].cell, &mut heaps.book);
    match next(&heaps.processes[at]) {
        Some(op) => {
            do_at(heaps, at, &op);
            publish_all(&mut heaps.processes[at], &mut heaps.book);
        }
        None => {}
    }
}

/// Does all operations in that order, each with all its events, then what comes last where every process has ended, and has each
/// cell meet the journal. A place in the order whose process has ended by then gives no event. The cost is that of the operations
/// and of what comes last, beside one meeting for each. It takes no memory.
pub fn replay(heaps: &mut Heaps, order: &[Pid])
    ghost world: { WorldValue }
    requires { CanReplay world (value_of heaps.old) order.now }
    ensures { HasReplayed world (value_of heaps.new) }
{
    for pid in order {
        do_line(heaps, pid.0 as usize);
    }
    close_all(&mut heaps.kernel, &mut heaps.shared, &mut heaps.book);
    meet_all(heaps);
}
