//! What a process is charged at the end of a run.
ghost use Rattle.std.specs.Prelude.{◌≡◌, ◌<◌};
ghost use Rattle.k_types.specs.Owners.{charge_of};
ghost use Rattle.k_types.specs.Trace.{process_count};
ghost use Rattle.k_outcome.specs.Ends.{last_state};

use crate::outcome::Outcome;
use k_types::{Heap, Pid, SharedId};

impl Outcome {
    /// The bytes of the process's heap and of each heap that it shares; nothing once it has ended. It looks at each shared heap.
    pub(crate) fn charge_of(&self, pid: Pid) -> u64
        requires { pid.0 < process_count self.now.setup }
        ensures { result ≡ charge_of self.now.setup (last_state self.now) pid.0 }
    {
        let cells = self.cells();
        let book = cells.book();
        if !book.lives(pid) {
            return 0;
        }
        let mut sum = cells.bytes(Heap::User(pid));
        let heaps = self.setup().shared;
        for id in 0..heaps {
            if book.shares(pid, SharedId(id)) {
                sum += book.bytes_of(SharedId(id));
            }
        }
        sum
    }
}
