//! What the passes of the cell know.
use crate::sample::Sample;
use std::collections::LinkedList;

/// What a watcher has taken, in order, and the least number of events that a later sample can have. No value of it is made.
pub struct Taken {
    pub samples: LinkedList<Sample>,
    pub least: u64,
}

/// What a pass knows: the pen what was published, and the watchers that it has in hand. While the cell is made there is one
/// pass, which knows nothing. No value of it is made.
pub enum View {
    Opening,
    Pen {
        samples: LinkedList<Sample>,
        in_hand: LinkedList<Taken>,
    },
    Watching(Taken),
    Spent,
}
