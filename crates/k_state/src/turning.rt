//! Exit items that pass to another heap or go.
ghost use Rattle.std.specs.Prelude.{◌≡◌, Option, length, map};
ghost use Rattle.k_state.specs.Marks.{staying_items, turned_items};
ghost use Rattle.k_types.specs.State.{ExitItem as Item};
ghost use Rattle.k_types.specs.Updates.{turn_exits};

use crate::items::ExitItem;
use crate::lists::PlainLists;
use k_types::Heap;

// Each item is of the heap that is given for it, or goes where none is given.
pub(crate) fn turn(exits: &mut Vec<ExitItem>, heaps: &[Option<Heap>])
    requires { length heaps.now ≡ length exits.old.items }
    ensures { exits.new.items ≡ staying_items heaps.now exits.old.items }
{
    let mut kept = 0;
    for i in 0..heaps.len() {
        if let Some(heap) = heaps[i] {
            let item = &mut exits[i];
            item.pass_to(heap);
            exits.swap(kept, i);
            kept += 1;
        }
    }
    exits.truncate(kept);
}

impl PlainLists {
    /// Each exit item is one of the heap that is given for it from now on, or goes where none is given. There is one for each
    /// item, in the order in which they stand; a heap's own item that stays is given that heap again.
    #[tactic(auto, unfolding(k_types::specs::Updates::turn_exits))]
    pub fn turn_exits(&mut self, heaps: &[Option<Heap>])
        requires { length heaps.now ≡ length self.old.state.exits }
        ensures setup { self.new.setup ≡ self.old.setup }
        ensures state { (turned : Item → Option Item) → turned_items heaps.now self.old.state.exits ≡ map turned self.old.state.exits →
            self.new.state ≡ turn_exits turned self.old.state }
    {
        self.exits.turn(heaps);
    }
}
