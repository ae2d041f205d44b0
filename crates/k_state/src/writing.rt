//! Fields written, and exit items added.
ghost use Rattle.std.specs.Prelude.{◌≡◌, OnErr, OnOk};
ghost use Rattle.k_state.specs.Contents.{content};
ghost use Rattle.k_state.specs.Rooms.{HasRoom};
ghost use Rattle.k_types.specs.Updates.{add_exit, write};

use crate::items::ExitItem;
use crate::lists::PlainLists;
use crate::objects::FieldValue;
use k_types::{Heap, Name, NoMemory};

impl PlainLists {
    /// The field of the object holds the value. Nothing changes where there is no such object or no such field.
    pub fn write(&mut self, x: Name, field: u32, value: FieldValue)
        ensures setup { self.new.setup ≡ self.old.setup }
        ensures state { self.new.state ≡ write x field (content value) self.old.state }
    {
        self.segments.write(x, field, value);
    }

    /// The heap has the exit item. `NoMemory` comes where it finds no memory, and leaves the state as it was.
    #[tactic(auto, unfolding(k_types::specs::Updates::add_exit))]
    pub fn add_exit(&mut self, heap: Heap, target: Name) -> Result<(), NoMemory>
        requires { HasRoom 1 self.old.state }
        ensures setup { self.new.setup ≡ self.old.setup }
        ensures ok { OnOk result (self.new.state ≡ add_exit heap target self.old.state) }
        ensures err { OnErr result (self.new ≡ self.old) }
    {
        if !self.exits.has(heap, target) {
            self.exits.push(ExitItem::of(heap, target))?;
        }
        Ok(())
    }
}
