//! Who is told the names of the objects that are freed.
ghost use Rattle.std.specs.Prelude.{ℕ, ◌≡◌, ◌<◌, ◌≤◌, ◌++◌, ◌∷◌, [], List, length, vec_capacity, IfOk};
ghost use Rattle.k_laws.specs.k_types.declared.names.Name.{Name as Named};

use k_laws::{Name, NoMemory};
use std::alloc::Global;
use std::marker::Model;

/// What is told the name of each object that is freed.
pub trait Listener {
    // The names that it keeps, and how many it has room for.
    ghost heard: { Self → List Named };

    ghost room: { Self → ℕ };

    /// One more object is freed.
    fn hear(&mut self, name: Name)
        ensures room { room self.new ≡ room self.old }
        ensures heard { length (heard self.old) < room self.old → heard self.new ≡ heard self.old ++ name ∷ [] };
}

/// Keeps no name. It takes no bytes, and to tell it a name costs nothing.
#[derive(Clone, Copy, Debug, PartialEq, Eq)]
pub struct Nobody;

impl Listener for Nobody {
    ghost heard = { λ _. [] };

    ghost room = { λ _. 0 };

    fn hear(&mut self, _name: Name) {}
}

/// The names of objects that were freed, as far as there is room for them.
#[derive(Drop)]
pub struct Freed {
    names: Vec<Name>,
    room: u32,
}

impl Model for Freed {
    ghost use Rattle.std.specs.Prelude.{◌≡◌, vec_capacity};
    ghost use Rattle.k_mark.specs.Listening.{FreedNames};

    ghost Value = { FreedNames };

    ghost view = { λ f. record { names = f.names.items; room = f.room } };

    ghost invariant = { λ f. vec_capacity f.names ≡ f.room };
}

/// Copies the names into a list that has none yet.
fn copy_names(names: &[Name], into: &mut Vec<Name>)
    requires empty { into.old.items ≡ [] }
    requires room { length names.now ≤ vec_capacity into.old }
    ensures items { into.new.items ≡ names.now }
    ensures capacity { vec_capacity into.new ≡ vec_capacity into.old }
{
    for name in names {
        into.push_reserved(*name);
    }
}

impl Freed {
    /// No name, and room for so many, 8 bytes each. It takes the memory for all of them at once.
    ///
    /// # Errors
    ///
    /// `NoMemory` where there is none. No other call takes memory.
    pub fn make(alloc: Global, room: u32) -> Result<Freed, NoMemory>
        ensures { IfOk result (λ f. f ≡ record { names = []; room = room }) }
    {
        Ok(Freed {
            names: Vec::with_capacity(alloc, room as usize)?,
            room,
        })
    }

    /// The names, in any order.
    pub fn names(&self) -> &[Name]
        ensures { result.now ≡ self.now.names }
    {
        &self.names
    }

    /// Has the room of the other list, which has no name, from now on. The names stay. It passes each of them,
    /// takes no memory, and gives back that of the old room.
    pub fn move_into(&mut self, larger: Freed)
        requires empty { larger.names ≡ [] }
        requires room { length self.old.names ≤ larger.room }
        ensures { self.new ≡ record self.old { room = larger.room } }
    {
        let Freed { names, room } = larger;
        let mut names = names;
        copy_names(&self.names, &mut names);
        self.names = names;
        self.room = room;
    }

    /// Forgets all names.
    pub fn clear(&mut self)
        ensures { self.new ≡ record self.old { names = [] } }
    {
        self.names.clear();
    }
}

impl Listener for Freed {
    ghost heard = { λ f. f.names };

    ghost room = { λ f. f.room };

    fn hear(&mut self, name: Name) {
        if self.names.len() < self.room as usize {
            self.names.push_reserved(name);
        }
    }
}
