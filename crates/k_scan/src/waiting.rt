//! Names that wait on the list of work.
ghost use Rattle.std.specs.Prelude.{◌≡◌, option_copied};
ghost use Rattle.k_types.specs.State.{object_at};

use k_state::{PlainLists, PlainObject, is_same_name};
use k_types::Name;
use std::marker::Model;

// The name of an object, with the place where the object was found in its segment.
#[derive(Drop)]
pub(crate) struct Waiting {
    name: Name,
    at: usize,
}

impl Model for Waiting {
    ghost use Rattle.k_types.specs.declared.names.Name.{Name};

    ghost Value = { Name };

    ghost view = { λ w. w.name };
}

impl Waiting {
    pub(crate) fn at(name: Name, at: usize) -> Waiting
        ensures { result ≡ name }
    {
        Waiting { name, at }
    }

    // The object of that name: the one at the place, or else the one that is found by halving.
    pub(crate) fn object_in<'a>(&self, lists: &'a PlainLists) -> Option<&'a PlainObject>
        ensures { option_copied result ≡ object_at lists.now.state.objects self.now }
    {
        let _shape = lists.setup();
        match lists.objects_in(self.name.seg).get(self.at) {
            Some(object) if is_same_name(object.name(), self.name) => Some(object),
            _ => lists.object(self.name),
        }
    }
}
