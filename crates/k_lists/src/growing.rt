//! More numbers for lists.
ghost use Rattle.std.specs.Prelude.{◌≡◌, ◌<◌, ◌≤◌, ℕ, length, vec_capacity};
ghost use Rattle.k_lists.specs.Lists.{AreApart};
ghost use Rattle.k_lists.specs.Linked.{at};

use crate::lists::{Links, Lists};

/// Copies the links to the front of others.
fn copy_front(links: &[Links], into: &mut Vec<Links>)
    requires { length links.now ≤ length into.old.items }
    ensures len { length into.new.items ≡ length into.old.items }
    ensures front { (i : ℕ) → i < length links.now → at into.new.items i ≡ at links.now i }
    ensures capacity { vec_capacity into.new ≡ vec_capacity into.old }
{
    for i in 0..links.len() {
        into[i] = links[i];
    }
}

impl Lists {
    /// Is over the numbers of other lists from now on, which are no fewer. Whatever those lists have is forgotten, and the memory of the
    /// old numbers is given back. It takes none, and passes each old number once.
    pub fn move_into(&mut self, larger: Lists)
        requires { self.old.room ≤ larger.room }
        ensures moved { self.new ≡ record self.old { room = larger.room } }
        ensures apart { AreApart self.new }
    {
        let Lists { links, heads: _ } = larger;
        let mut links = links;
        copy_front(&self.links, &mut links);
        self.links = links;
    }
}
