//! What the other cell and the book remember of a stored reference.
ghost use Rattle.std.specs.Prelude.{option_map};
ghost use Rattle.k_pair.specs.Remembered.{CanRemember, HasRemembered, owners_of};
ghost use Rattle.k_types.specs.Names.{name_of};

use crate::names::StepName;
use crate::other::OtherCell;
use crate::phases::is_same;
use k_commit::Book;
use k_types::Link;

/// An object of the other heap refers to that from now on: the heap has the exit item to an object of another heap than itself,
/// which is entered where the item is new.
pub(crate) fn remember<O: OtherCell, S: StepName>(
    other: &mut O,
    book: &mut Book,
    value: Option<Link>,
)
    requires { CanRemember (owners_of S.before) (O.seen other.old) book.old (option_map name_of value) }
    ensures { HasRemembered (owners_of S.before) (O.seen other.old) (O.seen other.new) book.old book.new (option_map name_of value) }
{
    let Some(target) = value else {
        return;
    };
    if is_same(other.heap(), book.owner(target.seg)) {
        return;
    }
    if other.add_exit(target) {
        book.enter(target);
    }
}
