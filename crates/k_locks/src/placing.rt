//! Cells that find the places of their own numbers.
ghost use Rattle.std.specs.Prelude.{Some, [], map, length, vec_capacity, ◌≡◌, ◌≤◌};
ghost use Rattle.k_locks.specs.Places.{AreFilled, CanPlace, CanPlaceShared, HasPlaced, HasPlacedShared};
ghost use Rattle.k_process.specs.Worlds.{WorldValue};

use k_process::{Book, Process, SharedCell};

/// Puts the process in the place of its number. No other is there, since no two notes are of one cell.
pub(crate) fn place_process(
    places: &mut Vec<Option<Process>>,
    book: &mut Book,
    mut process: Process,
)
    ghost world: { WorldValue }
    requires { CanPlace world places.old.items book.old process }
    ensures { HasPlaced world places.old.items places.new.items book.old book.new }
{
    let at = process.cell.pid().0 as usize;
    match places[at].take() {
        None => places[at] = Some(process),
        Some(mut other) => {
            book.apart(process.cell.note_mut(), other.cell.note_mut());
            unreachable!()
        }
    }
}

/// Puts the cell of a shared heap in the place of its number.
pub(crate) fn place_shared(
    places: &mut Vec<Option<SharedCell>>,
    book: &mut Book,
    mut shared: SharedCell,
)
    ghost world: { WorldValue }
    requires { CanPlaceShared world places.old.items book.old shared }
    ensures { HasPlacedShared world places.old.items places.new.items book.old book.new }
{
    let at = shared.id().0 as usize;
    match places[at].take() {
        None => places[at] = Some(shared),
        Some(mut other) => {
            book.apart(shared.note_mut(), other.note_mut());
            unreachable!()
        }
    }
}

/// What stands in the places, each of which is taken, in order. It takes no memory: `into` has room.
pub(crate) fn in_order<T: Drop>(places: Vec<Option<T>>, mut into: Vec<T>) -> Vec<T>
    requires filled { AreFilled places.items }
    requires empty { into.items ≡ [] }
    requires room { length places.items ≤ vec_capacity into }
    ensures { map Some result.items ≡ places.items }
{
    for place in places {
        let Some(item) = place else { unreachable!() };
        into.push_reserved(item);
    }
    into
}
