//! What comes of an operation that is lent some of the cells.
ghost use Rattle.std.specs.Prelude.{◌≡◌, ◌↔◌, ◌∷◌, [], IsTrue};
ghost use Rattle.k_types.specs.declared.names.Heap.TheVariants.{Kernel, Shared};
ghost use Rattle.k_operate.specs.Reaching.{cells_of};

use k_operate::Reach;
use k_types::{Event, SharedId};

/// What comes of an operation that is lent some of the cells that it may touch.
#[derive(Clone, Copy, Debug, PartialEq, Eq)]
pub enum Came {
    /// It was done, with this event.
    Did(Event),
    /// It touches other cells than those that are lent, and nothing has changed.
    Needs(Reach),
}

/// Whether no cell is touched but the process's own.
pub(crate) fn is_own(reach: Reach) -> bool
    ensures { IsTrue result ↔ (cells_of reach ≡ []) }
{
    match reach {
        Reach::Own => true,
        Reach::Kernel | Reach::Shared(_) | Reach::End(_) => false,
    }
}

/// Whether the kernel's cell alone is touched beside the process's own.
pub(crate) fn is_kernel(reach: Reach) -> bool
    ensures { IsTrue result ↔ (cells_of reach ≡ Kernel ∷ []) }
{
    match reach {
        Reach::Kernel => true,
        Reach::Own | Reach::Shared(_) | Reach::End(_) => false,
    }
}

/// Whether the cell of that shared heap alone is touched beside the process's own.
pub(crate) fn is_shared(reach: Reach, id: SharedId) -> bool
    ensures { IsTrue result ↔ (cells_of reach ≡ Shared id ∷ []) }
{
    match reach {
        Reach::Shared(other) => other.0 == id.0,
        Reach::Own | Reach::Kernel | Reach::End(_) => false,
    }
}
