//! Which objects were there at a time, told by their names.
ghost use Rattle.std.specs.Prelude.{◌≡◌, ◌+◌, ℕ};
ghost use Rattle.k_space.specs.Bounds.{bound_in, is_covered, nothing};

use k_types::{Name, Seg};

/// Objects that were there at a time: those of one segment with lower serials, and all objects of the other segments, or none. These
/// it tells as long as no other segment makes one.
#[derive(Clone, Copy)]
pub struct Bound {
    pub own: Seg,
    pub below: u64,
    pub others: bool,
}

impl Bound {
    /// No object.
    pub fn nothing(own: Seg) -> Bound
        ensures { result ≡ nothing own.0 }
    {
        Bound {
            own,
            below: 0,
            others: false,
        }
    }

    /// Whether an object of that name is one of them.
    pub fn covers(self, name: Name) -> bool
        ensures { result ≡ is_covered self name }
    {
        if name.seg.0 == self.own.0 {
            u64::from(name.serial.0) < self.below
        } else {
            self.others
        }
    }

    /// Those of that segment are the ones with lower serials, where it has given so many.
    pub(crate) fn below_in(self, seg: Seg, made: u32) -> u64
        ensures { (count : ℕ) → count ≡ made + 1 → result ≡ bound_in self seg.0 count }
    {
        if seg.0 == self.own.0 {
            self.below
        } else if self.others {
            u64::from(made) + 1
        } else {
            0
        }
    }
}
