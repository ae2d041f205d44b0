//! The registers of a process.
ghost use Rattle.std.specs.Prelude.{◌≡◌, ◌<◌, None, replicate, slice_index_or, slice_set, length};

use k_types::{Name, REGISTERS, Reg};
use std::marker::Model;

// The registers of a process.
#[derive(Drop)]
pub(crate) struct Registers {
    slots: [Option<Name>; REGISTERS as usize],
}

impl Model for Registers {
    ghost use Rattle.std.specs.Prelude.{List, Option};
    ghost use Rattle.k_types.specs.declared.names.Name.{Name};

    ghost Value = { List (Option Name) };

    ghost view = { λ r. r.slots };
}

impl Registers {
    // Registers that are all null.
    pub(crate) fn null() -> Registers
        ensures { result ≡ replicate 16 None }
    {
        Registers {
            slots: [None; REGISTERS as usize],
        }
    }

    pub(crate) fn get(&self, r: Reg) -> Option<Name>
        requires { r.0 < 16 }
        ensures { result ≡ slice_index_or self.now r.0 None }
    {
        self.slots[r.0 as usize]
    }

    pub(crate) fn all(&self) -> &[Option<Name>]
        ensures { result.now ≡ self.now }
    {
        &self.slots
    }

    pub(crate) fn set(&mut self, r: Reg, value: Option<Name>)
        requires { r.0 < 16 }
        ensures { self.new ≡ slice_set self.old r.0 value }
    {
        self.slots[r.0 as usize] = value;
    }
}
