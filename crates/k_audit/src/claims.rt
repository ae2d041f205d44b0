//! What a snapshot claims beside its state.
ghost use Rattle.std.specs.Prelude.{◌≡◌, ◌++◌, ◌∷◌, [], OnErr, OnOk};
ghost use Rattle.k_audit.specs.Reading.{no_claims};

use k_io::{NoMemory, push};
use k_types::Heap;
use std::alloc::Global;
use std::marker::Model;

/// What a snapshot claims beside its state: the owner of each object, the kernel's bytes and its ceiling, the use of each limit, the
/// charge of each process, and the bytes of each shared heap.
#[derive(Drop)]
pub struct Claimed {
    pub owners: Vec<Heap>,
    pub kernel: u64,
    pub ceiling: u64,
    pub uses: Vec<u64>,
    pub charges: Vec<u64>,
    pub shared_bytes: Vec<u64>,
}

impl Model for Claimed {
    ghost use Rattle.k_audit.specs.Claims.{Claims};

    ghost Value = { Claims };

    ghost view = { λ c. record {
      owners = c.owners.items;
      kernel = c.kernel;
      ceiling = c.ceiling;
      uses = c.uses.items;
      charges = c.charges.items;
      shared_bytes = c.shared_bytes.items;
    } };
}

impl Claimed {
    /// Nothing is claimed yet.
    pub fn nothing(alloc: Global) -> Claimed
        ensures { result ≡ no_claims }
    {
        Claimed {
            owners: Vec::new(alloc),
            kernel: 0,
            ceiling: 0,
            uses: Vec::new(alloc),
            charges: Vec::new(alloc),
            shared_bytes: Vec::new(alloc),
        }
    }

    /// Adds the owner of the next object.
    pub fn add_owner(&mut self, owner: Heap) -> Result<(), NoMemory>
        ensures ok { OnOk result (self.new ≡ record self.old { owners = self.old.owners ++ owner ∷ [] }) }
        ensures err { OnErr result (self.new ≡ self.old) }
    {
        push(&mut self.owners, owner)
    }

    /// Sets the kernel's bytes and its ceiling.
    pub fn set_kernel(&mut self, bytes: u64, ceiling: u64)
        ensures { self.new ≡ record self.old { kernel = bytes; ceiling = ceiling } }
    {
        self.kernel = bytes;
        self.ceiling = ceiling;
    }

    /// Adds the use of the next limit.
    pub fn add_use(&mut self, used: u64) -> Result<(), NoMemory>
        ensures ok { OnOk result (self.new ≡ record self.old { uses = self.old.uses ++ used ∷ [] }) }
        ensures err { OnErr result (self.new ≡ self.old) }
    {
        push(&mut self.uses, used)
    }

    /// Adds the charge of the next process.
    pub fn add_charge(&mut self, charge: u64) -> Result<(), NoMemory>
        ensures ok { OnOk result (self.new ≡ record self.old { charges = self.old.charges ++ charge ∷ [] }) }
        ensures err { OnErr result (self.new ≡ self.old) }
    {
        push(&mut self.charges, charge)
    }

    /// Adds the bytes of the next shared heap.
    pub fn add_shared(&mut self, bytes: u64) -> Result<(), NoMemory>
        ensures ok { OnOk result (self.new ≡ record self.old { shared_bytes = self.old.shared_bytes ++ bytes ∷ [] }) }
        ensures err { OnErr result (self.new ≡ self.old) }
    {
        push(&mut self.shared_bytes, bytes)
    }
}
