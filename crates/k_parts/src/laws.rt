//! What the parts of a host are together.
ghost use Rattle.std.specs.Prelude.{List, Option};
ghost use Rattle.k_book.specs.Books.{BookRecord};
ghost use Rattle.k_cell.specs.Holdings.{HoldingsValue};
ghost use Rattle.k_shared.specs.SharedHeaps.{SharedRecord};
ghost use Rattle.k_ends.specs.k_guests.declared.guest.Guest.{Guest};
ghost use Rattle.k_host.specs.Hosts.{HostServes};
ghost use Rattle.k_parts.specs.Parts.{Home};
ghost use Rattle.k_parts.specs.Together.{AreAllPartsOf, host_together};

/// The parts of a host, all of them, are a host: what each of them keeps by itself is together what a host keeps. So the journal is a legal
/// history of the machine, and the cells and the book show the machine, whichever threads drove them.
pub fn parts_are_one_host()
    ensures { (named : Option Home) (home : Home) (guests : List Guest) (k : HoldingsValue) (shared : List SharedRecord) (b : BookRecord) →
        AreAllPartsOf named home guests k shared b → HostServes (host_together home guests k shared b) }
{}
