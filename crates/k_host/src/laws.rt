//! What the answers of a host say of the machine.
ghost use Rattle.std.specs.Prelude.{◌≡◌, ◌++◌, ℕ, Some, slice_get};
ghost use Rattle.k_types.specs.Owners.{charge_of};
ghost use Rattle.k_types.specs.Steps.{state_after};
ghost use Rattle.k_agree.specs.Meeting.{Fits};
ghost use Rattle.k_ends.specs.k_guests.declared.guest.Guest.{Guest};
ghost use Rattle.k_host.specs.Asked.{charge_told};
ghost use Rattle.k_host.specs.Hosts.{HostServes, HostValue};

/// What a host tells that a process is charged is what the machine charges it in the state after the journal, and also in that after
/// what the process has not published besides. The note of the process's cell has to fit the journal, which `Host::meet` tells.
pub fn charges_are_the_machines()
    ensures journal { (h : HostValue) (p : ℕ) (g : Guest) → HostServes h → slice_get h.guests p ≡ Some g → Fits h.book.journal g.cell.note →
        charge_told h g ≡ charge_of h.basis.trace (state_after h.basis.trace h.book.journal.list) p }
    ensures inside { (h : HostValue) (p : ℕ) (g : Guest) → HostServes h → slice_get h.guests p ≡ Some g → Fits h.book.journal g.cell.note →
        charge_told h g ≡ charge_of h.basis.trace (state_after h.basis.trace (h.book.journal.list ++ g.cell.value.tail)) p }
{}
