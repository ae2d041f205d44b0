//! The bits of the table, and what a phase says of a shared heap.
ghost use Rattle.std.specs.Prelude.{◌≡◌, ◌*◌, ◌<◌, ◌^◌, length, if◌then◌else◌};
ghost use Rattle.std.specs.List.{list_any};
ghost use Rattle.k_types.specs.Numbers.{numbers_below};
ghost use Rattle.k_types.specs.Steps.{is_live};
ghost use Rattle.k_shares.specs.Sharers.{bytes_in_phase};
ghost use Rattle.k_shares.specs.Places.{bit_of, place_of};

use k_types::Phase;

/// The place of a process and a shared heap, of so many shared heaps.
#[tactic(auto, using(crate::proofs::Places::place_fits, crate::proofs::Places::row_fits), unfolding(crate::specs::Places::place_of))]
pub(crate) fn place_of_pair(process: u32, heap: u32, heaps: usize) -> usize
    requires { heaps < 2 ^ 32 }
    ensures { result ≡ place_of heaps process heap }
{
    process as usize * heaps + heap as usize
}

/// Whether some process shares the heap.
#[tactic(auto, using(crate::proofs::Places::place_inside, crate::proofs::Walks::any_goes_on, crate::proofs::Walks::any_ends, crate::proofs::Walks::any_past))]
pub(crate) fn is_shared(bits: &[bool], procs: u32, heaps: usize, heap: u32) -> bool
    requires size { length bits.now ≡ procs * heaps }
    requires few { heaps < 2 ^ 32 }
    requires there { heap < heaps }
    ensures { result ≡ list_any (λ p. bit_of heaps bits.now p heap) (numbers_below procs) }
{
    for p in 0..procs {
        if bits[place_of_pair(p, heap, heaps)] {
            return true;
        }
    }
    false
}

/// Whether a shared heap in this phase was made and is not absorbed.
pub(crate) fn was_made(phase: Phase) -> bool
    ensures { result ≡ is_live phase }
{
    match phase {
        Phase::Unmade | Phase::Absorbed => false,
        Phase::Populating(_) | Phase::Frozen(_) => true,
    }
}

/// Takes the bytes of a shared heap that comes into this phase, where it is absorbed by it.
pub(crate) fn take_bytes(bytes: &mut [u64], heap: u32, phase: Phase)
    requires { heap < length bytes.old }
    ensures { bytes.new ≡ bytes_in_phase bytes.old heap phase }
{
    match phase {
        Phase::Absorbed => bytes[heap as usize] = 0,
        Phase::Unmade | Phase::Populating(_) | Phase::Frozen(_) => {}
    }
}
