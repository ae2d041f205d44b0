//! The first of several faults.
ghost use Rattle.std.specs.Prelude.{◌≡◌};
ghost use Rattle.k_types.specs.Replies.{fault_where, first_fault};

use k_types::Fault;

// The first of the faults that there is.
#[tactic(auto, unfolding(k_types::specs::Replies::first_fault))]
pub(crate) fn first_of(faults: &[Option<Fault>]) -> Option<Fault>
    ensures { result ≡ first_fault faults.now }
{
    for fault in faults {
        if let Some(found) = *fault {
            return Some(found);
        }
    }
    None
}

// The fault, where the test holds.
#[tactic(auto, unfolding(k_types::specs::Replies::fault_where))]
pub(crate) fn fault_where(holds: bool, fault: Fault) -> Option<Fault>
    ensures { result ≡ fault_where holds fault }
{
    if holds { Some(fault) } else { None }
}
