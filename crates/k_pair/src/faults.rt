//! The faults of an access to a field, by the number of the object's fields and by what the field holds.
ghost use Rattle.std.specs.Prelude.{◌≡◌, ◌<◌, not, IfErr, IfOk, None, Some, option_map};
ghost use Rattle.k_types.specs.Names.{name_of};
ghost use Rattle.k_types.specs.Replies.{first_fault, is_ref};
ghost use Rattle.k_types.specs.State.{Holds, Refers};
ghost use Rattle.k_space.specs.Objects.{content_of};
ghost use Rattle.k_pair.specs.Faults.{field_faults};

use k_space::Stored;
use k_types::{Fault, Link};

/// The reference that the field holds, of an object with `count` fields. `NoField` comes where the object has no field of that
/// number, and `WrongKind` where the field holds a number. Constant time.
#[tactic(auto, unfolding(k_types::specs::Replies::first_fault, k_types::specs::Replies::fault_where))]
pub(crate) fn read_reference(count: u32, field: u32, stored: Stored) -> Result<Option<Link>, Fault>
    ensures fine { IfOk result (λ value. first_fault (field_faults count field (not (is_ref (content_of stored)))) ≡ None) }
    ensures there { IfOk result (λ value. field < count) }
    ensures value { IfOk result (λ value. content_of stored ≡ Refers (option_map name_of value)) }
    ensures fault { IfErr result (λ fault. first_fault (field_faults count field (not (is_ref (content_of stored)))) ≡ Some fault) }
{
    if count <= field {
        return Err(Fault::NoField);
    }
    match stored {
        Stored::Null => Ok(None),
        Stored::Refers(target) => Ok(Some(target.link())),
        Stored::Holds(_) => Err(Fault::WrongKind),
    }
}

/// The number that the field holds, of an object with `count` fields. `NoField` comes where the object has no field of that
/// number, and `WrongKind` where the field holds a reference. Constant time.
#[tactic(auto, unfolding(k_types::specs::Replies::first_fault, k_types::specs::Replies::fault_where))]
pub(crate) fn read_number(count: u32, field: u32, stored: Stored) -> Result<u64, Fault>
    ensures fine { IfOk result (λ number. first_fault (field_faults count field (is_ref (content_of stored))) ≡ None) }
    ensures there { IfOk result (λ number. field < count) }
    ensures value { IfOk result (λ number. content_of stored ≡ Holds number) }
    ensures fault { IfErr result (λ fault. first_fault (field_faults count field (is_ref (content_of stored))) ≡ Some fault) }
{
    if count <= field {
        return Err(Fault::NoField);
    }
    match stored {
        Stored::Null => Err(Fault::WrongKind),
        Stored::Refers(_) => Err(Fault::WrongKind),
        Stored::Holds(number) => Ok(number),
    }
}
