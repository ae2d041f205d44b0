//! The chains on which the objects of a segment are found by their serials.
ghost use Rattle.std.specs.Prelude.{◌≡◌, ◌≢◌, ◌<◌, ◌+◌, ◌-◌, ◌^◌, ℕ, length, vec_capacity};
ghost use Rattle.k_space.specs.Chains.{AreLinked, IsInserted, IsReached, IsRemoved, IsSought, before_at, chain_by, head_at, serial_at, spot_at, with_before};

/// A slot with its object, which is found by its serial.
#[derive(Clone, Copy)]
pub(crate) struct Spot {
    // 0 where no object lies there.
    pub(crate) serial: u32,
    // One more than the slot of the next older object of the chain; 0 at the end.
    pub(crate) before: u32,
    // When its mark was set, and which.
    pub(crate) stamp: u32,
    // The serial of the next gray object.
    pub(crate) next: u32,
    // A hint of the slot in which that one lies.
    pub(crate) near: u32,
}

/// Where a walk along a chain has ended. Both numbers are one more than a slot, and 0 where there is none.
#[derive(Clone, Copy)]
pub(crate) struct Reached {
    // That of the object before it on the chain.
    pub(crate) newer: u32,
    // That of the object that was looked for.
    pub(crate) at: u32,
}

/// The hint of a slot in 32 bits. One that does not fit becomes 0.
pub(crate) fn short(slot: usize) -> u32 {
    if slot <= u32::MAX as usize {
        slot as u32
    } else {
        0
    }
}

/// The number of the chain of a serial, of so many, which are a power of two. Serials in a row have chains in a row, and the
/// higher bits of a serial count too.
#[tactic(auto, using(crate::proofs::ChainSteps::masked), unfolding(crate::specs::Chains::chain_by))]
pub(crate) fn chain_of(chains: usize, serial: usize) -> usize
    requires { 0 < chains }
    ensures value { result ≡ chain_by chains serial }
    ensures within { result < chains }
{
    (serial ^ (serial >> 8) ^ (serial >> 16)) & (chains - 1)
}

/// Looks for the object of that serial. It passes the younger ones of its chain alone.
pub(crate) fn reach(spots: &[Spot], heads: &[u32], serial: usize) -> Reached
    requires { IsSought spots.now heads.now serial }
    ensures { IsReached (serial_at spots.now) (before_at spots.now) (length heads.now) (head_at heads.now) serial result.newer result.at }
{
    let mut newer = 0;
    let mut next = heads[chain_of(heads.len(), serial)];
    while next != 0 {
        let spot = spots[next as usize - 1];
        let found = spot.serial as usize;
        if found == serial {
            return Reached { newer, at: next };
        }
        if found < serial {
            return Reached { newer: 0, at: 0 };
        }
        newer = next;
        next = spot.before;
    }
    Reached { newer: 0, at: 0 }
}

/// Adds free spots up to that slot.
fn grow(spots: &mut Vec<Spot>, slot: usize)
    requires { slot < vec_capacity spots.old }
    ensures within { slot < length spots.new.items }
    ensures same { (other : ℕ) → spot_at spots.new.items other ≡ spot_at spots.old.items other }
    ensures capacity { vec_capacity spots.new ≡ vec_capacity spots.old }
{
    while spots.len() <= slot {
        spots.push_reserved(Spot {
            serial: 0,
            before: 0,
            stamp: 0,
            next: 0,
            near: 0,
        });
    }
}

/// Puts an object into that slot, under a serial that is greater than all others.
pub(crate) fn insert(spots: &mut Vec<Spot>, heads: &mut Vec<u32>, slot: usize, serial: u32)
    requires linked { AreLinked spots.old.items heads.old.items serial }
    requires free { serial_at spots.old.items slot ≡ 0 }
    requires within { slot < vec_capacity spots.old }
    requires small { slot < 2 ^ 32 - 1 }
    ensures linked { AreLinked spots.new.items heads.new.items (serial + 1) }
    ensures inserted { IsInserted spots.old.items spots.new.items slot serial }
    ensures capacity { vec_capacity spots.new ≡ vec_capacity spots.old }
{
    grow(spots, slot);
    let chain = chain_of(heads.len(), serial as usize);
    let before = heads[chain];
    spots[slot] = Spot {
        serial,
        before,
        stamp: 0,
        next: 0,
        near: 0,
    };
    heads[chain] = slot as u32 + 1;
}

/// Changes the link from one slot.
fn set_before(spots: &mut Vec<Spot>, slot: usize, before: u32)
    requires { slot < length spots.old.items }
    ensures items { spots.new.items ≡ with_before spots.old.items slot before }
    ensures capacity { vec_capacity spots.new ≡ vec_capacity spots.old }
{
    spots[slot].before = before;
}

/// Frees the slot of that serial, if there is one.
pub(crate) fn remove(spots: &mut Vec<Spot>, heads: &mut Vec<u32>, serial: usize)
    requires { IsSought spots.old.items heads.old.items serial }
    ensures linked { (made : ℕ) → AreLinked spots.old.items heads.old.items made → AreLinked spots.new.items heads.new.items made }
    ensures removed { IsRemoved spots.old.items spots.new.items serial }
    ensures capacity { vec_capacity spots.new ≡ vec_capacity spots.old }
{
    let reached = reach(spots, heads, serial);
    if reached.at != 0 {
        let slot = reached.at as usize - 1;
        let before = spots[slot].before;
        spots[slot] = Spot {
            serial: 0,
            before: 0,
            stamp: 0,
            next: 0,
            near: 0,
        };
        if reached.newer == 0 {
            let chain = chain_of(heads.len(), serial);
            heads[chain] = before;
        } else {
            set_before(spots, reached.newer as usize - 1, before);
        }
    }
}
