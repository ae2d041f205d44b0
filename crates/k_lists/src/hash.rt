//! A fixed hash of names, for the tables that look names up by chains.
ghost use Rattle.std.specs.Prelude.{◌≡◌, ◌<◌, ◌≤◌, ◌^◌};
ghost use Rattle.k_lists.specs.Hash.{bucket};

use k_types::Name;

/// 2^64 divided by the golden ratio, made odd.
const SPREAD: u64 = 0x9E37_79B9_7F4A_7C15;

/// The number of the chain of a name, of so many. Names of many segments with the same serials, and of
/// one segment with serials in a row, are spread over all chains; it divides by nothing. Source: own,
/// after Fibonacci hashing (Knuth, The Art of Computer Programming 3, 6.4).
#[tactic(auto, unfolding(crate::specs::Hash::bucket, crate::specs::Hash::mixed))]
pub fn chain_of(chains: usize, target: Name) -> usize
    requires some { 0 < chains }
    requires small { chains ≤ 2 ^ 32 }
    ensures value { result ≡ bucket chains target }
    ensures within { result < chains }
{
    let key = target.seg.0 as u64 * 0x1_0000_0000 + target.serial.0 as u64;
    let high = key.wrapping_mul(SPREAD) >> 32;
    ((high * chains as u64) >> 32) as usize
}
