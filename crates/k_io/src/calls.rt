//! Which calls of a source or sink in memory are to fail.
ghost use Rattle.std.specs.Prelude.{◌≡◌, ◌==◌};
ghost use Rattle.std.specs.List.{list_any};

/// Whether the call with this number, from 1, is one of those that are to fail.
pub fn is_listed(fails: &[u32], call: u64) -> bool
    ensures { result ≡ list_any (λ n. n == call) fails.now }
{
    fails.iter().any(|n| u64::from(*n) == call)
}
