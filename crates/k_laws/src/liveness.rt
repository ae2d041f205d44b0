//! What can still be used is the least set that says so.
ghost use Rattle.k_laws.specs.Live.{IsLeastLive};
ghost use Rattle.k_types.specs.Reach.{live_everywhere};
ghost use Rattle.k_types.specs.Sound.{IsSound};
ghost use Rattle.k_types.specs.State.{State, has};
ghost use Rattle.k_types.specs.Trace.{Trace};

/// What can still be used, whoever owns it, is the least set that holds the registers of living processes, the directory and the
/// objects of live shared heaps, and all that its objects refer to.
pub fn what_is_live_is_the_least_closed_set()
    ensures { (trace : Trace) (st : State) → IsSound trace st → IsLeastLive trace st (λ n. has (live_everywhere trace st) n) }
{}
