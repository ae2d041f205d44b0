//! The rule of the cell, and the kinds of step.
use crate::view::View;
use atomic_table::{Join, Split};
use crossbeam_utils::rule::{Outcome, Protocol};

/// The rule: the words are the last sample that was published, and each sample that was taken is one that was published.
pub struct SampleRule;

impl Protocol<[u64; 3], View> for SampleRule {
    ghost use Rattle.k_watch.specs.Rule.{KeepsRule};
    ghost use Rattle.k_watch.specs.declared.view.View.TheVariants.{Opening};

    ghost holds = { KeepsRule };

    ghost first = { Opening };
}

/// The swap that ends the making: the first sample is published, and one watcher is in hand.
pub struct PublishFirst;

impl Outcome<[u64; 3], View> for PublishFirst {
    ghost use Rattle.k_watch.specs.Steps.{Opens};

    ghost then = { Opens };
}

/// A swap by the pen: its list gets the sample.
pub struct PublishNext;

impl Outcome<[u64; 3], View> for PublishNext {
    ghost use Rattle.k_watch.specs.Steps.{Publishes};

    ghost then = { Publishes };
}

/// A load by a watcher: its list gets the sample.
pub struct TakeSample;

impl Outcome<[u64; 3], View> for TakeSample {
    ghost use Rattle.k_watch.specs.Steps.{Takes};

    ghost then = { Takes };
}

/// A load by the pen, which tells what the rule says of the watchers in hand.
pub struct LookAtWatchers;

impl Outcome<[u64; 3], View> for LookAtWatchers {
    ghost use Rattle.k_watch.specs.Steps.{Looks};

    ghost then = { Looks };
}

/// A split that gives a pass all that another one knew, so that it can be joined.
pub struct HandOver;

impl Split<View> for HandOver {
    ghost use Rattle.k_watch.specs.declared.view.View.TheVariants.{Spent};

    ghost left = { λ view. Spent };

    ghost right = { λ view. view };
}

/// A join: the pen takes a watcher in hand.
pub struct TakeWatcher;

impl Join<View> for TakeWatcher {
    ghost use Rattle.k_watch.specs.Steps.{after_take};
    ghost use Rattle.k_watch.specs.declared.view.View.TheVariants.{Spent};

    ghost both = { after_take };

    ghost spent = { Spent };
}

/// A split: the watcher that the pen took last is in hand no longer, and is told how many events were published.
pub struct GiveWatcher;

impl Split<View> for GiveWatcher {
    ghost use Rattle.k_watch.specs.Steps.{after_give, watcher_given};

    ghost left = { after_give };

    ghost right = { watcher_given };
}
