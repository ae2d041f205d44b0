//! What is published and taken.
ghost use Rattle.std.specs.Prelude.{◌≡◌};
ghost use Rattle.k_watch.specs.Samples.{IsSmall, words_of};

/// How many events the journal has, what is in use at the root limit in bytes, and how many processes have not ended.
#[derive(Clone, Copy, Debug, PartialEq, Eq)]
pub struct Sample {
    pub events: u64,
    pub root_use: u64,
    pub living: u32,
}

impl Sample {
    /// The words of the cell.
    pub(crate) fn to_words(self) -> [u64; 3]
        ensures words { result ≡ words_of self }
        ensures small { IsSmall self }
    {
        [self.events, self.root_use, u64::from(self.living)]
    }
}
