//! The word that says how many objects each process makes.
ghost use Rattle.std.specs.Prelude.{◌≡◌};
ghost use Rattle.k_big.specs.Words.{objects_of};

use k_words::number;

/// The most objects that each process makes.
pub const MOST_OBJECTS: u32 = 5000;

/// The number that the word is, from 1 to [`MOST_OBJECTS`], with no sign and no 0 before it; `None` where it is another word.
/// Takes no memory.
pub fn objects_of(word: &[u8]) -> Option<u32>
    ensures { result ≡ objects_of word.now }
{
    match number(word, MOST_OBJECTS as u128 + 1) {
        Some(0) => None,
        Some(objects) => Some(objects as u32),
        None => None,
    }
}
