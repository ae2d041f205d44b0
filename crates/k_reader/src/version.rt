//! The versions of traces.
ghost use Rattle.std.specs.Prelude.{◌≡◌, nat_lt};
ghost use Rattle.k_trace.specs.Judgement.{is_version, version_of};

use k_words::is;

/// The version with which a reader begins, which has neither `kill` nor `resize`.
pub const FIRST_VERSION: u32 = 1;

/// The version that has `kill` and `resize` too.
pub const SECOND_VERSION: u32 = 2;

/// Whether the word of the first line is a version.
pub(crate) fn is_version(word: &[u8]) -> bool
    ensures { result ≡ is_version word.now }
{
    is(word, b"1") || is(word, b"2")
}

/// The version that the word is.
pub(crate) fn version_of(word: &[u8]) -> u32
    ensures { result ≡ version_of word.now }
{
    if is(word, b"1") {
        FIRST_VERSION
    } else {
        SECOND_VERSION
    }
}

/// Whether a trace of the version may have `kill` and `resize`.
pub(crate) fn may_govern(version: u32) -> bool
    ensures { result ≡ nat_lt 1 version }
{
    version > FIRST_VERSION
}
