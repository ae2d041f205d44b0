//! The fault that the words of a reply say.
ghost use Rattle.std.specs.Prelude.{◌≡◌};
ghost use Rattle.k_words.specs.Words.{words_of};
ghost use Rattle.k_reports.specs.Reading.{bare_fault, fault_at, fault_of};

use k_trace::Names;
use k_types::Fault;
use k_words::{is, word, word_count};

/// The fault that one word says.
#[tactic(auto, unfolding(k_reports::specs::Reading::bare_fault))]
fn bare_fault(word: &[u8]) -> Option<Fault>
    ensures { result ≡ bare_fault word.now }
{
    if is(word, b"Null") {
        return Some(Fault::Null);
    }
    if is(word, b"Foreign") {
        return Some(Fault::Foreign);
    }
    if is(word, b"NoField") {
        return Some(Fault::NoField);
    }
    if is(word, b"WrongKind") {
        return Some(Fault::WrongKind);
    }
    if is(word, b"Frozen") {
        return Some(Fault::Frozen);
    }
    if is(word, b"Segv") {
        return Some(Fault::Segv);
    }
    if is(word, b"KernelFull") {
        return Some(Fault::KernelFull);
    }
    None
}

/// The fault that a word says of the limit, the shared heap or the process of that name.
#[tactic(auto, unfolding(k_reports::specs::Reading::fault_at))]
fn fault_at(names: &Names, word: &[u8], name: &[u8]) -> Option<Fault>
    ensures { result ≡ fault_at names.now word.now name.now }
{
    if is(word, b"LimitFull") {
        return Some(Fault::LimitFull(names.limit_named(name)?));
    }
    if is(word, b"NotSharer") {
        return Some(Fault::NotSharer(names.shared_named(name)?));
    }
    if is(word, b"NotPopulating") {
        return Some(Fault::NotPopulating(names.shared_named(name)?));
    }
    if is(word, b"NotFrozen") {
        return Some(Fault::NotFrozen(names.shared_named(name)?));
    }
    if is(word, b"Taken") {
        return Some(Fault::Taken(names.shared_named(name)?));
    }
    if is(word, b"ProcNotBelow") {
        return Some(Fault::ProcNotBelow(names.proc_named(name)?));
    }
    if is(word, b"LimitNotBelow") {
        return Some(Fault::LimitNotBelow(names.limit_named(name)?));
    }
    if is(word, b"InUse") {
        return Some(Fault::InUse(names.limit_named(name)?));
    }
    None
}

/// The fault that the words are.
#[tactic(auto, unfolding(k_reports::specs::Reading::fault_of))]
pub fn read_fault(names: &Names, words: &[u8]) -> Option<Fault>
    ensures { result ≡ fault_of names.now (words_of words.now) }
{
    match word_count(words) {
        1 => bare_fault(word(words, 0)),
        2 => fault_at(names, word(words, 0), word(words, 1)),
        _ => None,
    }
}
