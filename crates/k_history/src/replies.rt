//! The reply that stands after the equals sign of a line.
ghost use Rattle.std.specs.Prelude.{◌≡◌};
ghost use Rattle.k_words.specs.Words.{words_of};
ghost use Rattle.k_reports.specs.Spelled.{makes};
ghost use Rattle.k_reports.specs.Reading.{segment_named, name_of_word, reply_with, word_reply, reply_of};

use crate::faults::read_fault;
use crate::words::cut_at;
use k_trace::Names;
use k_types::{Name, Op, Reply, Seg, Serial};
use k_words::{after_word, is, number, word};

/// The segment of that name.
fn segment_named(names: &Names, name: &[u8]) -> Option<u32>
    ensures { result ≡ segment_named names.now name.now }
{
    if is(name, b"kernel") {
        return Some(0);
    }
    if let Some(pid) = names.proc_named(name) {
        return Some(1 + pid.0);
    }
    let shared = names.shared_named(name)?;
    Some(1 + names.proc_count() as u32 + shared.0)
}

/// The object's name that the word is: a segment's name, a dot and a serial below 2^32.
#[tactic(auto, unfolding(k_reports::specs::Reading::name_of_word))]
pub fn read_name(names: &Names, word: &[u8]) -> Option<Name>
    ensures { result ≡ name_of_word names.now word.now }
{
    let (segment, serial) = cut_at(word, b'.')?;
    let serial = number(serial, 1 << 32)?;
    let seg = segment_named(names, segment)?;
    Some(Name {
        seg: Seg(seg),
        serial: Serial(serial as u32),
    })
}

/// Whether the operation makes an object.
fn makes(op: Op) -> bool
    ensures { result ≡ makes op }
{
    matches!(op, Op::New { .. } | Op::KNew { .. } | Op::SNew { .. })
}

/// A name as reply after the operation.
fn reply_with(op: Op, name: Name) -> Reply
    ensures { result ≡ reply_with op name }
{
    if makes(op) {
        Reply::Made(name)
    } else {
        Reply::Loaded(Some(name))
    }
}

/// The reply that one word is, after the operation.
#[tactic(auto, unfolding(k_reports::specs::Reading::word_reply))]
fn word_reply(names: &Names, op: Op, word: &[u8]) -> Option<Reply>
    ensures { result ≡ word_reply names.now op word.now }
{
    if is(word, b"ok") {
        return Some(Reply::Done);
    }
    if is(word, b"null") {
        return Some(Reply::Loaded(None));
    }
    if let Some(number) = number(word, 1 << 64) {
        return Some(Reply::Value(number));
    }
    Some(reply_with(op, read_name(names, word)?))
}

/// The reply that the words are, after the operation.
#[tactic(auto, unfolding(k_reports::specs::Reading::reply_of))]
pub fn read_reply(names: &Names, op: Op, words: &[u8]) -> Option<Reply>
    ensures { result ≡ reply_of names.now op (words_of words.now) }
{
    let first = word(words, 0);
    match after_word(words) {
        Some(rest) if is(first, b"fault") => Some(Reply::Refused(read_fault(names, rest)?)),
        Some(_) => None,
        None if is(first, b"fault") => None,
        None => word_reply(names, op, first),
    }
}
