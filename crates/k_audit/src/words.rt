//! The words of a snapshot's lines.
ghost use Rattle.std.specs.Prelude.{◌≡◌, ◌<◌, ◌≤◌, ◌+◌, ◌^◌, length, map, option_map, IfSome};
ghost use Rattle.k_words.specs.Words.{word_at, words_of};
ghost use Rattle.k_state.specs.Contents.{content};
ghost use Rattle.k_types.specs.Bounds.{maximum_below};
ghost use Rattle.k_audit.specs.Reading.{bare_phase, content_of, phase_of_words, phase_with, reference_of, spelled_name, type_of_word};

use k_history::read_name;
use k_state::{FieldValue, is_same_name};
use k_trace::Names;
use k_types::{Field, Name, Phase, Seg, Serial, TypeId};
use k_words::{is, number, word, word_count};

/// The name of the directory.
const DIRECTORY: Name = Name {
    seg: Seg(0),
    serial: Serial(1),
};

/// The name that the word is.
#[tactic(auto, unfolding(crate::specs::Reading::spelled_name))]
pub fn read_spelled(names: &Names, word: &[u8]) -> Option<Name>
    ensures { result ≡ spelled_name names.now word.now }
{
    let name = read_name(names, word)?;
    if name.serial.0 == 0 {
        return None;
    }
    Some(name)
}

/// The reference that the word is.
#[tactic(auto, unfolding(crate::specs::Reading::reference_of))]
fn read_reference(names: &Names, word: &[u8]) -> Option<Option<Name>>
    ensures { result ≡ reference_of names.now word.now }
{
    if is(word, b"null") {
        return Some(None);
    }
    Some(Some(read_spelled(names, word)?))
}

/// What a field of the kind holds by its word.
#[tactic(auto, unfolding(crate::specs::Reading::content_of))]
pub fn read_content(names: &Names, kind: Field, word: &[u8]) -> Option<FieldValue>
    ensures { option_map content result ≡ content_of names.now kind word.now }
{
    match kind {
        Field::Ref => Some(FieldValue::Reference(read_reference(names, word)?)),
        Field::Int => Some(FieldValue::Integer(number(word, 1 << 64)?)),
    }
}

/// The type that the word is: the directory, and it alone, has none.
#[tactic(auto, unfolding(crate::specs::Reading::type_of_word))]
pub fn read_type(names: &Names, name: Name, word: &[u8]) -> Option<Option<TypeId>>
    ensures ty { result ≡ type_of_word names.now name word.now }
    ensures known { IfSome result (λ ty. IfSome ty (λ t. t.0 < length names.now.types)) }
{
    if is_same_name(name, DIRECTORY) {
        if is(word, b"directory") {
            return Some(None);
        }
        return None;
    }
    Some(Some(names.type_named(word)?))
}

/// The phase that one word says.
#[tactic(auto, unfolding(crate::specs::Reading::bare_phase))]
fn bare_phase(word: &[u8]) -> Option<Phase>
    ensures { result ≡ bare_phase word.now }
{
    if is(word, b"unmade") {
        return Some(Phase::Unmade);
    }
    if is(word, b"absorbed") {
        return Some(Phase::Absorbed);
    }
    None
}

/// The phase that a word says of a process or of a root.
#[tactic(auto, unfolding(crate::specs::Reading::phase_with))]
fn phase_with(names: &Names, word: &[u8], of: &[u8]) -> Option<Phase>
    ensures { result ≡ phase_with names.now word.now of.now }
{
    if is(word, b"populating") {
        return Some(Phase::Populating(names.proc_named(of)?));
    }
    if is(word, b"frozen") {
        return Some(Phase::Frozen(read_spelled(names, of)?));
    }
    None
}

/// The phase that the words of the line are, from the fourth on.
#[tactic(auto, unfolding(crate::specs::Reading::phase_of_words))]
pub fn read_phase(names: &Names, line: &[u8]) -> Option<Phase>
    ensures { result ≡ phase_of_words names.now (words_of line.now) }
{
    match word_count(line) {
        4 => bare_phase(word(line, 3)),
        5 => phase_with(names, word(line, 3), word(line, 4)),
        _ => None,
    }
}
