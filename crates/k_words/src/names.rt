//! Which words are names, and which are the words of a header or of a report.
ghost use Rattle.std.specs.Prelude.{◌≡◌};
ghost use Rattle.std.specs.List.{list_all};
ghost use Rattle.k_words.specs.Names.{is_letter, is_name_byte, is_keyword, is_section, is_report_word, is_reserved, is_name};

use crate::numbers::is_digit;
use crate::words::is;

fn is_letter(b: u8) -> bool
    ensures { result ≡ is_letter b }
{
    (b >= b'a' && b <= b'z') || (b >= b'A' && b <= b'Z')
}

fn is_name_byte(b: u8) -> bool
    ensures { result ≡ is_name_byte b }
{
    is_letter(b) || is_digit(b) || b == b'_'
}

pub fn is_keyword(word: &[u8]) -> bool
    ensures { result ≡ is_keyword word.now }
{
    is(word, b"kaffe")
        || is(word, b"kernel")
        || is(word, b"type")
        || is(word, b"limit")
        || is(word, b"proc")
        || is(word, b"shared")
}

fn is_section(word: &[u8]) -> bool
    ensures { result ≡ is_section word.now }
{
    is(word, b"report")
        || is(word, b"graph")
        || is(word, b"roots")
        || is(word, b"exits")
        || is(word, b"shares")
        || is(word, b"faults")
        || is(word, b"charges")
}

fn is_report_word(word: &[u8]) -> bool
    ensures { result ≡ is_report_word word.now }
{
    is(word, b"ended")
        || is(word, b"absorbed")
        || is(word, b"closing")
        || is(word, b"end")
        || is(word, b"null")
        || is(word, b"directory")
}

#[tactic(auto, unfolding(crate::specs::Names::is_reserved))]
fn is_reserved(word: &[u8]) -> bool
    ensures { result ≡ is_reserved word.now }
{
    is_keyword(word) || is_section(word) || is_report_word(word)
}

fn are_name_bytes(word: &[u8]) -> bool
    ensures { result ≡ list_all is_name_byte word.now }
{
    word.iter().all(|b| is_name_byte(*b))
}

pub fn is_name(word: &[u8]) -> bool
    ensures { result ≡ is_name word.now }
{
    if word.is_empty() || !is_letter(word[0]) {
        return false;
    }
    if !are_name_bytes(word) {
        return false;
    }
    if word.len() > 32 {
        return false;
    }
    !is_reserved(word)
}
