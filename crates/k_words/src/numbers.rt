//! Numbers and registers as words: each has one spelling.
ghost use Rattle.std.specs.Prelude.{◌≡◌, ◌<◌, ◌≤◌, ◌^◌, IsTrue};
ghost use Rattle.std.specs.List.{list_all};
ghost use Rattle.std.specs.Char.{is_ascii_digit, digit_value};
ghost use Rattle.k_words.specs.Numbers.{is_number, below_of, register_of};

pub(crate) fn is_digit(b: u8) -> bool
    ensures { result ≡ is_ascii_digit b }
{
    b >= b'0' && b <= b'9'
}

fn are_digits(word: &[u8]) -> bool
    ensures { result ≡ list_all is_ascii_digit word.now }
{
    word.iter().all(|b| is_digit(*b))
}

/// Whether the word is `0`, or a digit from 1 to 9 followed by digits.
fn is_number(word: &[u8]) -> bool
    ensures { result ≡ is_number word.now }
{
    if !are_digits(word) || word.is_empty() {
        return false;
    }
    word.len() == 1 || word[0] != b'0'
}

/// The value of a digit.
fn digit(b: u8) -> u8
    requires { IsTrue (is_ascii_digit b) }
    ensures { result ≡ digit_value b }
{
    b - b'0'
}

/// The number below the limit that the word is.
pub fn number(word: &[u8], limit: u128) -> Option<u64>
    requires { (0 < limit) × (limit ≤ 2 ^ 64) }
    ensures { result ≡ below_of limit word.now }
{
    if !is_number(word) {
        return None;
    }
    let mut number: u128 = 0;
    for b in word {
        number = number * 10 + u128::from(digit(*b));
        if number >= limit {
            return None;
        }
    }
    Some(number as u64)
}

pub fn register(word: &[u8]) -> Option<u8>
    ensures { result ≡ register_of word.now }
{
    if word.is_empty() || word[0] != b'r' {
        return None;
    }
    match number(&word[1..], 16) {
        Some(number) => Some(number as u8),
        None => None,
    }
}
