//! Bytes cut at a byte, and lines cut at a word.
ghost use Rattle.std.specs.Prelude.{◌≡◌, ◌≤◌, ◌==◌, ◌⊎◌, [], length, IfSome, IfNone};
ghost use Rattle.std.specs.List.{before_first, after_first, position_or_len};
ghost use Rattle.std.specs.Str.{bytes_eq};
ghost use Rattle.k_words.specs.Words.{words_of};

use k_words::find;

/// What stands before the first byte of that value, and what stands after it; `None` where there is no such byte.
pub fn cut_at(bytes: &[u8], wanted: u8) -> Option<(&[u8], &[u8])>
    ensures some { IfSome result (λ parts. (parts.0.now ≡ before_first (λ b. b == wanted) bytes.now) × (parts.1.now ≡ after_first (λ b. b == wanted) bytes.now)) }
    ensures none { IfNone result (length bytes.now ≤ position_or_len (λ b. b == wanted) bytes.now) }
{
    let end = find(bytes, wanted);
    if end < bytes.len() {
        Some((&bytes[..end], &bytes[end + 1..]))
    } else {
        None
    }
}

/// The words of a line before the first one that is that word, and those after it; `None` where on one side there are none.
pub fn parted<'a>(line: &'a [u8], wanted: &[u8]) -> Option<(&'a [u8], &'a [u8])>
    ensures some { IfSome result (λ parts. (words_of parts.0.now ≡ before_first (λ w. bytes_eq w wanted.now) (words_of line.now)) × (words_of parts.1.now ≡ after_first (λ w. bytes_eq w wanted.now) (words_of line.now))) }
    ensures none { IfNone result ((before_first (λ w. bytes_eq w wanted.now) (words_of line.now) ≡ []) ⊎ (after_first (λ w. bytes_eq w wanted.now) (words_of line.now) ≡ [])) }
{
    let mut at = 0;
    'words: loop {
        let rest = &line[at..];
        let end = find(rest, b' ');
        if &rest[..end] == wanted {
            if at == 0 || end == rest.len() {
                return None;
            }
            return Some((&line[..at - 1], &rest[end + 1..]));
        }
        if end == rest.len() {
            return None;
        }
        at += end + 1;
    }
}
