//! Texts cut into lines, and lines cut into words.
ghost use Rattle.std.specs.Prelude.{◌≡◌, ◌<◌, ◌∷◌, ◌==◌, [], length, count_by, take, IfSome, IfNone};
ghost use Rattle.std.specs.List.{list_all, position_or_len};
ghost use Rattle.std.specs.Str.{bytes_eq};
ghost use Rattle.k_words.specs.Words.{lines_of, words_of, are_words, word_at, is_printable, IsFirstLine, IsSplitAt};

/// The first place that has the byte, or the length.
pub fn find(bytes: &[u8], wanted: u8) -> usize
    ensures { result ≡ position_or_len (λ b. b == wanted) bytes.now }
{
    for (i, b) in bytes.iter().enumerate() {
        if *b == wanted {
            return i;
        }
    }
    bytes.len()
}

fn count(bytes: &[u8], wanted: u8) -> usize
    ensures { result ≡ count_by (λ b. b == wanted) bytes.now }
{
    bytes.iter().filter(|b| **b == wanted).count()
}

/// The first line, and the bytes after its line feed.
pub fn next_line(bytes: &[u8]) -> (&[u8], &[u8])
    requires { 0 < length bytes.now }
    ensures lines { lines_of bytes.now ≡ result.0.now ∷ lines_of result.1.now }
    ensures bytes { IsFirstLine bytes.now result.0.now result.1.now }
    ensures shorter { length result.1.now < length bytes.now }
{
    let end = find(bytes, b'\n');
    if end < bytes.len() {
        (&bytes[..end], &bytes[end + 1..])
    } else {
        (bytes, &[])
    }
}

/// The bytes before the first line that is the wanted one, and those from that line on. Where no line is the wanted one
/// the second part is empty.
pub fn split_at_line<'a>(bytes: &'a [u8], wanted: &[u8]) -> (&'a [u8], &'a [u8])
    ensures { IsSplitAt wanted.now bytes.now result.0.now result.1.now }
{
    let mut rest = bytes;
    while !rest.is_empty() {
        let (line, after) = next_line(rest);
        if is(line, wanted) {
            return (&bytes[..bytes.len() - rest.len()], rest);
        }
        rest = after;
    }
    (bytes, &[])
}

/// How many words the line has.
pub fn word_count(line: &[u8]) -> usize
    ensures { result ≡ length (words_of line.now) }
{
    count(line, b' ') + 1
}

/// What stands behind the first word and its space; `None` where the line has one word. Source: own.
pub fn after_word(line: &[u8]) -> Option<&[u8]>
    ensures some { IfSome result (λ rest. words_of line.now ≡ take (position_or_len (λ b. b == 32) line.now) line.now ∷ words_of rest.now) }
    ensures none { IfNone result (words_of line.now ≡ line.now ∷ []) }
    ensures shorter { IfSome result (λ rest. length rest.now < length line.now) }
{
    let end = find(line, b' ');
    if end < line.len() {
        Some(&line[end + 1..])
    } else {
        None
    }
}

/// The word at a place, or nothing past the last.
pub fn word(line: &[u8], place: usize) -> &[u8]
    ensures { result.now ≡ word_at (words_of line.now) place }
{
    let mut rest = line;
    for _ in 0..place {
        match after_word(rest) {
            Some(after) => rest = after,
            None => return &[],
        }
    }
    &rest[..find(rest, b' ')]
}

/// Whether the word is that one.
pub fn is(word: &[u8], wanted: &[u8]) -> bool
    ensures { result ≡ bytes_eq word.now wanted.now }
{
    word == wanted
}

pub fn is_printable(line: &[u8]) -> bool
    ensures { result ≡ list_all is_printable line.now }
{
    line.iter().all(|b| *b >= 32 && *b < 127)
}

/// Whether the words are parted by single spaces.
pub fn are_words(line: &[u8]) -> bool
    ensures { result ≡ are_words (words_of line.now) }
{
    let mut rest = line;
    while let Some(after) = after_word(rest) {
        if word(rest, 0).is_empty() {
            return false;
        }
        rest = after;
    }
    !rest.is_empty()
}
