//! Words, each taken from the front of a line.

ghost use Rattle.std.specs.Prelude.{◌≡◌, ◌≤◌, ◌∷◌, [], not, length, position, IfSome, IfNone};
ghost use Rattle.std.specs.List.{position_or_len};
ghost use Rattle.axiom_reader.specs.Lines.{is_blank, is_silent, words_of};
ghost use Rattle.axiom_reader.specs.Parts.{is_ended, skip_word};

/// Whether a line gives nothing: it has blanks alone, or `#` is its first other character.
pub(crate) fn is_silent(line: &[u8]) -> bool
    ensures exact { result ≡ is_silent line.now }
{
    match word_start(line) {
        Some(start) => line[start] == b'#',
        None => true,
    }
}

/// The first word of a line and the rest of the line, or `None` where there is no word.
pub(crate) fn next_word(line: &[u8]) -> Option<(&[u8], &[u8])>
    ensures found { IfSome result
        (λ taken. words_of line.now ≡ taken.0.now ∷ words_of taken.1.now) }
    ensures none { IfNone result (words_of line.now ≡ []) }
{
    let start = word_start(line)?;
    let words = &line[start..];
    let end = word_end(words);
    Some((&words[..end], &words[end..]))
}

/// Whether the first word of a line is this one, and the rest of the line after it, or the whole line.
pub(crate) fn skip_word<'a>(line: &'a [u8], word: &[u8]) -> (bool, &'a [u8])
    ensures exact { (result.0, words_of result.1.now) ≡ skip_word word.now (words_of line.now) }
{
    match next_word(line) {
        Some((first, rest)) if first == word => (true, rest),
        _ => (false, line),
    }
}

/// Whether no word is left in a line.
pub(crate) fn is_end(line: &[u8]) -> bool
    ensures exact { result ≡ is_ended (words_of line.now) }
{
    next_word(line).is_none()
}

/// The place of the first byte that isn't a blank.
fn word_start(line: &[u8]) -> Option<usize>
    ensures exact { result ≡ position (λ byte. not (is_blank byte)) line.now }
{
    line.iter().position(|byte| !is_blank(*byte))
}

/// The place of the first blank, or the length where there is none.
fn word_end(words: &[u8]) -> usize
    ensures exact { result ≡ position_or_len is_blank words.now }
    ensures within { result ≤ length words.now }
{
    first_blank(words).unwrap_or(words.len())
}

/// The place of the first blank, or `None` where there is none.
fn first_blank(words: &[u8]) -> Option<usize>
    ensures exact { result ≡ position is_blank words.now }
{
    words.iter().position(|byte| is_blank(*byte))
}

/// Whether the byte is a space or a tab.
fn is_blank(byte: u8) -> bool
    ensures exact { result ≡ is_blank byte }
{
    byte == b' ' || byte == b'\t'
}
