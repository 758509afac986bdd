//! The tokens at the front of a text.

ghost use Rattle.std.specs.Prelude.{◌≡◌, ◌≢◌, ℕ, List, ◌∷◌, IfSome, IfNone, position, not};
ghost use Rattle.query_reader.specs.Tokens.{Stands, after_gap, begins, is_blank, is_letter, variable, name, arrow};
ghost use Rattle.query_reader.specs.Parts.{IsRun};
ghost use Rattle.axiom_reader.specs.Name.{IsName, is_later};

use axiom_reader::is_name;

/// The text from its first byte on that is no blank.
pub(crate) fn after_gap(text: &[u8]) -> &[u8]
    ensures exact { result.now ≡ after_gap text.now }
{
    let mut rest = text;
    while let Some((first, later)) = rest.split_first() {
        if !is_blank(*first) {
            return rest;
        }
        rest = later;
    }
    rest
}

/// Whether a blank is at the front.
pub(crate) fn begins_blank(text: &[u8]) -> bool
    ensures exact { result ≡ begins is_blank text.now }
{
    match text.split_first() {
        Some((first, _)) => is_blank(*first),
        None => false,
    }
}

/// Whether the byte may stand between tokens.
fn is_blank(byte: u8) -> bool
    ensures exact { result ≡ is_blank byte }
{
    byte == b' ' || byte == b'\t' || byte == b'\n' || byte == b'\r'
}

/// Whether the byte may stand in a variable behind its `?`.
fn is_letter(byte: u8) -> bool
    ensures exact { result ≡ is_letter byte }
{
    byte.is_ascii_alphanumeric() || byte == b'_'
}

/// Whether the byte may stand in a name behind its first.
fn is_later(byte: u8) -> bool
    ensures exact { result ≡ is_later byte }
{
    byte.is_ascii_alphanumeric() || matches!(byte, b'_' | b'-' | b'.' | b':' | b'/' | b'#')
}

/// The place of the first byte that is no letter of a variable.
fn letters_end(text: &[u8]) -> Option<usize>
    ensures exact { result ≡ position (λ byte. not (is_letter byte)) text.now }
{
    text.iter().position(|byte| !is_letter(*byte))
}

/// The place of the first byte with which no name goes on.
fn name_end(text: &[u8]) -> Option<usize>
    ensures exact { result ≡ position (λ byte. not (is_later byte)) text.now }
{
    text.iter().position(|byte| !is_later(*byte))
}

/// The letters at the front, and the bytes after them.
fn split_letters(text: &[u8]) -> (&[u8], &[u8])
    ensures exact { IsRun is_letter text.now result.0.now result.1.now }
{
    match letters_end(text) {
        Some(end) => (&text[..end], &text[end..]),
        None => (text, &text[text.len()..]),
    }
}

/// The bytes at the front with which a name may go on, and those after them.
fn split_name(text: &[u8]) -> (&[u8], &[u8])
    ensures exact { IsRun is_later text.now result.0.now result.1.now }
{
    match name_end(text) {
        Some(end) => (&text[..end], &text[end..]),
        None => (text, &text[text.len()..]),
    }
}

/// The variable at the front without its `?`, and the bytes after it.
pub(crate) fn variable_at(text: &[u8]) -> Option<(&str, &[u8])>
    ensures found { IfSome result (λ taken. Stands (variable taken.0.now) text.now taken.1.now) }
    ensures none { IfNone result
        ((letters after : List ℕ) → ¬ (Stands (variable letters) text.now after)) }
{
    let later = mark_at(text, b'?')?;
    let (letters, after) = split_letters(later);
    if letters.is_empty() {
        return None;
    }
    match str::from_utf8(letters) {
        Ok(letters) => Some((letters, after)),
        Err(_) => None,
    }
}

/// The name at the front, and the bytes after it.
pub(crate) fn name_at(text: &[u8]) -> Option<(&str, &[u8])>
    ensures found { IfSome result (λ taken. Stands (name taken.0.now) text.now taken.1.now) }
    ensures none { IfNone result
        ((letters after : List ℕ) → ¬ (Stands (name letters) text.now after)) }
{
    let (word, after) = split_name(text);
    if !is_name(word) {
        return None;
    }
    let word = str::from_utf8(word).ok()?;
    Some((word, after))
}

/// The bytes after the arrow at the front.
pub(crate) fn arrow_at(text: &[u8]) -> Option<&[u8]>
    ensures found { IfSome result (λ after. Stands arrow text.now after.now) }
    ensures none { IfNone result ((after : List ℕ) → ¬ (Stands arrow text.now after)) }
{
    text.strip_prefix(b"<-".as_slice())
}

/// The bytes after the mark at the front.
pub(crate) fn mark_at(text: &[u8], mark: u8) -> Option<&[u8]>
    ensures found { IfSome result (λ after. text.now ≡ mark ∷ after.now) }
    ensures none { IfNone result ((after : List ℕ) → text.now ≢ mark ∷ after) }
{
    match text.split_first() {
        Some((first, after)) if *first == mark => Some(after),
        _ => None,
    }
}
