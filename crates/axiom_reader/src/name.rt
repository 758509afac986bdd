//! Names, as bytes and as text.

ghost use Rattle.std.specs.Prelude.{◌≡◌, ◌↔◌, ◌&&◌, IsTrue, IfSome, IfNone};
ghost use Rattle.std.specs.List.{list_all};
ghost use Rattle.std.specs.Str.{IsUtf8};
ghost use Rattle.axiom_reader.specs.Name.{IsName, is_first, is_keyword, is_later};

/// Whether the bytes are a name: one or more ASCII characters, first a letter or `_`, then letters, digits, `_`, `-`,
/// `.`, `:`, `/`, `#`, and none of the words `some`, `inv`, `not`, `role`, `func`.
pub fn is_name(bytes: &[u8]) -> bool
    ensures exact { IsTrue result ↔ IsName bytes.now }
    ensures utf8 { IsName bytes.now → IsUtf8 bytes.now }
{
    let Some((first, later)) = bytes.split_first() else {
        return false;
    };
    has_form(*first, later) && !is_keyword(bytes)
}

/// Whether a name may begin with the first byte and go on with the others.
fn has_form(first: u8, later: &[u8]) -> bool
    ensures exact { result ≡ (is_first first && list_all is_later later.now) }
{
    is_first(first) && are_later(later)
}

/// Whether a name may go on with the bytes.
fn are_later(bytes: &[u8]) -> bool
    ensures exact { result ≡ list_all is_later bytes.now }
{
    bytes.iter().all(|byte| is_later(*byte))
}

/// Whether a name may begin with the byte.
fn is_first(byte: u8) -> bool
    ensures exact { result ≡ is_first byte }
{
    byte.is_ascii_alphabetic() || byte == b'_'
}

/// Whether the byte may stand in a name after its first.
fn is_later(byte: u8) -> bool
    ensures exact { result ≡ is_later byte }
{
    byte.is_ascii_alphanumeric() || matches!(byte, b'_' | b'-' | b'.' | b':' | b'/' | b'#')
}

/// Whether the word has a meaning of its own.
fn is_keyword(word: &[u8]) -> bool
    ensures exact { result ≡ is_keyword word.now }
{
    word == b"some".as_slice()
        || word == b"inv".as_slice()
        || word == b"not".as_slice()
        || word == b"role".as_slice()
        || word == b"func".as_slice()
}

/// The bytes as text, or `None` where they aren't a name.
pub(crate) fn name(bytes: &[u8]) -> Option<&str>
    ensures found { IfSome result (λ text. (text.now ≡ bytes.now) × IsName bytes.now) }
    ensures none { IfNone result (¬ (IsName bytes.now)) }
{
    if is_name(bytes) {
        str::from_utf8(bytes).ok()
    } else {
        None
    }
}
