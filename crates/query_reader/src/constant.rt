//! Constants: texts between single quotes, with two single quotes inside for one.

ghost use Rattle.std.specs.Prelude.{◌≡◌, ◌≢◌, ℕ, List, [], ◌∷◌, ◌++◌, IsTrue, IfSome, IfNone};
ghost use Rattle.query_reader.specs.declared.place.Place.{Place};
ghost use Rattle.query_reader.specs.Faults.{HasInside, IsInsideEnd, IsLeft, may_stand};
ghost use Rattle.query_reader.specs.Parts.{halved};
ghost use Rattle.query_reader.specs.Tokens.{Stands, byte_inside, constant, doubled};

use crate::token::mark_at;

/// The inside of the constant at the front as it is written, and the bytes after the constant.
pub(crate) fn constant_at(text: &[u8]) -> Option<(&str, &[u8])>
    ensures found { IfSome result
        (λ taken. Stands (constant (halved taken.0.now)) text.now taken.1.now) }
    ensures written { IfSome result (λ taken. taken.0.now ≡ doubled (halved taken.0.now)) }
    ensures none { IfNone result
        ((meant after : List ℕ) → ¬ (Stands (constant meant) text.now after)) }
{
    let (inside, tail) = split_inside(mark_at(text, b'\'')?);
    let after = mark_at(tail, b'\'')?;
    if inside.is_empty() {
        return None;
    }
    match str::from_utf8(inside) {
        Ok(written) => Some((written, after)),
        Err(_) => None,
    }
}

/// How many bytes are left from the fault on, where an opening quote is at the front and no constant. The bytes are
/// those behind that quote.
pub(crate) fn left_inside(later: &[u8]) -> usize
    ensures exact { (place : Place) → IsTrue (may_stand place (constant []))
        → IsLeft place (39 ∷ later.now) result }
{
    let (inside, tail) = split_inside(later);
    match str::from_utf8(inside) {
        Err(error) => later.len() - error.valid_up_to(),
        Ok(_) if tail.is_empty() => 0,
        Ok(_) => later.len() + 1,
    }
}

/// The inside of a constant behind its opening quote, and what follows it: nothing, where the constant isn't closed.
fn split_inside(later: &[u8]) -> (&[u8], &[u8])
    ensures exact { HasInside (39 ∷ later.now) result.0.now result.1.now }
{
    let tail = behind_inside(later);
    (&later[..later.len() - tail.len()], tail)
}

/// What follows the inside of a constant.
fn behind_inside(later: &[u8]) -> &[u8]
    ensures whole { (meant : List ℕ) × (later.now ≡ doubled meant ++ result.now) }
    ensures ends { IsInsideEnd result.now }
{
    let mut rest = later;
    while let Some(after) = behind_byte(rest) {
        rest = after;
    }
    rest
}

/// What follows one byte inside a constant, or `None` where the inside ends.
fn behind_byte(text: &[u8]) -> Option<&[u8]>
    ensures found { IfSome result
        (λ after. (byte : ℕ) × (text.now ≡ byte_inside byte ++ after.now)) }
    ensures none { IfNone result (IsInsideEnd text.now) }
{
    let (first, later) = text.split_first()?;
    if *first == b'\'' {
        mark_at(later, b'\'')
    } else {
        Some(later)
    }
}
