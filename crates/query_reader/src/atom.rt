//! Atoms at the front of a text, over names.

ghost use Rattle.std.specs.Prelude.{◌≡◌, ℕ, List, option_map, IfSome, IfNone, IfOk, IfErr};
ghost use Rattle.query_reader.specs.declared.place.Place.TheVariants as at;
ghost use Rattle.query_reader.specs.Faults.{FaultFrom, IsStuck};
ghost use Rattle.query_reader.specs.Grammar.{NamedTerm, atom_tokens, term_token};
ghost use Rattle.query_reader.specs.Parts.{IsTermPlace, IsTermWritten, IsWritten, atom_view, second_tokens, term_view};
ghost use Rattle.query_reader.specs.Tokens.{Reads, Stands, after_gap, closing, name, opening};

use crate::constant::constant_at;
use crate::place::{Fault, Place, fault_at};
use crate::token::{after_gap, mark_at, name_at, variable_at};

/// A term over names.
#[derive(Clone, Copy, Debug)]
pub(crate) enum TermText<'a> {
    /// A variable without its `?`.
    Variable(&'a str),
    /// The inside of a constant as it is written.
    Constant(&'a str),
}

/// An atom over names.
#[derive(Clone, Copy, Debug)]
pub(crate) struct AtomText<'a> {
    /// The name of the concept or the role.
    pub name: &'a str,
    /// The first term.
    pub first: TermText<'a>,
    /// The second term, which a role has.
    pub second: Option<TermText<'a>>,
}

/// The atom at the front, and the bytes after it.
pub(crate) fn atom_at(text: &[u8]) -> Result<(AtomText<'_>, &[u8]), Fault>
    ensures found { IfOk result
        (λ taken. Reads (atom_tokens (atom_view taken.0)) text.now taken.1.now) }
    ensures written { IfOk result (λ taken. IsWritten taken.0) }
    ensures fault { IfErr result (λ fault. FaultFrom at.AtomName text.now fault.left) }
{
    let (name, after) = atom_name(text)?;
    let after = opening_mark(after)?;
    let (first, after) = term(after, Place::FirstTerm)?;
    let (second, after) = second_term(after)?;
    Ok((
        AtomText {
            name,
            first,
            second,
        },
        after,
    ))
}

/// What follows the first term of an atom: its second term or none, up to the closing parenthesis, and the bytes after
/// it.
fn second_term(text: &[u8]) -> Result<(Option<TermText<'_>>, &[u8]), Fault>
    ensures found { IfOk result
        (λ taken. Reads (second_tokens (option_map term_view taken.0)) text.now taken.1.now) }
    ensures written { IfOk result (λ taken. IfSome taken.0 IsTermWritten) }
    ensures fault { IfErr result (λ fault. FaultFrom at.BehindFirst text.now fault.left) }
{
    let next = after_gap(text);
    if let Some(after) = mark_at(next, b')') {
        return Ok((None, after));
    }
    let Some(after) = mark_at(next, b',') else {
        return Err(fault_at(next, Place::BehindFirst));
    };
    let (second, after) = term(after, Place::SecondTerm)?;
    let after = closing_mark(after)?;
    Ok((Some(second), after))
}

/// The name behind the gap, and the bytes after it.
fn atom_name(text: &[u8]) -> Result<(&str, &[u8]), Fault>
    ensures found { IfOk result
        (λ taken. Stands (name taken.0.now) (after_gap text.now) taken.1.now) }
    ensures fault { IfErr result (λ fault. IsStuck at.AtomName (after_gap text.now) fault.left) }
{
    let next = after_gap(text);
    match name_at(next) {
        Some(taken) => Ok(taken),
        None => Err(fault_at(next, Place::AtomName)),
    }
}

/// The bytes after the opening parenthesis behind the gap.
fn opening_mark(text: &[u8]) -> Result<&[u8], Fault>
    ensures found { IfOk result (λ after. Stands opening (after_gap text.now) after.now) }
    ensures fault { IfErr result (λ fault. IsStuck at.Opening (after_gap text.now) fault.left) }
{
    let next = after_gap(text);
    match mark_at(next, b'(') {
        Some(after) => Ok(after),
        None => Err(fault_at(next, Place::Opening)),
    }
}

/// The bytes after the closing parenthesis behind the gap.
fn closing_mark(text: &[u8]) -> Result<&[u8], Fault>
    ensures found { IfOk result (λ after. Stands closing (after_gap text.now) after.now) }
    ensures fault { IfErr result (λ fault. IsStuck at.Closing (after_gap text.now) fault.left) }
{
    let next = after_gap(text);
    match mark_at(next, b')') {
        Some(after) => Ok(after),
        None => Err(fault_at(next, Place::Closing)),
    }
}

/// The term behind the gap at a place of a term, and the bytes after it.
fn term(text: &[u8], place: Place) -> Result<(TermText<'_>, &[u8]), Fault>
    requires place { IsTermPlace place }

    ensures found { IfOk result
        (λ taken. Stands (term_token (term_view taken.0)) (after_gap text.now) taken.1.now) }
    ensures written { IfOk result (λ taken. IsTermWritten taken.0) }
    ensures fault { IfErr result (λ fault. IsStuck place (after_gap text.now) fault.left) }
{
    let next = after_gap(text);
    if let Some((letters, after)) = variable_at(next) {
        return Ok((TermText::Variable(letters), after));
    }
    match constant_at(next) {
        Some((written, after)) => Ok((TermText::Constant(written), after)),
        None => Err(fault_at(next, place)),
    }
}
