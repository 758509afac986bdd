//! What stands in the head of a query and behind its atoms.

ghost use Rattle.std.specs.Prelude.{◌≡◌, IfOk, IfErr};
ghost use Rattle.query_reader.specs.declared.place.Place.TheVariants as at;
ghost use Rattle.query_reader.specs.Faults.{IsStuck, head_place};
ghost use Rattle.query_reader.specs.Parts.{IsAtomEnd, IsHeadPlace, IsHeadStep};
ghost use Rattle.query_reader.specs.Tokens.{after_gap, begins, is_blank};

use crate::place::{Fault, Place, fault_at};
use crate::token::{after_gap, arrow_at, begins_blank, mark_at, variable_at};

/// The variable behind the gap in the head, or `None` where the arrow stands there, and the bytes after it.
pub(crate) fn head_step(text: &[u8], place: Place) -> Result<(Option<&str>, &[u8]), Fault>
    requires place { IsHeadPlace place }

    ensures found { IfOk result (λ step. IsHeadStep place text.now step.0 step.1.now) }
    ensures fault { IfErr result (λ fault. IsStuck place (after_gap text.now) fault.left) }
{
    let next = after_gap(text);
    if place == Place::Head {
        if let Some((letters, after)) = variable_at(next) {
            return Ok((Some(letters), after));
        }
    }
    match arrow_at(next) {
        Some(after) => Ok((None, after)),
        None => Err(fault_at(next, place)),
    }
}

/// The place behind a variable of the head.
pub(crate) fn behind_variable(after: &[u8]) -> Place
    ensures exact { result ≡ head_place (begins is_blank after.now) }
{
    if begins_blank(after) {
        Place::Head
    } else {
        Place::BehindVariable
    }
}

/// The bytes after the comma behind an atom, or `None` where the text ends.
pub(crate) fn atom_end(text: &[u8]) -> Result<Option<&[u8]>, Fault>
    ensures found { IfOk result (λ after. IsAtomEnd text.now after) }
    ensures fault { IfErr result (λ fault. IsStuck at.BehindAtom (after_gap text.now) fault.left) }
{
    let next = after_gap(text);
    if next.is_empty() {
        return Ok(None);
    }
    match mark_at(next, b',') {
        Some(after) => Ok(Some(after)),
        None => Err(fault_at(next, Place::BehindAtom)),
    }
}
