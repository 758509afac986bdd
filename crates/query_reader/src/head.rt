//! Reads the head of a query text.

ghost use Rattle.std.specs.Prelude.{◌≡◌, ◌<◌, ◌≤◌, ◌^◌, [], length, IfOk, IfErr};
ghost use Rattle.query_reader.specs.declared.place.Place.TheVariants as at;
ghost use Rattle.query_reader.specs.Steps.{AddsRepeat, IsHalt, IsHeadRead};

use crate::between::{behind_variable, head_step};
use crate::place::Place;
use crate::refusal::Halt;
use cq_terms::{Names, Term};
use std::alloc::Global;

/// A head: its variables by number, and the first place whose variable stood earlier.
#[derive(Debug, Drop)]
pub(crate) struct Head {
    /// The variables, in order.
    pub terms: Vec<Term>,
    /// The first place whose variable stood earlier.
    pub repeated: Option<u32>,
}

/// Reads the head and the arrow behind it, puts its variables into the list, and answers the bytes after the arrow too.
pub(crate) fn read_head<'a>(
    alloc: Global,
    text: &'a [u8],
    variables: &mut Names,
) -> Result<(Head, &'a [u8]), Halt>
    requires room { length text.now < 2 ^ 31 }
    requires none { variables.old ≡ [] }

    ensures found { IfOk result (λ read. IsHeadRead text.now variables.new read.0 read.1.now) }
    ensures halt { IfErr result (λ halt. IsHalt at.Head text.now halt) }
{
    let mut terms = Vec::new(alloc);
    let mut repeated = None;
    let mut place = Place::Head;
    let mut rest = text;
    'variables: loop {
        let (letters, after) = head_step(rest, place)?;
        let Some(letters) = letters else {
            return Ok((Head { terms, repeated }, after));
        };
        repeated = repeat_with(repeated, variables, letters, terms.len());
        terms.push(Term::Var(variables.put(letters)?))?;
        place = behind_variable(after);
        rest = after;
    }
}

/// The first place whose variable stood earlier, where one more variable comes after so many.
fn repeat_with(repeated: Option<u32>, variables: &Names, letters: &str, count: usize) -> Option<u32>
    requires fits { count < 2 ^ 32 }

    ensures exact { AddsRepeat repeated variables.now letters.now count result }
{
    match (repeated, variables.find(letters)) {
        (Some(place), _) => Some(place),
        (None, Some(_)) => Some(count as u32),
        (None, None) => None,
    }
}
