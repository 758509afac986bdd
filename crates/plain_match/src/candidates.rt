//! The facts of the table that an atom may become.

ghost use Rattle.std.specs.Prelude.{◌≡◌, ◌<◌, ◌⊎◌, length, All};
ghost use Rattle.query_matching.specs.Extensions.{HasEach};
ghost use Rattle.plain_match.specs.Places.{HasNumber};

use crate::facts::PlainFacts;
use crate::places::{KeyedFact, Side};
use cq_terms::QAtom;
use query_matching::{Binding, known};

/// Lends numbers of facts, among them each that the atom may become: those of its predicate, and of a place that is known.
pub(crate) fn candidates<'a>(
    facts: &'a PlainFacts,
    bindings: &[Binding],
    atom: QAtom,
) -> &'a [KeyedFact]
    ensures complete { HasEach facts.now bindings.now atom (HasNumber result.now) }
    ensures named { All (λ e. e.number < length facts.now) result.now }
{
    match atom {
        QAtom::Concept { pred, at } => facts.at(Side::Member, pred, known(bindings, at)),
        QAtom::Link { pred, from, to } => shorter(
            facts.at(Side::From, pred, known(bindings, from)),
            facts.at(Side::To, pred, known(bindings, to)),
        ),
    }
}

/// The shorter of two lists.
fn shorter<'a>(left: &'a [KeyedFact], right: &'a [KeyedFact]) -> &'a [KeyedFact]
    ensures one { (result.now ≡ left.now) ⊎ (result.now ≡ right.now) }
{
    if right.len() < left.len() {
        right
    } else {
        left
    }
}
