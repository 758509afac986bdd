//! The facts that an atom may be.

ghost use Rattle.std.specs.Prelude.{◌≡◌, ◌<◌, ◌⊎◌, length, All, Contains};
ghost use Rattle.query_matching.specs.Extensions.{HasEach};

use cq_terms::{Kind, QAtom};
use fact_index::Index;
use query_matching::{Binding, known};

/// Lends a list that has the number of each fact that the atom may be: the shortest that the index has for the places that
/// are known.
pub(crate) fn candidates<'a>(index: &'a Index, bindings: &[Binding], atom: QAtom) -> &'a [u32]
    ensures complete { HasEach index.now bindings.now atom (Contains result.now) }
    ensures named { All (λ n. n < length index.now) result.now }
{
    match atom {
        QAtom::Concept { pred, at } => match known(bindings, at) {
            Some(ind) => index.with_pred_first(Kind::Concept, pred, ind),
            None => index.with_pred(Kind::Concept, pred),
        },
        QAtom::Link { pred, from, to } => match (known(bindings, from), known(bindings, to)) {
            (Some(first), Some(second)) => shorter(
                index.with_pred_first(Kind::Link, pred, first),
                index.with_pred_second(pred, second),
            ),
            (Some(first), None) => index.with_pred_first(Kind::Link, pred, first),
            (None, Some(second)) => index.with_pred_second(pred, second),
            (None, None) => index.with_pred(Kind::Link, pred),
        },
    }
}

/// The shorter of two lists.
fn shorter<'a>(left: &'a [u32], right: &'a [u32]) -> &'a [u32]
    ensures one { (result.now ≡ left.now) ⊎ (result.now ≡ right.now) }
{
    if right.len() < left.len() {
        right
    } else {
        left
    }
}
