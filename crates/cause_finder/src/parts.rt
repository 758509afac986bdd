//! Facts that clash, and lists of facts that don't.

ghost use Rattle.std.specs.Prelude.{◌≡◌, ◌<◌, ◌↔◌, IsTrue, All};
ghost use Rattle.cq_terms.specs.Conflicts.{AreInConflict};
ghost use Rattle.cause_finder.specs.Groups.{IsFree, IsFreeAmong};

use cq_terms::{Conflicts, has_sorted};

/// Whether a fact conflicts with none of these.
fn conflicts_with_none(conflicts: &Conflicts, fact: u32, facts: &[u32]) -> bool
    requires known { fact < conflicts.now.facts }

    ensures exact { IsTrue result ↔ All (λ j. ¬ AreInConflict conflicts.now.clashes fact j) facts.now }
{
    let rivals = conflicts.of(fact);
    for other in facts {
        if has_sorted(rivals, *other) {
            return false;
        }
    }
    true
}

/// Whether a fact is consistent with each of these.
fn is_free_among(conflicts: &Conflicts, fact: u32, facts: &[u32]) -> bool
    requires known { fact < conflicts.now.facts }

    ensures exact { IsTrue result ↔ IsFreeAmong conflicts.now.clashes facts.now fact }
{
    if conflicts.is_own(fact) {
        return false;
    }
    conflicts_with_none(conflicts, fact, facts)
}

/// Whether these facts are consistent: none is self-inconsistent and no two conflict.
pub(crate) fn is_free(conflicts: &Conflicts, facts: &[u32]) -> bool
    requires known { All (λ i. i < conflicts.now.facts) facts.now }

    ensures exact { IsTrue result ↔ IsFree conflicts.now.clashes facts.now }
{
    for fact in facts {
        if !is_free_among(conflicts, *fact, facts) {
            return false;
        }
    }
    true
}
