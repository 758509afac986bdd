//! Facts whose clause a lesser fact shares.

ghost use Rattle.std.specs.Prelude.{◌≡◌, ◌⊎◌, ◌↔◌, ◌<◌, ℕ, Contains, IsTrue};
ghost use Rattle.cq_terms.specs.Lists.{IsAscending};
ghost use Rattle.repair_encoder.specs.Twins.{AreTwins, HasLesserTwin, SpeaksOf};

use cq_terms::has_sorted;
use priority_graph::Better;

/// Whether a lesser fact shares the clause of the fact: so it is where two facts block each other and have the same further
/// blockers. The cost is the blockers of the fact, and for each lesser one of them those up to the first that only one has.
pub(crate) fn has_lesser_twin(better: &Better, fact: u32) -> bool
    requires known { fact < better.now.facts }

    ensures exact { IsTrue result ↔ HasLesserTwin better.now fact }
{
    for other in better.blockers(fact) {
        if *other < fact && are_twins(better, fact, *other) {
            return true;
        }
    }
    false
}

/// Whether the clauses of the two facts speak of the same facts.
fn are_twins(better: &Better, left: u32, right: u32) -> bool
    requires known { left < better.now.facts }
    requires known_right { right < better.now.facts }

    ensures exact { IsTrue result ↔ AreTwins better.now left right }
{
    speaks_of_all(better, right, left) && speaks_of_all(better, left, right)
}

/// Whether the clause of the fact speaks of all of which the clause of the other one speaks.
fn speaks_of_all(better: &Better, fact: u32, other: u32) -> bool
    requires known { fact < better.now.facts }
    requires known_other { other < better.now.facts }

    ensures exact { IsTrue result ↔ ((f : ℕ) → SpeaksOf better.now other f → SpeaksOf better.now fact f) }
{
    let blockers = better.blockers(fact);
    if !is_of(blockers, fact, other) {
        return false;
    }
    for blocker in better.blockers(other) {
        if !is_of(blockers, fact, *blocker) {
            return false;
        }
    }
    true
}

/// Whether the number is the given one or in the ascending list.
fn is_of(list: &[u32], given: u32, number: u32) -> bool
    requires ascending { IsAscending list.now }

    ensures exact { IsTrue result ↔ ((number ≡ given) ⊎ Contains list.now number) }
{
    if number == given {
        return true;
    }
    has_sorted(list, number)
}
