//! Whether an input is small, and its individuals have names.

ghost use Rattle.std.specs.Prelude.{◌<◌, ◌^◌, length, All, IsTrue};
ghost use Rattle.preparation.specs.Prepared.{IsFactBelow, IsTermBelow};
ghost use Rattle.classification_tests.specs.Told.{IsNamed};

use cq_terms::{Cq, Fact, Kb, Term, Vocab};

/// Whether each list has fewer than 2^31 items, and the individuals of the facts and of the head have names.
pub(crate) fn is_named(kb: &Kb, query: &Cq, vocab: &Vocab) -> bool
    ensures exact { IsTrue result → IsNamed kb.now query.now vocab.now }
{
    let count = vocab.inds.len();
    kb.axioms().len() < MOST
        && kb.facts().len() < MOST
        && kb.pairs().len() < MOST
        && query.body().len() < MOST
        && are_facts_named(kb.facts(), count)
        && are_terms_named(query.head(), count)
}

const MOST: usize = 1 << 31;

/// Whether the individuals of the facts have names.
fn are_facts_named(facts: &[Fact], count: usize) -> bool
    ensures exact { IsTrue result → All (IsFactBelow count) facts.now }
{
    for fact in facts {
        if !is_fact_named(*fact, count) {
            return false;
        }
    }
    true
}

/// Whether the individuals of the fact have names.
fn is_fact_named(fact: Fact, count: usize) -> bool
    ensures exact { IsTrue result → IsFactBelow count fact }
{
    match fact {
        Fact::Concept { ind, .. } => (ind as usize) < count,
        Fact::Link { from, to, .. } => (from as usize) < count && (to as usize) < count,
    }
}

/// Whether the constants of the head have names.
fn are_terms_named(terms: &[Term], count: usize) -> bool
    ensures exact { IsTrue result → All (IsTermBelow count) terms.now }
{
    for term in terms {
        if !is_term_named(*term, count) {
            return false;
        }
    }
    true
}

/// Whether the term is no constant, or one with a name.
fn is_term_named(term: Term, count: usize) -> bool
    ensures exact { IsTrue result → IsTermBelow count term }
{
    match term {
        Term::Ind(individual) => (individual as usize) < count,
        Term::Var(_) => true,
        Term::Any => true,
    }
}
