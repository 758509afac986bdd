//! Knowledge bases.

ghost use Rattle.std.specs.Prelude.{◌≡◌};
ghost use Rattle.cq_terms.specs.Knowledge.{AreDistinct, NameFacts};

use crate::{Axiom, Fact, Pair};
use std::marker::Model;

/// A knowledge base: axioms, distinct facts in the order of their numbers, and pairs of facts.
#[derive(Debug, Drop)]
pub struct Kb {
    axioms: Vec<Axiom>,
    facts: Vec<Fact>,
    pairs: Vec<Pair>,
}

impl Model for Kb {
    ghost use Rattle.cq_terms.specs.Knowledge.{Knowledge, AreDistinct, NameFacts};

    ghost Value = { Knowledge };

    ghost view = { λ a. record { axioms = a.axioms.items; facts = a.facts.items; pairs = a.pairs.items } };

    ghost invariant = { λ a. AreDistinct a.facts.items × NameFacts a.facts.items a.pairs.items };
}

impl Kb {
    /// The knowledge base of the three lists.
    pub fn new(axioms: Vec<Axiom>, facts: Vec<Fact>, pairs: Vec<Pair>) -> Kb
        requires distinct { AreDistinct facts.items }
        requires named { NameFacts facts.items pairs.items }

        ensures exact { result ≡ record { axioms = axioms.items; facts = facts.items; pairs = pairs.items } }
    {
        Kb {
            axioms,
            facts,
            pairs,
        }
    }

    /// Lends the axioms, by number.
    pub fn axioms(&self) -> &[Axiom]
        ensures lent { result.now ≡ self.now.axioms }
    {
        self.axioms.as_slice()
    }

    /// Lends the facts, by number.
    pub fn facts(&self) -> &[Fact]
        ensures lent { result.now ≡ self.now.facts }
        ensures distinct { AreDistinct self.now.facts }
    {
        self.facts.as_slice()
    }

    /// Lends the pairs.
    pub fn pairs(&self) -> &[Pair]
        ensures lent { result.now ≡ self.now.pairs }
        ensures named { NameFacts self.now.facts self.now.pairs }
    {
        self.pairs.as_slice()
    }
}
