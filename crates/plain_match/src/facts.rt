//! The facts with their numbers sorted by predicate and place.

ghost use Rattle.std.specs.Prelude.{◌≡◌, ◌<◌, ℕ, length, slice_get, Some, IfOk, IfSome, All};
ghost use Rattle.cq_terms.specs.Knowledge.{AreDistinct};
ghost use Rattle.plain_match.specs.Places.{StandsAt, AreKeyedFacts, HasNumber};

use crate::places::{KeyedFact, Side, SortedFacts, keyed_facts};
use cq_terms::{Fact, NoMemory};
use std::alloc::Global;
use std::marker::Model;

/// The facts of a table, sorted by predicate and place. It is seen as their list.
#[derive(Debug, Drop)]
pub struct PlainFacts {
    facts: Vec<Fact>,
    members: SortedFacts,
    from: SortedFacts,
    to: SortedFacts,
}

impl Model for PlainFacts {
    ghost use Rattle.std.specs.Prelude.{List};
    ghost use Rattle.cq_terms.specs.declared.facts.Fact.{Fact};
    ghost use Rattle.cq_terms.specs.Knowledge.{AreDistinct};
    ghost use Rattle.plain_match.specs.declared.places.Side.TheVariants as side;
    ghost use Rattle.plain_match.specs.Places.{AreKeyedFacts};

    ghost Value = { List Fact };

    ghost view = { λ a. a.facts.items };

    ghost invariant = { λ a. AreDistinct a.facts.items × AreKeyedFacts side.Member a.facts.items a.members
        × AreKeyedFacts side.From a.facts.items a.from × AreKeyedFacts side.To a.facts.items a.to };
}

impl PlainFacts {
    /// Sorts the facts of a table, which are distinct. It keeps the number of each once or twice. `NoMemory` may come at any time,
    /// and comes where there are more than 2^32 facts.
    pub fn build(alloc: Global, facts: &[Fact]) -> Result<PlainFacts, NoMemory>
        requires distinct { AreDistinct facts.now }

        ensures exact { IfOk result (λ plain. plain ≡ facts.now) }
    {
        let members = sorted(alloc, Side::Member, facts)?;
        let from = sorted(alloc, Side::From, facts)?;
        let to = sorted(alloc, Side::To, facts)?;
        let facts = Vec::from_slice(alloc, facts)?;
        Ok(PlainFacts {
            facts,
            members,
            from,
            to,
        })
    }

    /// How many facts there are.
    pub(crate) fn len(&self) -> usize
        ensures exact { result ≡ length self.now }
        ensures distinct { AreDistinct self.now }
    {
        self.facts.len()
    }

    /// The fact of a number.
    pub(crate) fn fact(&self, number: u32) -> Fact
        requires named { number < length self.now }

        ensures exact { slice_get self.now number ≡ Some result }
    {
        self.facts[number as usize]
    }

    /// Lends numbers of facts, among them each that has the predicate and, where one is given, the individual on that side.
    pub(crate) fn at(&self, side: Side, pred: u32, individual: Option<u32>) -> &[KeyedFact]
        ensures all { (n : ℕ) (f : Fact) (ind : ℕ) → slice_get self.now n ≡ Some f → StandsAt side f pred ind
            → IfSome individual (λ c. ind ≡ c) → HasNumber result.now n }
        ensures named { All (λ e. e.number < length self.now) result.now }
    {
        self.list(side).under(pred, individual)
    }

    /// Lends the list of a side.
    fn list(&self, side: Side) -> &SortedFacts
        ensures exact { AreKeyedFacts side self.now result.now }
    {
        match side {
            Side::Member => &self.members,
            Side::From => &self.from,
            Side::To => &self.to,
        }
    }
}

/// The numbers of the facts with one side, sorted.
fn sorted(alloc: Global, side: Side, facts: &[Fact]) -> Result<SortedFacts, NoMemory>
    ensures exact { IfOk result (λ list. AreKeyedFacts side facts.now list) }
{
    Ok(SortedFacts::new(keyed_facts(alloc, side, facts)?))
}
