//! The facts with the lists of their numbers by places.

ghost use Rattle.std.specs.Prelude.{◌≡◌, ◌<◌, ◌^◌, ◌↔◌, [], length, slice_get, IfOk, Some, IsTrue};
ghost use Rattle.cq_terms.specs.Knowledge.{AreDistinct};
ghost use Rattle.fact_index.specs.Numbers.{AreNumbers, HasPred, HasFirst, HasSecond};
ghost use Rattle.fact_index.specs.Places.{StandsAt};

use crate::gathered::{Gathered, gather};
use crate::place::Place;
use cq_terms::{Fact, FlatLists, Kind, NoMemory};
use indexmap::IndexSet;
use std::alloc::Global;
use std::marker::Model;

/// The facts of a table, seen as their list. It has the numbers of the facts of each predicate, and of each predicate with
/// an individual at one of its places.
#[derive(Debug, Drop)]
pub struct Index {
    facts: Vec<Fact>,
    places: IndexSet<Place>,
    numbers: FlatLists,
}

impl Model for Index {
    ghost use Rattle.std.specs.Prelude.{List};
    ghost use Rattle.cq_terms.specs.declared.facts.Fact.{Fact};
    ghost use Rattle.fact_index.specs.Indexed.{IsIndexed};

    ghost Value = { List Fact };

    ghost view = { λ a. a.facts.items };

    ghost invariant = { λ a. IsIndexed a.facts.items a.places.keys a.numbers };
}

impl Index {
    /// The index of a table, whose facts are distinct. It goes over the facts twice, and keeps two or three numbers for each
    /// fact and each place once. `NoMemory` may come at any time. It comes too where there are 2^32 places or more, since their
    /// numbers have 32 bits; so many take more than 50 GB by themselves.
    pub fn build(alloc: Global, facts: &[Fact]) -> Result<Index, NoMemory>
        requires distinct { AreDistinct facts.now }
        requires few { length facts.now < 2 ^ 31 }

        ensures exact { IfOk result (λ index. index ≡ facts.now) }
    {
        let Gathered { places, entries } = gather(alloc, facts)?;
        let Ok(count) = u32::try_from(places.len()) else {
            return Err(NoMemory);
        };
        let numbers = FlatLists::grouped(alloc, count, &entries)?;
        let facts = Vec::from_slice(alloc, facts)?;
        Ok(Index {
            facts,
            places,
            numbers,
        })
    }

    /// The fact of a number.
    pub fn fact(&self, number: u32) -> Fact
        requires named { number < length self.now }

        ensures exact { slice_get self.now number ≡ Some result }
    {
        self.facts[number as usize]
    }

    /// How many facts there are.
    pub fn len(&self) -> u32
        ensures exact { result ≡ length self.now }
        ensures few { length self.now < 2 ^ 31 }
        ensures distinct { AreDistinct self.now }
    {
        self.facts.len() as u32
    }

    /// Whether there is no fact.
    pub fn is_empty(&self) -> bool
        ensures exact { IsTrue result ↔ (self.now ≡ []) }
    {
        self.facts.is_empty()
    }

    /// Lends the ascending numbers of the facts of a predicate, which is a concept or a role. Where no fact has it, there are
    /// none.
    pub fn with_pred(&self, kind: Kind, pred: u32) -> &[u32]
        ensures lent { AreNumbers (HasPred kind pred) self.now result.now }
    {
        match kind {
            Kind::Concept => self.at(Place::Concept { pred }),
            Kind::Link => self.at(Place::Role { pred }),
        }
    }

    /// Lends the ascending numbers of the facts of a predicate whose first place is the individual.
    pub fn with_pred_first(&self, kind: Kind, pred: u32, ind: u32) -> &[u32]
        ensures lent { AreNumbers (HasFirst kind pred ind) self.now result.now }
    {
        match kind {
            Kind::Concept => self.at(Place::Member { pred, ind }),
            Kind::Link => self.at(Place::From { pred, ind }),
        }
    }

    /// Lends the ascending numbers of the facts of a role whose second place is the individual.
    pub fn with_pred_second(&self, pred: u32, ind: u32) -> &[u32]
        ensures lent { AreNumbers (HasSecond pred ind) self.now result.now }
    {
        self.at(Place::To { pred, ind })
    }

    /// Lends the ascending numbers of the facts at a place.
    fn at(&self, place: Place) -> &[u32]
        ensures lent { AreNumbers (StandsAt place) self.now result.now }
    {
        match self.places.get_index_of(&place) {
            Some(at) => self.numbers.list(at as u32),
            None => &[],
        }
    }
}
