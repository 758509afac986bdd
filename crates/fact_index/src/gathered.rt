//! Facts gathered by the places at which they stand.

ghost use Rattle.std.specs.Prelude.{◌≡◌, ◌<◌, ◌≤◌, ◌+◌, ◌*◌, ◌^◌, ◌++◌, ◌∷◌, [], length, map, OnOk, IfOk, Some};
ghost use Rattle.fact_index.specs.Gathered.{told, told_of, IsGathered};
ghost use Rattle.fact_index.specs.Places.{places_of};

use crate::place::Place;
use cq_terms::{Fact, KeyedNumber, NoMemory};
use indexmap::IndexSet;
use std::alloc::Global;

/// The places in the order of their first appearance, and an entry for each fact and place, in the order of facts. The key
/// of an entry is the number of its place, and its value the number of the fact.
#[derive(Debug, Drop)]
pub(crate) struct Gathered {
    pub places: IndexSet<Place>,
    pub entries: Vec<KeyedNumber>,
}

/// The places of the facts. `NoMemory` comes too where the number of a place doesn't fit in 32 bits.
pub(crate) fn gather(alloc: Global, facts: &[Fact]) -> Result<Gathered, NoMemory>
    requires few { length facts.now < 2 ^ 31 }

    ensures whole { IfOk result IsGathered }
    ensures exact { IfOk result (λ g. told g ≡ told_of 0 facts.now) }
    ensures few { IfOk result (λ g. length g.entries.items ≤ 3 * length facts.now) }
{
    let mut gathered = Gathered {
        places: IndexSet::new(alloc),
        entries: Vec::new(alloc),
    };
    for (number, fact) in facts.iter().enumerate() {
        gathered.put_fact(fact, number as u32)?;
    }
    Ok(gathered)
}

impl Gathered {
    /// Appends an entry for each place of the fact.
    fn put_fact(&mut self, fact: &Fact, number: u32) -> Result<(), NoMemory>
        requires whole { IsGathered self.old }

        ensures whole { OnOk result (IsGathered self.new) }
        ensures exact { OnOk result (told self.new ≡ told self.old ++ map (λ p. (Some p, number)) (places_of fact.now)) }
    {
        match *fact {
            Fact::Concept { pred, ind } => {
                self.put(Place::Concept { pred }, number)?;
                self.put(Place::Member { pred, ind }, number)
            }
            Fact::Link { pred, from, to } => {
                self.put(Place::Role { pred }, number)?;
                self.put(Place::From { pred, ind: from }, number)?;
                self.put(Place::To { pred, ind: to }, number)
            }
        }
    }

    /// Appends an entry, where the number of its place fits in 32 bits.
    fn put(&mut self, place: Place, number: u32) -> Result<(), NoMemory>
        requires whole { IsGathered self.old }

        ensures whole { OnOk result (IsGathered self.new) }
        ensures exact { OnOk result (told self.new ≡ told self.old ++ (Some place, number) ∷ []) }
    {
        let (at, _) = self.places.insert_full(place)?;
        let Ok(key) = u32::try_from(at) else {
            return Err(NoMemory);
        };
        self.entries.push(KeyedNumber { key, value: number })?;
        Ok(())
    }
}
