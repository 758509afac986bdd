//! Fact numbers sorted by a place of the fact: its predicate and one of its individuals.

ghost use Rattle.std.specs.Prelude.{◌≡◌, ◌≤◌, ◌<◌, ◌^◌, ℕ, length, Contains, IfOk, IfSome, Some};
ghost use Rattle.std.specs.List.Sorted.{IsPermutation};
ghost use Rattle.plain_match.specs.Places.{key_of, StandsAt, IsUnder, AreKeyedFacts, IsCutBelow, IsCutAbove};

use cq_terms::{Fact, NoMemory};
use std::alloc::Global;
use std::marker::Model;

/// Which individual of a fact it is sorted by.
#[derive(Clone, Copy, Debug, PartialEq, Eq)]
pub(crate) enum Side {
    /// That of a concept.
    Member,
    /// The first of a role.
    From,
    /// The second of a role.
    To,
}

/// The number of a fact under its place.
#[derive(Clone, Copy, Debug)]
pub(crate) struct KeyedFact {
    /// The place as one number.
    pub key: u64,
    /// The number of the fact.
    pub number: u32,
}

/// A predicate and an individual as one number: these go by predicate, and then by individual.
pub(crate) fn key(pred: u32, ind: u32) -> u64
    ensures exact { result ≡ key_of pred ind }
{
    pred as u64 * 4_294_967_296 + ind as u64
}

/// The place of the fact on that side, or `None` where it has no such side.
fn place(side: Side, fact: Fact) -> Option<u64>
    ensures found { (pred ind : ℕ) → StandsAt side fact pred ind → (ind < 2 ^ 32) × (result ≡ Some (key_of pred ind)) }
{
    match (side, fact) {
        (Side::Member, Fact::Concept { pred, ind }) => Some(key(pred, ind)),
        (Side::From, Fact::Link { pred, from, .. }) => Some(key(pred, from)),
        (Side::To, Fact::Link { pred, to, .. }) => Some(key(pred, to)),
        _ => None,
    }
}

/// Lists the facts that have that side. Past 2^32 facts, which have no numbers, memory is said to have run out.
pub(crate) fn keyed_facts(
    alloc: Global,
    side: Side,
    facts: &[Fact],
) -> Result<Vec<KeyedFact>, NoMemory>
    ensures exact { IfOk result (λ list. AreKeyedFacts side facts.now list.items) }
{
    let mut list = Vec::new(alloc);
    for index in 0..facts.len() {
        let Ok(number) = u32::try_from(index) else {
            return Err(NoMemory);
        };
        if let Some(key) = place(side, facts[index]) {
            list.push(KeyedFact { key, number })?;
        }
    }
    Ok(list)
}

/// Fact numbers in ascending order of their keys.
#[derive(Debug, Drop)]
pub(crate) struct SortedFacts {
    list: Vec<KeyedFact>,
}

impl Model for SortedFacts {
    ghost use Rattle.std.specs.Prelude.{List};
    ghost use Rattle.std.specs.List.Sorted.{IsNonDecreasingBy};
    ghost use Rattle.plain_match.specs.declared.places.KeyedFact.{KeyedFact};

    ghost Value = { List KeyedFact };

    ghost view = { λ a. a.list.items };

    ghost invariant = { λ a. IsNonDecreasingBy (λ e. e.key) a.list.items };
}

impl SortedFacts {
    /// Sorts them.
    pub fn new(mut list: Vec<KeyedFact>) -> SortedFacts
        ensures exact { IsPermutation list.items result }
    {
        list.sort_unstable_by_key(|fact| fact.key);
        SortedFacts { list }
    }

    /// Lends those with keys from `low` to `high`, both among them.
    pub fn between(&self, low: u64, high: u64) -> &[KeyedFact]
        requires ordered { low ≤ high }

        ensures all { (e : KeyedFact) → Contains self.now e → low ≤ e.key → e.key ≤ high → Contains result.now e }
        ensures own { (e : KeyedFact) → Contains result.now e → Contains self.now e }
    {
        let from = self.below(low);
        let to = self.not_above(high);
        &self.list.as_slice()[from..to]
    }

    /// How many have a key below the number: these come first.
    fn below(&self, key: u64) -> usize
        ensures exact { IsCutBelow self.now key result }
        ensures within { result ≤ length self.now }
    {
        self.list.partition_point(|fact| fact.key < key)
    }

    /// How many have no key above the number: these come first.
    fn not_above(&self, key: u64) -> usize
        ensures exact { IsCutAbove self.now key result }
        ensures within { result ≤ length self.now }
    {
        self.list.partition_point(|fact| fact.key <= key)
    }

    /// Lends fact numbers, among them each under the predicate and, where one is given, the individual.
    pub fn under(&self, pred: u32, individual: Option<u32>) -> &[KeyedFact]
        ensures all { (n ind : ℕ) → ind < 2 ^ 32 → IfSome individual (λ c. ind ≡ c) → IsUnder pred ind n self.now
            → IsUnder pred ind n result.now }
        ensures own { (e : KeyedFact) → Contains result.now e → Contains self.now e }
    {
        match individual {
            Some(ind) => self.between(key(pred, ind), key(pred, ind)),
            None => self.between(key(pred, 0), key(pred, u32::MAX)),
        }
    }
}
