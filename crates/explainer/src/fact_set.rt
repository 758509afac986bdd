//! A set of facts in the order in which they came, with a look-up that takes constant time.

ghost use Rattle.std.specs.Prelude.{◌≡◌, ◌≢◌, ◌↔◌, ◌<◌, [], length, slice_index, AllPairs, Contains, IsTrue, IfOk, OnOk};
ghost use Rattle.explainer.specs.Sets.{Gains, Meets};
ghost use Rattle.cq_terms.specs.Lists.{IsSorted};

use cq_terms::{Ids, NoMemory};
use indexmap::IndexSet;
use std::alloc::Global;
use std::marker::Model;

/// A list of distinct facts.
#[derive(Drop)]
pub(crate) struct FactSet {
    facts: IndexSet<u32>,
}

impl Model for FactSet {
    ghost use Rattle.std.specs.Prelude.{ℕ, List};

    ghost Value = { List ℕ };

    ghost view = { λ s. s.facts.keys };
}

impl FactSet {
    /// The empty set, which takes no memory.
    pub(crate) fn new(alloc: Global) -> Self
        ensures { result ≡ [] }
    {
        FactSet {
            facts: IndexSet::new(alloc),
        }
    }

    /// Appends the fact unless it is in the set.
    pub(crate) fn put(&mut self, fact: u32) -> Result<(), NoMemory>
        ensures exact { OnOk result (Gains fact self.old self.new) }
    {
        let _new = self.facts.insert(fact)?;
        Ok(())
    }

    /// Whether the fact is in the set.
    pub(crate) fn has(&self, fact: u32) -> bool
        ensures exact { IsTrue result ↔ Contains self.now fact }
    {
        self.facts.contains(&fact)
    }

    /// Whether one of the facts is in the set.
    pub(crate) fn meets(&self, facts: &[u32]) -> bool
        ensures exact { IsTrue result ↔ Meets facts.now self.now }
    {
        for fact in facts {
            if self.has(*fact) {
                return true;
            }
        }
        false
    }

    /// How many facts there are.
    pub(crate) fn len(&self) -> usize
        ensures exact { result ≡ length self.now }
        ensures once { AllPairs (λ i j. i ≢ j) self.now }
    {
        self.facts.len()
    }

    /// The fact that came at the place.
    pub(crate) fn at(&self, place: usize) -> u32
        requires inside { place < length self.now }

        ensures exact { result ≡ slice_index self.now place }
    {
        self.facts.as_slice()[place]
    }

    /// The facts in ascending order.
    pub(crate) fn sorted(&self, alloc: Global) -> Result<Ids, NoMemory>
        ensures exact { IfOk result (IsSorted self.now) }
    {
        Ids::sorted(alloc, self.facts.as_slice())
    }
}
