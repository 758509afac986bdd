//! A set of facts, with a look-up that takes constant time.

ghost use Rattle.std.specs.Prelude.{◌≡◌, ◌↔◌, ◌⊎◌, [], ◌∷◌, ◌++◌, List, ℕ, Contains, IsTrue, IfOk, OnOk, OnErr};
ghost use Rattle.clause_meaning.specs.Refutation.{IsWithin};
ghost use Rattle.cq_terms.specs.Lists.{IsSorted};
ghost use Rattle.answer_evidence.specs.Sets.{Gains, SomeWithin};

use cq_terms::{Ids, NoMemory};
use indexmap::IndexSet;
use std::alloc::Global;
use std::marker::Model;

/// A list of distinct facts.
#[derive(Drop)]
pub(crate) struct FactSet {
    facts: IndexSet<u32>,
}

impl Model for FactSet {
    ghost use Rattle.std.specs.Prelude.{ℕ, List};

    ghost Value = { List ℕ };

    ghost view = { λ s. s.facts.keys };
}

impl FactSet {
    /// The empty set, which takes no memory.
    pub(crate) fn new(alloc: Global) -> Self
        ensures { result ≡ [] }
    {
        FactSet {
            facts: IndexSet::new(alloc),
        }
    }

    /// Appends the fact unless it is in the set.
    pub(crate) fn put(&mut self, fact: u32) -> Result<(), NoMemory>
        ensures exact { OnOk result (Gains fact self.old self.new) }
    {
        let _new = self.facts.insert(fact)?;
        Ok(())
    }

    /// Whether the fact is in the set.
    pub(crate) fn has(&self, fact: u32) -> bool
        ensures exact { IsTrue result ↔ Contains self.now fact }
    {
        self.facts.contains(&fact)
    }

    /// Whether all of the facts are in the set.
    pub(crate) fn has_all(&self, facts: &[u32]) -> bool
        ensures exact { IsTrue result ↔ IsWithin facts.now self.now }
    {
        for fact in facts {
            if !self.has(*fact) {
                return false;
            }
        }
        true
    }

    /// Whether all facts of one of the lists are in the set.
    pub(crate) fn has_one(&self, lists: &[Ids]) -> bool
        ensures exact { IsTrue result ↔ SomeWithin lists.now self.now }
    {
        for list in lists {
            if self.has_all(list.as_slice()) {
                return true;
            }
        }
        false
    }

    /// The facts in ascending order, each once, with the number behind them.
    pub(crate) fn sorted_with(&self, alloc: Global, last: u32) -> Result<Vec<u32>, NoMemory>
        ensures exact { IfOk result (λ numbers. (sorted : List ℕ) × IsSorted self.now sorted × (numbers.items ≡ sorted ++ last ∷ [])) }
    {
        let mut facts = Vec::from_slice(alloc, self.facts.as_slice())?;
        facts.sort_unstable();
        facts.dedup();
        facts.push(last)?;
        Ok(facts)
    }
}
