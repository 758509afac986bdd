//! Random tables: axioms of every kind, facts of concepts and links, and a priority.

use crate::numbers::Numbers;
use plain_chase::{Atom, Axiom, Basic, MOST_FACTS, Preferred, Role, Table};
use std::alloc::{AllocError, Global};

/// How many concept names there are.
const CONCEPTS: usize = 3;

/// How many names of roles there are.
const ROLES: usize = 2;

/// What the inputs are like. Each part is one of 100.
#[derive(Clone, Copy)]
pub(crate) struct Kind {
    /// How many individuals there are at most.
    pub(crate) individuals: usize,
    /// How many axioms there are at least, besides those of a split; there may be two more.
    pub(crate) axioms: usize,
    /// How many records of facts there are at least.
    pub(crate) records: usize,
    /// The part of axioms on roles.
    pub(crate) of_roles: usize,
    /// The part of disjointnesses.
    pub(crate) disjoint: usize,
    /// The part of basic concepts that are `some` of a role.
    pub(crate) exists: usize,
    /// The part of inputs with two disjoint basic concepts in a third.
    pub(crate) split: usize,
    /// The part of facts that are links.
    pub(crate) links: usize,
    /// The part of pairs of facts that the priority lists.
    pub(crate) preferred: usize,
    /// Whether the priority only goes down in an order of the facts, so that it has no cycle.
    pub(crate) is_ordered: bool,
}

/// A table, and for each record of the file of facts which fact it is.
#[derive(Drop)]
pub(crate) struct Facts {
    pub(crate) table: Table,
    pub(crate) records: Vec<usize>,
}

/// What inputs are drawn with: numbers, and how many individuals have been named.
#[derive(Drop)]
pub(crate) struct Drawing {
    pub(crate) numbers: Numbers,
    pub(crate) individuals: usize,
    most_individuals: usize,
}

impl Drawing {
    /// Begins an input of the kind.
    pub(crate) fn new(kind: &Kind, seed: usize) -> Drawing {
        Drawing {
            numbers: Numbers::new(seed),
            individuals: 0,
            most_individuals: kind.individuals,
        }
    }

    /// An individual: one that was named before, or the next one. So they are numbered by first appearance.
    pub(crate) fn individual(&mut self) -> usize {
        let bound = self
            .individuals
            .saturating_add(1)
            .min(self.most_individuals);
        let individual = self.numbers.below(bound);
        if individual == self.individuals {
            self.individuals = bound;
        }
        individual
    }

    /// The number of a concept name.
    pub(crate) fn concept(&mut self) -> usize {
        self.numbers.below(CONCEPTS)
    }

    /// The number of a role's name.
    pub(crate) fn role_name(&mut self) -> usize {
        self.numbers.below(ROLES)
    }

    /// One of the facts.
    pub(crate) fn one_of(&mut self, facts: &[Atom]) -> Option<Atom> {
        facts.get(self.numbers.below(facts.len())).copied()
    }

    /// The name or its inverse.
    fn role_of(&mut self, name: usize) -> Role {
        let is_inverse = self.numbers.is_below(50);
        Role { name, is_inverse }
    }

    /// A role, mostly of a fact where it is a link.
    fn role(&mut self, facts: &[Atom]) -> Role {
        let name = self.role_name();
        let known = match self.one_of(facts) {
            Some(Atom::Link { name, .. }) => name,
            _ => name,
        };
        let is_known = self.numbers.is_below(60);
        self.role_of(if is_known { known } else { name })
    }

    /// A basic concept, mostly one with a member by a fact.
    fn basic(&mut self, kind: &Kind, facts: &[Atom]) -> Basic {
        if self.numbers.is_below(60) {
            match self.one_of(facts) {
                Some(fact) => self.basic_of(fact),
                None => self.new_basic(kind),
            }
        } else {
            self.new_basic(kind)
        }
    }

    /// A basic concept, and any one where it is the given one.
    fn other_basic(&mut self, kind: &Kind, facts: &[Atom], given: Basic) -> Basic {
        let basic = self.basic(kind, facts);
        if basic == given {
            return self.new_basic(kind);
        }
        basic
    }

    /// A basic concept with a member by the fact.
    fn basic_of(&mut self, fact: Atom) -> Basic {
        match fact {
            Atom::Concept { name, .. } => Basic::Concept(name),
            Atom::Link { name, .. } => Basic::Exists(self.role_of(name)),
        }
    }

    /// Any basic concept.
    fn new_basic(&mut self, kind: &Kind) -> Basic {
        if self.numbers.is_below(kind.exists) {
            let name = self.role_name();
            return Basic::Exists(self.role_of(name));
        }
        Basic::Concept(self.concept())
    }

    /// An axiom.
    fn axiom(&mut self, kind: &Kind, facts: &[Atom]) -> Axiom {
        let is_disjoint = self.numbers.is_below(kind.disjoint);
        if self.numbers.is_below(kind.of_roles) {
            return self.role_axiom(is_disjoint, facts);
        }
        let left = self.basic(kind, facts);
        if is_disjoint {
            let right = self.other_basic(kind, facts, left);
            return Axiom::Disjoint { left, right };
        }
        let right = self.new_basic(kind);
        Axiom::Sub { left, right }
    }

    /// An axiom on roles.
    fn role_axiom(&mut self, is_disjoint: bool, facts: &[Atom]) -> Axiom {
        let left = self.role(facts);
        let right = self.role(facts);
        if is_disjoint {
            return Axiom::DisjointRole { left, right };
        }
        Axiom::SubRole { left, right }
    }

    /// A fact.
    fn fact(&mut self, kind: &Kind) -> Atom {
        if self.numbers.is_below(kind.links) {
            let name = self.role_name();
            let from = self.individual();
            let to = self.individual();
            return Atom::Link { name, from, to };
        }
        let name = self.concept();
        let term = self.individual();
        Atom::Concept { name, term }
    }
}

impl Drawing {
    /// A table of the kind with its records.
    pub(crate) fn facts(&mut self, alloc: Global, kind: &Kind) -> Result<Facts, AllocError> {
        let mut facts = Vec::new(alloc);
        let mut records = Vec::new(alloc);
        let more = MOST_FACTS.saturating_sub(kind.records).saturating_add(1);
        let count = self.numbers.below(more).saturating_add(kind.records);
        for _ in 0..count {
            let fact = self.fact(kind);
            put_record(&mut facts, &mut records, fact)?;
        }
        let axioms = self.axioms(alloc, kind, &facts)?;
        let pairs = self.pairs(alloc, kind, facts.len())?;
        let table = Table {
            individuals: self.individuals,
            facts,
            axioms,
            pairs,
        };
        Ok(Facts { table, records })
    }

    /// As many axioms as the kind has at least, or up to two more.
    fn axioms(
        &mut self,
        alloc: Global,
        kind: &Kind,
        facts: &[Atom],
    ) -> Result<Vec<Axiom>, AllocError> {
        let mut axioms = Vec::new(alloc);
        let count = self.numbers.below(3).saturating_add(kind.axioms);
        for _ in 0..count {
            let axiom = self.axiom(kind, facts);
            axioms.push(axiom)?;
        }
        if self.numbers.is_below(kind.split) {
            for axiom in self.split(kind, facts) {
                axioms.push(axiom)?;
            }
        }
        Ok(axioms)
    }

    /// The axioms of two disjoint basic concepts in a third.
    fn split(&mut self, kind: &Kind, facts: &[Atom]) -> [Axiom; 3] {
        let left = self.basic(kind, facts);
        let right = self.other_basic(kind, facts, left);
        let whole = self.new_basic(kind);
        [
            Axiom::Disjoint { left, right },
            Axiom::Sub { left, right: whole },
            Axiom::Sub {
                left: right,
                right: whole,
            },
        ]
    }

    /// A priority over so many facts.
    fn pairs(
        &mut self,
        alloc: Global,
        kind: &Kind,
        facts: usize,
    ) -> Result<Vec<Preferred>, AllocError> {
        let ranks = self.ranks();
        let mut pairs = Vec::new(alloc);
        for upper in 0..facts.min(MOST_FACTS) {
            for lower in 0..facts.min(MOST_FACTS) {
                let is_listed = self.numbers.is_below(kind.preferred);
                if is_listed && (!kind.is_ordered || ranks[upper] < ranks[lower]) {
                    pairs.push(Preferred { upper, lower })?;
                }
            }
        }
        Ok(pairs)
    }

    /// A rank for each fact.
    fn ranks(&mut self) -> [usize; MOST_FACTS] {
        let mut ranks = [0; MOST_FACTS];
        for place in 0..MOST_FACTS {
            ranks[place] = self.numbers.below(100);
        }
        ranks
    }
}

/// Puts a record of the fact behind the others, and the fact behind the facts where it is new.
fn put_record(
    facts: &mut Vec<Atom>,
    records: &mut Vec<usize>,
    fact: Atom,
) -> Result<(), AllocError> {
    if let Some(place) = facts.iter().position(|known| *known == fact) {
        records.push(place)?;
        return Ok(());
    }
    records.push(facts.len())?;
    facts.push(fact)?;
    Ok(())
}
