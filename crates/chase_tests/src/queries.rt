//! Random queries of one to three atoms, with variables that join, that stand in the head or that occur once, and with constants.

use crate::inputs::Drawing;
use plain_chase::{Asked, Atom, Axiom, Basic, Place, Query, Table};
use std::alloc::{AllocError, Global};

/// How many variables a query has at most.
const VARIABLES: usize = 3;

impl Drawing {
    /// A query over the table.
    pub(crate) fn query(&mut self, alloc: Global, table: &Table) -> Result<Query, AllocError> {
        let mut body = Vec::new(alloc);
        for _ in 0..self.atoms() {
            body.push(self.asked(table))?;
        }
        let head = self.head(&body);
        Ok(Query { head, body })
    }

    /// How many atoms the query has: mostly one or two.
    fn atoms(&mut self) -> usize {
        match self.numbers.below(10) {
            0..=3 => 1,
            4..=7 => 2,
            _ => 3,
        }
    }

    /// An atom of the query: mostly of the right side of an axiom, or of the predicate of a fact.
    fn asked(&mut self, table: &Table) -> Asked {
        match self.numbers.below(10) {
            0..=4 => self.asked_of_axiom(table),
            5..=7 => self.asked_of_fact(table),
            _ => self.asked_anew(),
        }
    }

    /// An atom of the right side of an axiom.
    fn asked_of_axiom(&mut self, table: &Table) -> Asked {
        let place = self.numbers.below(table.axioms.len());
        match table.axioms.get(place).copied() {
            Some(Axiom::Sub { right, .. }) => self.asked_of_basic(right),
            Some(Axiom::SubRole { right, .. }) => self.asked_link(right.name),
            _ => self.asked_of_fact(table),
        }
    }

    /// An atom of a basic concept.
    fn asked_of_basic(&mut self, basic: Basic) -> Asked {
        match basic {
            Basic::Concept(name) => self.asked_concept(name),
            Basic::Exists(role) => self.asked_link(role.name),
        }
    }

    /// An atom of the predicate of a fact.
    fn asked_of_fact(&mut self, table: &Table) -> Asked {
        match self.one_of(&table.facts) {
            Some(Atom::Concept { name, .. }) => self.asked_concept(name),
            Some(Atom::Link { name, .. }) => self.asked_link(name),
            None => self.asked_anew(),
        }
    }

    /// An atom of any predicate.
    fn asked_anew(&mut self) -> Asked {
        if self.numbers.is_below(60) {
            let name = self.role_name();
            return self.asked_link(name);
        }
        let name = self.concept();
        self.asked_concept(name)
    }

    /// An atom of the concept.
    fn asked_concept(&mut self, name: usize) -> Asked {
        let at = self.place();
        Asked::Concept { name, at }
    }

    /// An atom of the role.
    fn asked_link(&mut self, name: usize) -> Asked {
        let from = self.place();
        let to = self.place();
        Asked::Link { name, from, to }
    }

    /// A constant or a variable.
    fn place(&mut self) -> Place {
        if self.numbers.is_below(15) {
            return Place::Individual(self.individual());
        }
        Place::Variable(self.numbers.below(VARIABLES))
    }

    /// None to two variables of the body, in either order.
    fn head(&mut self, body: &[Asked]) -> [Option<usize>; 2] {
        if self.numbers.is_below(35) {
            return [None, None];
        }
        let first = self.head_variable(body);
        let second = self.head_variable(body);
        match first {
            None => [second, None],
            Some(_) if first == second => [first, None],
            Some(_) => [first, second],
        }
    }

    /// A variable of the body, or none.
    fn head_variable(&mut self, body: &[Asked]) -> Option<usize> {
        let variable = self.numbers.below(VARIABLES);
        if body.iter().any(|asked| asked.has(variable)) {
            return Some(variable);
        }
        None
    }
}
