//! Conjunctive queries over a chase: every tuple of individuals that is the head of a match.

use crate::atoms::{Atom, Axiom, Basic, Role};
use crate::chase::{Chase, ChaseFault};
use std::alloc::{AllocError, Global};

/// How many variables a query has at most: they are the numbers below this.
pub const MOST_VARIABLES: usize = 6;

/// What stands at a place of an atom of a query.
#[derive(Clone, Copy, Debug, PartialEq, Eq)]
pub enum Place {
    Variable(usize),
    Individual(usize),
}

/// An atom of a query.
#[derive(Clone, Copy, Debug, PartialEq, Eq)]
pub enum Asked {
    Concept { name: usize, at: Place },
    Link { name: usize, from: Place, to: Place },
}

/// A query with at most two head variables.
#[derive(Drop)]
pub struct Query {
    pub head: [Option<usize>; 2],
    pub body: Vec<Asked>,
}

/// The individuals for the head of a query, and nothing where the head has no variable.
pub type Tuple = [Option<usize>; 2];

/// A term for each variable that is bound.
type Binding = [Option<usize>; MOST_VARIABLES];

impl Asked {
    /// Whether the variable stands in the atom.
    pub fn has(self, variable: usize) -> bool {
        let sought = Place::Variable(variable);
        match self {
            Asked::Concept { at, .. } => at == sought,
            Asked::Link { from, to, .. } => from == sought || to == sought,
        }
    }
}

impl Query {
    /// Whether the variable stands in the head, or in an atom of the body from the place on.
    fn needs(&self, variable: usize, from: usize) -> bool {
        if self.head.contains(&Some(variable)) {
            return true;
        }
        for (place, asked) in self.body.iter().enumerate() {
            if place >= from && asked.has(variable) {
                return true;
            }
        }
        false
    }

    /// What stays of the binding for the head and for the atoms from the place on.
    fn needed(&self, binding: &Binding, from: usize) -> Binding {
        let mut kept = [None; MOST_VARIABLES];
        for variable in 0..MOST_VARIABLES {
            if self.needs(variable, from) {
                kept[variable] = binding[variable];
            }
        }
        kept
    }

    /// How deep the nulls have to be nested so that a chase shows every match in the whole chase.
    ///
    /// What lies below a null depends on its role alone, so each null has its like at a depth of at most the number of roles that
    /// axioms give nulls for: where a role comes twice on the way down, what lies between can be left out. The atoms onto which
    /// connected atoms of the query map either touch an individual, and then reach as many steps below it as there are atoms at
    /// most, or lie below their topmost null, which has its like so high. One more step shows what a term belongs to.
    pub fn depth(&self, alloc: Global, axioms: &[Axiom]) -> Result<usize, ChaseFault> {
        Ok(null_depth(alloc, axioms)?.saturating_add(self.body.len()))
    }
}

/// How deep the nulls have to be nested so that every kind of null has one there with all that it belongs to: one more than the
/// roles that axioms give nulls for.
pub fn null_depth(alloc: Global, axioms: &[Axiom]) -> Result<usize, ChaseFault> {
    let mut roles: Vec<Role> = Vec::new(alloc);
    for axiom in axioms {
        if let Some(role) = role_of_nulls(*axiom) {
            if !roles.contains(&role) {
                roles.push(role)?;
            }
        }
    }
    Ok(roles.len().saturating_add(1))
}

/// The role for which the axiom gives nulls.
fn role_of_nulls(axiom: Axiom) -> Option<Role> {
    let Axiom::Sub { right, .. } = axiom else {
        return None;
    };
    let Basic::Exists(role) = right else {
        return None;
    };
    Some(role)
}

/// The binding with the term at the place, where it fits.
fn bound(binding: &Binding, place: Place, term: usize) -> Option<Binding> {
    match place {
        Place::Individual(individual) => {
            if individual == term {
                Some(*binding)
            } else {
                None
            }
        }
        Place::Variable(variable) => bound_variable(binding, variable, term),
    }
}

/// The binding with the term for the variable, where it fits.
fn bound_variable(binding: &Binding, variable: usize, term: usize) -> Option<Binding> {
    if variable >= MOST_VARIABLES {
        return None;
    }
    match binding[variable] {
        Some(known) => { if known == term { Some(*binding) } else { None } }
        None => {
            let mut more = *binding;
            more[variable] = Some(term);
            Some(more)
        }
    }
}

/// The binding under which the atom of the query becomes the atom, where there is one.
fn mapped(binding: &Binding, asked: Asked, atom: Atom) -> Option<Binding> {
    match asked {
        Asked::Concept { name, at } => {
            let term = atom.member_of(Basic::Concept(name))?;
            bound(binding, at, term)
        }
        Asked::Link { name, from, to } => {
            let role = Role {
                name,
                is_inverse: false,
            };
            let (first, second) = atom.pair_of(role)?;
            let start = bound(binding, from, first)?;
            bound(&start, to, second)
        }
    }
}

impl Chase {
    /// The tuples of individuals that are heads of matches of the query, each once, in lexicographic order.
    pub fn answers(&self, alloc: Global, query: &Query) -> Result<Vec<Tuple>, ChaseFault> {
        let mut bindings = Vec::new(alloc);
        bindings.push([None; MOST_VARIABLES])?;
        for place in 0..query.body.len() {
            bindings = self.extended(alloc, query, place, &bindings)?;
        }
        let mut tuples = self.heads(alloc, query, &bindings)?;
        tuples.sort()?;
        Ok(tuples)
    }

    /// The bindings with which the atom of the query at the place maps too, without what isn't needed any more.
    fn extended(
        &self,
        alloc: Global,
        query: &Query,
        place: usize,
        bindings: &[Binding],
    ) -> Result<Vec<Binding>, AllocError> {
        let mut more = Vec::new(alloc);
        if let Some(asked) = query.body.get(place) {
            for binding in bindings {
                self.put_mapped(query, place, *asked, binding, &mut more)?;
            }
        }
        Ok(more)
    }

    /// Puts each binding that goes on from this one behind the others, where it is new.
    fn put_mapped(
        &self,
        query: &Query,
        place: usize,
        asked: Asked,
        binding: &Binding,
        more: &mut Vec<Binding>,
    ) -> Result<(), AllocError> {
        for atom in self.atoms() {
            if let Some(found) = mapped(binding, asked, *atom) {
                let kept = query.needed(&found, place.saturating_add(1));
                put_new(more, kept)?;
            }
        }
        Ok(())
    }

    /// The tuples of individuals that the bindings give for the head.
    fn heads(
        &self,
        alloc: Global,
        query: &Query,
        bindings: &[Binding],
    ) -> Result<Vec<Tuple>, AllocError> {
        let mut tuples = Vec::new(alloc);
        for binding in bindings {
            let [first, second] = query.head;
            let tuple = [value(binding, first), value(binding, second)];
            if self.has_no_null(&tuple) && !tuples.contains(&tuple) {
                tuples.push(tuple)?;
            }
        }
        Ok(tuples)
    }

    /// Whether all that stands in the tuple are individuals.
    fn has_no_null(&self, tuple: &Tuple) -> bool {
        let [first, second] = *tuple;
        self.is_no_null(first) && self.is_no_null(second)
    }

    /// Whether it isn't a null.
    fn is_no_null(&self, term: Option<usize>) -> bool {
        match term {
            Some(number) => self.is_individual(number),
            None => true,
        }
    }
}

/// Puts the binding behind the others where it is new.
fn put_new(bindings: &mut Vec<Binding>, binding: Binding) -> Result<(), AllocError> {
    if !bindings.contains(&binding) {
        bindings.push(binding)?;
    }
    Ok(())
}

/// The term for the variable.
fn value(binding: &Binding, variable: Option<usize>) -> Option<usize> {
    let number = variable?;
    if number < MOST_VARIABLES {
        binding[number]
    } else {
        None
    }
}
