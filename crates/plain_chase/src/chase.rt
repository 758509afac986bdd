//! The chase of a list of facts, down to a depth of nested nulls, and whether it meets no disjointness.

use crate::atoms::{Atom, Axiom, Basic, Role};
use std::alloc::{AllocError, AllocFailed, Global};

/// How many atoms a chase has at most.
const MOST_ATOMS: usize = 20_000;

/// Why there is no answer.
#[derive(Clone, Copy, Debug, PartialEq, Eq)]
pub enum ChaseFault {
    /// Memory is wanting.
    NoMemory,
    /// The chase has more atoms than this crate takes, or the table more facts.
    TooLarge,
}

impl From<AllocError> for ChaseFault {
    fn from(_: AllocError) -> ChaseFault {
        ChaseFault::NoMemory
    }
}

impl<T: Drop> From<AllocFailed<T>> for ChaseFault {
    fn from(_: AllocFailed<T>) -> ChaseFault {
        ChaseFault::NoMemory
    }
}

/// The null of a term and a role, and how deep it is nested.
#[derive(Clone, Copy, Debug, PartialEq, Eq)]
struct Null {
    parent: usize,
    role: Role,
    depth: usize,
}

/// The atoms that facts have as consequences under the positive axioms. The terms are the individuals, and then a null for each
/// pair of a term and a role, down to a depth.
#[derive(Drop)]
pub struct Chase {
    individuals: usize,
    depth: usize,
    nulls: Vec<Null>,
    atoms: Vec<Atom>,
}

impl Chase {
    /// The chase of the facts over so many individuals, with nulls that are nested at most so deep.
    ///
    /// Each axiom has one premise, so the union of all stages has the facts and with each atom its consequences. So one pass over
    /// a growing list gives it.
    pub fn of(
        alloc: Global,
        individuals: usize,
        facts: &[Atom],
        axioms: &[Axiom],
        depth: usize,
    ) -> Result<Chase, ChaseFault> {
        let mut chase = Chase {
            individuals,
            depth,
            nulls: Vec::new(alloc),
            atoms: Vec::from_slice(alloc, facts)?,
        };
        for place in 0..MOST_ATOMS {
            let Some(atom) = chase.atoms.get(place).copied() else {
                return Ok(chase);
            };
            chase.put_consequences(atom, axioms)?;
        }
        Err(ChaseFault::TooLarge)
    }

    /// Puts the consequences of the atom under each axiom behind the atoms.
    fn put_consequences(&mut self, atom: Atom, axioms: &[Axiom]) -> Result<(), AllocError> {
        for axiom in axioms {
            if let Some(next) = self.consequence(atom, *axiom)? {
                self.put(next)?;
            }
        }
        Ok(())
    }

    /// The consequence of the atom under the axiom.
    fn consequence(&mut self, atom: Atom, axiom: Axiom) -> Result<Option<Atom>, AllocError> {
        match axiom {
            Axiom::Sub { left, right } => self.inclusion(atom, left, right),
            Axiom::SubRole { left, right } => Ok(role_inclusion(atom, left, right)),
            _ => Ok(None),
        }
    }

    /// The atom that puts a member of the left side into the right one.
    fn inclusion(
        &mut self,
        atom: Atom,
        left: Basic,
        right: Basic,
    ) -> Result<Option<Atom>, AllocError> {
        let Some(term) = atom.member_of(left) else {
            return Ok(None);
        };
        match right {
            Basic::Concept(name) => Ok(Some(Atom::Concept { name, term })),
            Basic::Exists(role) => self.to_null(term, role),
        }
    }

    /// The atom of the role from the term to its null for the role, where that isn't too deep.
    fn to_null(&mut self, term: usize, role: Role) -> Result<Option<Atom>, AllocError> {
        let depth = self.depth_of(term).saturating_add(1);
        if depth > self.depth {
            return Ok(None);
        }
        let null = Null {
            parent: term,
            role,
            depth,
        };
        let place = self.place_of(null)?;
        Ok(Some(role.atom(term, self.individuals.saturating_add(place))))
    }

    /// The place of the null in the list, behind which it is put where it is new.
    fn place_of(&mut self, null: Null) -> Result<usize, AllocError> {
        if let Some(place) = self.nulls.iter().position(|known| *known == null) {
            return Ok(place);
        }
        let place = self.nulls.len();
        self.nulls.push(null)?;
        Ok(place)
    }

    /// How deep the term is nested. Individuals are not.
    fn depth_of(&self, term: usize) -> usize {
        let Some(place) = term.checked_sub(self.individuals) else {
            return 0;
        };
        match self.nulls.get(place) {
            Some(null) => null.depth,
            None => 0,
        }
    }

    /// Puts the atom behind the atoms where it is new.
    fn put(&mut self, atom: Atom) -> Result<(), AllocError> {
        if !self.atoms.contains(&atom) {
            self.atoms.push(atom)?;
        }
        Ok(())
    }

    /// The atoms.
    pub fn atoms(&self) -> &[Atom] {
        self.atoms.as_slice()
    }

    /// Whether the term is an individual.
    pub fn is_individual(&self, term: usize) -> bool {
        term < self.individuals
    }
}

/// The atom that puts a pair of the left role into the right one.
fn role_inclusion(atom: Atom, left: Role, right: Role) -> Option<Atom> {
    let (first, second) = atom.pair_of(left)?;
    Some(right.atom(first, second))
}

impl Chase {
    /// Whether no term is in both sides of a disjointness of concepts, and no pair in both sides of one of roles.
    pub fn is_consistent(&self, axioms: &[Axiom]) -> bool {
        for axiom in axioms {
            if self.is_broken(*axiom) {
                return false;
            }
        }
        true
    }

    /// Whether the axiom is a disjointness, and some term or pair is in both sides.
    fn is_broken(&self, axiom: Axiom) -> bool {
        match axiom {
            Axiom::Disjoint { left, right } => self.have_member(left, right),
            Axiom::DisjointRole { left, right } => self.have_pair(left, right),
            _ => false,
        }
    }

    /// Whether some term is in both basic concepts.
    fn have_member(&self, left: Basic, right: Basic) -> bool {
        for atom in &self.atoms {
            if let Some(term) = atom.member_of(left) {
                if self.is_member(term, right) {
                    return true;
                }
            }
        }
        false
    }

    /// Whether the term is in the basic concept.
    fn is_member(&self, term: usize, basic: Basic) -> bool {
        for atom in &self.atoms {
            if atom.member_of(basic) == Some(term) {
                return true;
            }
        }
        false
    }

    /// Whether some pair is in both roles.
    fn have_pair(&self, left: Role, right: Role) -> bool {
        for atom in &self.atoms {
            if let Some(pair) = atom.pair_of(left) {
                if self.is_pair(pair, right) {
                    return true;
                }
            }
        }
        false
    }

    /// Whether the pair is in the role.
    fn is_pair(&self, pair: (usize, usize), role: Role) -> bool {
        let (first, second) = pair;
        self.atoms.contains(&role.atom(first, second))
    }
}
