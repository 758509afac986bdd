//! Axioms of DL-Lite_R, and atoms over terms that are numbers: which terms an atom puts into a basic concept or a role.

/// A role: the number of its name, and whether it is the inverse of it.
#[derive(Clone, Copy, Debug, PartialEq, Eq)]
pub struct Role {
    pub name: usize,
    pub is_inverse: bool,
}

/// A basic concept: the number of a concept name, or what has a successor by a role.
#[derive(Clone, Copy, Debug, PartialEq, Eq)]
pub enum Basic {
    Concept(usize),
    Exists(Role),
}

/// An axiom. The left side is included in the right one, or the two are disjoint.
#[derive(Clone, Copy, Debug, PartialEq, Eq)]
pub enum Axiom {
    Sub { left: Basic, right: Basic },
    Disjoint { left: Basic, right: Basic },
    SubRole { left: Role, right: Role },
    DisjointRole { left: Role, right: Role },
}

/// An atom over terms. The least numbers of terms are individuals; a fact is an atom over individuals.
#[derive(Clone, Copy, Debug, PartialEq, Eq)]
pub enum Atom {
    Concept { name: usize, term: usize },
    Link { name: usize, from: usize, to: usize },
}

impl Role {
    /// The atom that says that the role leads from the first term to the second.
    pub fn atom(self, first: usize, second: usize) -> Atom {
        let name = self.name;
        if self.is_inverse {
            return Atom::Link {
                name,
                from: second,
                to: first,
            };
        }
        Atom::Link {
            name,
            from: first,
            to: second,
        }
    }
}

impl Atom {
    /// The terms from which and to which the role leads by the atom.
    pub fn pair_of(self, role: Role) -> Option<(usize, usize)> {
        let Atom::Link { name, from, to } = self else {
            return None;
        };
        if name != role.name {
            return None;
        }
        if role.is_inverse {
            return Some((to, from));
        }
        Some((from, to))
    }

    /// The term that the atom puts into the basic concept.
    pub fn member_of(self, basic: Basic) -> Option<usize> {
        match basic {
            Basic::Concept(concept) => self.member_by_name(concept),
            Basic::Exists(role) => {
                let (first, _) = self.pair_of(role)?;
                Some(first)
            }
        }
    }

    /// The term that the atom puts into the concept name.
    fn member_by_name(self, concept: usize) -> Option<usize> {
        let Atom::Concept { name, term } = self else {
            return None;
        };
        if name == concept { Some(term) } else { None }
    }
}
