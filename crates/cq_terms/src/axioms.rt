//! Roles, basic concepts and axioms of DL-Lite_R (Calvanese and others 2007).

/// A role: a role name or its inverse.
#[derive(Clone, Copy, Debug, PartialEq, Eq)]
pub struct Role {
    /// The number of the role name.
    pub pred: u32,
    /// Whether the role is the inverse of the name.
    pub inverse: bool,
}

/// A basic concept.
#[derive(Clone, Copy, Debug, PartialEq, Eq)]
pub enum Basic {
    /// A concept name, by its number.
    Concept(u32),
    /// What has some successor by the role.
    Has(Role),
}

/// An axiom of the ontology.
#[derive(Clone, Copy, Debug, PartialEq, Eq)]
pub enum Axiom {
    /// Whatever is in `left` is in `right`.
    Sub { left: Basic, right: Basic },
    /// Nothing is in both.
    Disjoint { left: Basic, right: Basic },
    /// Each pair in `left` is in `right`.
    SubRole { left: Role, right: Role },
    /// No pair is in both.
    DisjointRole { left: Role, right: Role },
}
