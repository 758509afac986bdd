//! The moves from one query to the next.

/// A move on a query; atoms and axioms go by their places.
#[derive(Clone, Copy, Debug, PartialEq, Eq)]
pub enum Move {
    /// The axiom is applied to the atom.
    Axiom { atom: u32, axiom: u32 },
    /// The second atom is made one with the first.
    Reduce { first: u32, second: u32 },
}
