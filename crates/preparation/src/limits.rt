//! How much a query may take.

/// The most members of a closure, the most self-inconsistent facts and conflicts, and the most pairs of a tuple and a support of it.
#[derive(Clone, Copy, Debug, PartialEq, Eq)]
pub struct Limits {
    /// How many members the closure of the query may have, and that of each disjointness.
    pub members: u32,
    /// How many self-inconsistent facts and pairs in conflict there may be together.
    pub conflicts: u64,
    /// How many pairs of a tuple and a support of it there may be.
    pub supports: u64,
}
