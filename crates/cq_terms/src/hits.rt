//! What matches and conflicts are told by.

use crate::Ids;

/// A match of a query: the individuals of its head, and the ascending numbers of the facts onto which its atoms map.
#[derive(Debug, Drop)]
pub struct Hit {
    /// The individuals of the head, in its order.
    pub tuple: Ids,
    /// The numbers of the facts, ascending.
    pub image: Ids,
}

/// A self-inconsistent fact or two facts in conflict, with the rewritten disjointness that shows it.
#[derive(Debug, Drop)]
pub struct Clash {
    /// One or two fact numbers, ascending.
    pub facts: Ids,
    /// The number of the disjointness.
    pub axiom: u32,
    /// The place of the query in the closure of this disjointness.
    pub member: u32,
}
