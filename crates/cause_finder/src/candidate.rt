//! A candidate with its causes.

use cq_terms::{IdLists, Ids};

/// A tuple that the whole table entails, with its causes: the consistent sets of facts that entail it and contain no smaller
/// one that does.
#[derive(Debug, Drop)]
pub struct Candidate {
    /// The individuals of the head, in its order.
    pub tuple: Ids,
    /// The causes, in lexicographic order, each as the ascending list of its fact numbers. There may be none.
    pub causes: IdLists,
    /// For each cause the least place of a member of the closure that matches with the tuple and exactly that image.
    pub members: Ids,
}
