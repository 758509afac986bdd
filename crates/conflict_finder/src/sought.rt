//! What the members of the closures are asked for.

/// What is looked for.
#[derive(Clone, Copy, Debug)]
pub(crate) enum Sought {
    /// Single facts.
    Singles,
    /// Pairs of facts.
    Pairs,
}
