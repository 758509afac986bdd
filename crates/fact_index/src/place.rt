//! Places at which facts stand.

/// What the index has a list for: a predicate, or a predicate with an individual at one of its places.
#[derive(Clone, Copy, Debug, PartialEq, Eq, Hash)]
pub(crate) enum Place {
    /// A concept.
    Concept { pred: u32 },
    /// A role.
    Role { pred: u32 },
    /// A concept with the individual in it.
    Member { pred: u32, ind: u32 },
    /// A role with the individual that it leads from.
    From { pred: u32, ind: u32 },
    /// A role with the individual that it leads to.
    To { pred: u32, ind: u32 },
}
