//! The facts of a clash.

/// One fact or two by their numbers. One fact comes before two, and then the numbers go from left to right.
#[derive(Clone, Copy, Debug, PartialEq, Eq, PartialOrd, Ord)]
pub(crate) enum ClashFacts {
    /// A self-inconsistent fact.
    One(u32),
    /// Two facts in conflict, the lesser number first.
    Two(u32, u32),
}
