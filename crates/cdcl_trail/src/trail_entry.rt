//! Assigned literals.

use clause_arena::ClauseRef;

/// An assigned literal, with its level and the clause that forced it. A decided literal, and that of a unit clause, has no reason.
#[derive(Clone, Copy, Debug, PartialEq, Eq)]
pub struct TrailEntry {
    /// Twice the variable, and one more where it is absent.
    pub literal: u32,
    /// The level on which it was assigned.
    pub level: u32,
    /// The clause that forced it.
    pub reason: Option<ClauseRef>,
}
