//! Lessons of falsified clauses.

/// What a falsified clause teaches: a clause, and where to go back to.
#[derive(Debug, Drop)]
pub struct Lesson {
    /// The literals of the clause, in no order.
    pub literals: Vec<u32>,
    /// The literal of the clause that became false on the current level.
    pub asserting: u32,
    /// The level on which the clause forces the asserting literal: the second highest of its literals, 0 where there is none.
    pub back: u32,
}
