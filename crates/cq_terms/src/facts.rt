//! Facts, pairs of the priority, and which repairs are asked about.

/// The two kinds of predicate, numbered apart.
#[derive(Clone, Copy, Debug, PartialEq, Eq)]
pub enum Kind {
    /// A concept name.
    Concept,
    /// A role name.
    Link,
}

/// A fact of the table. Predicates and individuals are numbers, each from 0 by first appearance.
#[derive(Clone, Copy, Debug, PartialEq, Eq, Hash)]
pub enum Fact {
    /// The individual is in the concept.
    Concept { pred: u32, ind: u32 },
    /// The role leads from the first individual to the second.
    Link { pred: u32, from: u32, to: u32 },
}

/// A line of the priority: the fact of the first number is preferred to that of the second.
#[derive(Clone, Copy, Debug, PartialEq, Eq)]
pub struct Pair {
    /// The number of the preferred fact.
    pub upper: u32,
    /// The number of the other fact.
    pub lower: u32,
}

/// Which repairs are the chosen ones.
#[derive(Clone, Copy, Debug, PartialEq, Eq)]
pub enum Repairs {
    /// All maximal consistent parts of the table.
    All,
    /// Those that no consistent part improves (Pareto-optimal; Bienvenu and Bourgaux 2022).
    Pareto,
}
