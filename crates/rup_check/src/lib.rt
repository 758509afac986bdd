//! A checker of refutations by unit propagation, over clauses that can be added and forgotten.
#![tactic(auto)]

mod checker;
mod clauses;
mod hints;
mod lists;
mod marks;
mod numbers;
mod propagation;
mod slot;

pub use checker::Checker;
