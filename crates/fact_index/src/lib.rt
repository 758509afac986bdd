//! The facts of a table, with the lists of the numbers of those of each predicate.
#![tactic(auto)]

mod gathered;
mod index;
mod place;

pub use index::Index;
