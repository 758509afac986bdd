//! A clause-learning solver over scopes: clauses are added and dropped, and each learned clause goes to a log first.
#![tactic(auto)]

mod counts;
mod labels;
mod outcome;
mod seek;
mod seeking;
mod solver;
mod store;

pub use outcome::{Budget, Outcome, SolveFault};
pub use solver::Solver;
