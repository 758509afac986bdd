//! Finds the matches of a query in a table.
#![tactic(auto)]

mod candidates;
mod hits;
mod refusal;
mod search;

pub use hits::matches;
pub use refusal::JoinRefusal;
