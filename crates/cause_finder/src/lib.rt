//! Finds each candidate of a query, with its causes.
#![tactic(auto)]

mod answers;
mod candidate;
mod gathered;
mod groups;
mod parts;
mod refusal;
mod smaller;
mod support;

pub use answers::causes;
pub use candidate::Candidate;
pub use refusal::CauseRefusal;
