//! What the rules of a report ask of the knowledge base, found out without index and join: conflicts, priority, cores, candidates, clauses.
#![tactic(auto)]

mod base;
mod candidate;
mod candidates;
mod clashes;
mod clauses;
mod conflicts;
mod cores;
mod direct;
mod learnable;
mod priority;

pub use base::base_clauses;
pub use candidate::Candidate;
pub use candidates::find_candidates;
pub use clauses::Clauses;
pub use conflicts::find_conflicts;
pub use cores::{are_facts, is_core};
pub use direct::{is_easy_absence, is_easy_cause};
pub use learnable::{Learnable, learnable_facts};
pub use priority::{find_priority, ranked};
