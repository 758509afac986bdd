//! The trail of a clause-learning solver: the assigned literals in order, and complete propagation.
#![tactic(auto)]

mod assignment;
mod branching;
mod looks;
mod propagate;
mod trail;
mod trail_entry;

pub use trail::Trail;
pub use trail_entry::TrailEntry;
