//! Clauses whose assignments are the chosen repairs: those of conflicts and facts, those of causes, and components of facts.
#![tactic(auto)]

mod base;
mod cause;
mod literals;
mod reached;
mod twins;

pub use base::base_clauses;
pub use cause::cause_clause;
pub use reached::component;
