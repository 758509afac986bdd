//! A store of clauses, each named by a reference that stays until the gaps are closed.
#![tactic(auto)]

mod arena;
mod clause_ref;
mod slots;

pub use arena::Arena;
pub use clause_ref::ClauseRef;
