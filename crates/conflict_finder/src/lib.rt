//! Finds the conflicts of a table under its ontology.
#![tactic(auto)]

mod clash_facts;
mod clashes;
mod closures;
mod finder;
mod first_shown;
mod images;
mod others;
mod refusal;
mod scan;
mod sought;

pub use finder::{FoundConflicts, find};
pub use refusal::FindRefusal;
