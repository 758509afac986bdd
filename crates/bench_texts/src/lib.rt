//! The texts of the generated input: an ontology, facts, a priority and a query of a chosen size.
#![tactic(auto)]

mod facts;
mod group;
mod texts;

pub use texts::{Texts, bench_texts};
