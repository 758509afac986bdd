//! Reads the text of an ontology: inclusions and disjointnesses of basic concepts and of roles, one a line.
#![tactic(auto)]

mod axiom;
mod law;
mod lines;
mod name;
mod put;
mod read;
mod refusal;
mod words;

pub use law::{first_appearance, one_reading};
pub use name::is_name;
pub use read::read_axioms;
pub use refusal::AxiomRefusal;
