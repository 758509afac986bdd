//! Literals, clauses and unit propagation, with the laws of refutation. The definitions stand in `specs/`.
#![tactic(auto)]

mod findings;
mod laws;
mod literals;

pub use findings::{Finding, FreeLiterals};
pub use laws::{
    clauses_of_a_scope_refute_alone, closed_literals_are_not_refuted, following_clause_is_true,
    following_clause_keeps_assignments, more_refutes_more, refuted_literals_are_false,
};
pub use literals::{are_below, is_present, literal_of, opposite, variable_of};
