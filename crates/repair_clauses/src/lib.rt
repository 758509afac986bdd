//! What base clauses, cause clauses and components are, and the laws over them. No running code: the definitions stand in `specs/`.
#![tactic(auto)]

mod laws;

pub use laws::{
    cause_clause_excludes_the_cause, closed_sets_separate_clauses, satisfied_by_chosen_facts,
    satisfied_by_chosen_repairs,
};
