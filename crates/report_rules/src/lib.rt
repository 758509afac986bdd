//! The rules that each line of a report obeys, and when a report is accepted or broken first. The definitions stand in `specs/`.
#![tactic(auto)]

mod kinds;
mod place;
mod rule;

pub use kinds::{own_rule, place_after};
pub use place::Place;
pub use rule::Rule;
