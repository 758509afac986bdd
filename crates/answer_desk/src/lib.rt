//! Each candidate's three questions, asked of one clause store that serves all answers, with the lines of the evidence.
#![tactic(auto)]

mod desk;
mod plan;
mod work;

pub use desk::Desk;
pub use plan::{ClassifyFault, Plan, Verdicts};
