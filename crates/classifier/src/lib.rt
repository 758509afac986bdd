//! Classification: the whole report on a query, with the three verdicts of each candidate.
#![tactic(auto)]

mod copies;
mod summary;
mod whole;

pub use answer_desk::{ClassifyFault, Desk, Plan, Verdicts};
pub use summary::Summary;
pub use whole::classify;
