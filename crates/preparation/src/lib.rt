//! What is known of a knowledge base and a query before the first line of a report: the query's closure, the conflicts, the
//! priority between them, and the candidates with their causes.
#![tactic(auto)]

mod limits;
mod preparing;
mod refusal;

pub use limits::Limits;
pub use preparing::{Prepared, prepare};
pub use refusal::PrepareRefusal;
