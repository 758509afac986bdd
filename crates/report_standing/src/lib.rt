//! What is kept of the lines of a report on one query, and the rule of each kind of line, decided over it.
#![tactic(auto)]

mod rules;
mod standing;
mod takes;

pub use rules::ask::is_right_ask;
pub use rules::closed::leaves_closed;
pub use rules::conflict::is_right_conflict;
pub use rules::cq::joins;
pub use rules::head::is_right_head;
pub use standing::Standing;
