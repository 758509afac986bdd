//! Confirms a report on one query by its rules: whoever wrote it, what is confirmed is true.
#![tactic(auto)]

mod confirmed;
mod confirming;
mod laws;
mod none_left_out;
mod obeying;
mod order;
mod reader;
mod ready;
mod taking;

pub use confirmed::{ConfirmFault, Confirmed};
pub use confirming::confirm;
pub use laws::{reading_tells, right_answers_say_all};
