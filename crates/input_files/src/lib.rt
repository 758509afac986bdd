//! Fetches and reads the files that the words name, and fetches the report to confirm.
#![tactic(auto)]

mod fetch;
mod input;
mod law;
mod refusals;
mod report;
mod texts;

pub use input::{Input, read_input};
pub use law::{one_end, one_reading};
pub use report::fetch_report;
