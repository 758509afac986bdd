//! The report on a query that is prepared.
#![tactic(auto)]

mod writing;

pub use writing::write_report;
