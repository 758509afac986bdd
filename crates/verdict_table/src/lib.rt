//! The verdicts of a report as a table: one record for each answer.
#![tactic(auto)]

mod bad_line;
mod fault;
mod laws;
mod row;
mod table;

pub use fault::TableFault;
pub use laws::whole_reports_are_taken;
pub use table::write_table;
