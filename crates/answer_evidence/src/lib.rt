//! What an answer of the desk has shown: its evidence, its scope, what a try looks for, and the log of a search over a report.
#![tactic(auto)]

mod aim;
mod copies;
mod evidence;
mod fact_set;
mod lists;
mod opening;
mod ranges;
mod report_log;

pub use aim::Aim;
pub use copies::{are_utf8, copied_lists, copied_texts, fit, fit_long};
pub use evidence::Evidence;
pub use lists::is_among;
pub use opening::{Opening, scope_of};
pub use ranges::{numbers_from, up_to};
pub use report_log::ReportLog;
