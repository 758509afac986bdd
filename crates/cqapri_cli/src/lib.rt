//! The jobs of `cqapri` and the call that runs them.
#![tactic(auto)]

mod bench_job;
mod classify_job;
mod confirm_job;
mod counting;
mod counts_writer;
mod jobs;
mod law;
mod preparing;
mod report_law;
mod table_job;
mod top_call;
mod verdict_writer;
mod writing;

pub use cqapri_words::{Refusal, Status};
pub use law::{each_end_is_one, each_table_end_is_one};
pub use report_law::{accepted_is_right, open_is_counted, right_lines_spend, summary_is_right};
pub use top_call::run;
