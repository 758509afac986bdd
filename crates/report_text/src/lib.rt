//! The lines of a report as JSON: printed, read, and written to a sink one by one.
#![tactic(auto)]

mod answer;
mod ask;
mod conflict;
mod core_line;
mod cq_line;
mod done;
mod end;
mod forget;
mod head;
mod learn;
mod line;
mod line_sink;
mod pieces;
mod printing;
mod reading;
mod report;
mod try_line;

pub use line::{How, Line, Origin, Question, Verdict};
pub use line_sink::{LineSink, bytes_tell_their_lines};
pub use pieces::laws_of_pieces;
pub use printing::print;
pub use reading::{
    ReadRefusal, equal_texts_are_of_equal_lines, read, read_at_once, read_by_value,
    texts_have_no_line_feed,
};
pub use report::{LineFault, Report};
