//! The bytes of a report, read line by line.
#![tactic(auto)]

mod lines;

pub use lines::first_line;
