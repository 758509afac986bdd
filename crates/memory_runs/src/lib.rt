//! Whole runs over a shelf and two sinks in memory, for tests.
#![tactic(auto)]

mod runs;
mod tables;

pub use runs::{
    Ended, STAFF, Texts, classified, confirmed, end_of, ended_over, put_all, shelf, sink,
    tabulated, words,
};
pub use tables::is_so;
