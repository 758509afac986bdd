//! The words of the program, its statuses, and the texts of its refusals.
#![tactic(auto)]

mod command_line;
mod cycle;
mod fact_texts;
mod fault;
mod files;
mod law;
mod number;
mod options;
mod pieces;
mod refusal;
mod status;
mod words;

pub use cycle::Cycle;
pub use fault::Fault;
pub use files::{File, Quantity};
pub use law::{one_meaning, takes_plain_words, words_ask_nothing_where_refused};
pub use options::{Command, CommandOption};
pub use pieces::write_pieces;
pub use refusal::Refusal;
pub use status::Status;
pub use words::{Job, Options, Paths, job_of};
