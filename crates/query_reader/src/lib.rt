//! Reads a query text, or names the first fault by its byte.
#![tactic(auto)]

mod atom;
mod between;
mod body;
mod constant;
mod draft;
mod head;
mod law;
mod numbering;
mod place;
mod read;
mod refusal;
mod token;

pub use law::laws_of_the_grammar;
pub use read::read_query;
pub use refusal::QueryRefusal;
