//! The closure of a query under axioms, by PerfectRef (Calvanese and others 2007).
#![tactic(auto)]

mod breadth_first;
mod code;
mod member_codes;
mod refusal;

pub use breadth_first::close;
pub use refusal::CloseRefusal;
