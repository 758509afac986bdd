//! Evaluates queries plainly, by backtracking over a table: all images of the members of a union, and whether a query has a
//! match with a given tuple and image.
#![tactic(auto)]

mod candidates;
mod exactly;
mod facts;
mod hits;
mod image;
mod places;
mod search;

pub use exactly::matches_with;
pub use facts::PlainFacts;
pub use hits::images_plain;
