//! The chase, repairs and verdicts of small inputs by their definitions alone, for tests to compare with.
#![tactic(auto)]

mod atoms;
mod chase;
mod matching;
mod repairs;
mod verdicts;
#[cfg(test)]
mod worked;

pub use atoms::{Atom, Axiom, Basic, Role};
pub use chase::{Chase, ChaseFault};
pub use matching::{Asked, MOST_VARIABLES, Place, Query, Tuple};
pub use repairs::{MOST_FACTS, Mode};
pub use verdicts::{Judged, Judgement, Outcome, Preferred, Table, judge};
