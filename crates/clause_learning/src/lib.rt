//! What a clause that is false on a trail teaches, by the first unique implication point.
#![tactic(auto)]

mod analysis;
mod falsity;
mod lesson;
mod resolving;

pub use analysis::{Marks, analyse};
pub use lesson::Lesson;
