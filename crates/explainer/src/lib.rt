//! Small evidence from present facts: cores, and a fact of each cause that isn't present.
#![tactic(auto)]

mod cores;
mod fact_set;
mod growth;
mod laws;
mod missing_facts;

pub use cores::{Core, core_of};
pub use laws::scope_covers_components;
pub use missing_facts::missing;
