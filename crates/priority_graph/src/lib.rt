//! The priority between facts in conflict: which fact is better than which, an order of all facts by it, or a cycle.
#![tactic(auto)]

mod better;
mod clashes;
mod cycle;
mod laws;
mod numbers;
mod order;
mod refusal;
mod split;

pub use better::{Better, restrict};
pub use laws::{
    chosen_repair_exists, core_lies_in_chosen, direct_tells_cores, empty_is_all,
    pairs_rank_as_pareto, priority_means_the_input, restricted_is_pareto,
};
pub use refusal::PriorityRefusal;
