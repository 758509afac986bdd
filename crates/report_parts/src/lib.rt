//! The parts of what is kept of a report's lines: the blocks of queries, the cores, and the tries that have ended.
#![tactic(auto)]

mod assumptions;
mod block;
mod blocks;
mod codes;
mod ended_tries;
mod ended_try;
mod lists;
mod moves;
mod told_core;
mod told_cores;

pub use assumptions::{are_present, is_absent_alone, is_present_alone};
pub use block::Block;
pub use blocks::{add_query, find_block, negative_queries};
pub use codes::{are_equal, is_same};
pub use ended_tries::{
    has_ended, is_brave_spent, is_each_refuted, is_one_absence_spent, is_one_shared,
    is_selector_ended,
};
pub use ended_try::{EndedTry, same_question};
pub use lists::{
    are_below, are_below_long, ascend, ascend_by_variable, ascend_long, has_long, has_longs,
};
pub use moves::{is_closed, is_new_result};
pub use told_core::Core;
pub use told_cores::{answer_drops, answer_drops_of_each, answer_keeps_one, core_at};
