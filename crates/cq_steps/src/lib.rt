//! PerfectRef's moves on conjunctive queries, their normal form, and lists of queries with the moves that made them
//! (Calvanese and others 2007).
#![tactic(auto)]

mod all_moves;
mod axiom_step;
mod closure;
mod law;
mod moves;
mod normal_form;
mod order;
mod reduce_step;
mod unbound;
mod unify;

pub use all_moves::successors;
pub use axiom_step::{apply, negative_query};
pub use closure::{Closure, Member};
pub use law::{closing_list_is_closure, derived_is_in_closure};
pub use moves::Move;
pub use normal_form::normal;
pub use reduce_step::reduce;
