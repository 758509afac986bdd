//! What evaluators of conjunctive queries share: variables bound to individuals, atoms that become facts, and the rows of
//! whole matches.
#![tactic(auto)]

mod bindings;
mod hits;
mod row;
mod whole;

pub use bindings::{Binding, Walk, bind_atom, bind_term, known};
pub use hits::hits_of;
pub use row::Row;
pub use whole::add_row;
