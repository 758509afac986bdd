//! The types of a knowledge base and a query, seen as plain lists and records.
#![tactic(auto)]

mod axioms;
mod conflicts;
mod facts;
mod flat_lists;
mod hits;
mod kb;
mod lists;
mod memory;
mod names;
mod query;
mod safe_query;

pub use axioms::{Axiom, Basic, Role};
pub use conflicts::Conflicts;
pub use facts::{Fact, Kind, Pair, Repairs};
pub use flat_lists::{FlatLists, KeyedNumber};
pub use hits::{Clash, Hit};
pub use kb::Kb;
pub use lists::{IdLists, Ids, Longs, Texts, has_sorted};
pub use memory::NoMemory;
pub use names::{Names, Vocab};
pub use query::{Cq, QAtom, Term};
