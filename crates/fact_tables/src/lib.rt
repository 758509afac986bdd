//! Reads the two tables beside an ontology: facts, and pairs that say which fact is preferred to which.
#![tactic(auto)]

mod fact_record;
mod fact_table;
mod facts;
mod law;
mod number;
mod pairs;
mod refusal;
mod rows;

pub use fact_table::FactTable;
pub use facts::read_facts;
pub use law::one_reading;
pub use pairs::read_pairs;
pub use refusal::{FactRefusal, PairRefusal};
